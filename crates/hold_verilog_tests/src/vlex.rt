//! The tokens of texts, each by hand from the rules of the language that is read.

use hold_vlex::{LexFault, Lexer, Sort};

/// A text with its tokens and the fault after them, which is None where it reads to its end.
struct Row {
    text: &'static [u8],
    tokens: &'static [(Sort, &'static [u8], u64)],
    fault: Option<LexFault>,
}

static ROWS: [Row; 30] = [
    Row {
        text: b"",
        tokens: &[],
        fault: None,
    },
    Row {
        text: b" \t\n\r\x0c",
        tokens: &[],
        fault: None,
    },
    // Words, numbers, signs.
    Row {
        text: b"_a$1'b0 12 12a 3'd1",
        tokens: &[
            (Sort::Word, b"_a$1", 0),
            (Sort::Other, b"'b0", 4),
            (Sort::Number, b"12", 8),
            (Sort::Other, b"12a", 11),
            (Sort::Other, b"3'd1", 15),
        ],
        fault: None,
    },
    Row {
        text: b"a[0]=$;",
        tokens: &[
            (Sort::Word, b"a", 0),
            (Sort::Sign, b"[", 1),
            (Sort::Number, b"0", 2),
            (Sort::Sign, b"]", 3),
            (Sort::Sign, b"=", 4),
            (Sort::Sign, b"$", 5),
            (Sort::Sign, b";", 6),
        ],
        fault: None,
    },
    // Constants in every base and case, and what is none.
    Row {
        text: b"1'b0 1'B1 1'd0 1'D1 1'h0 1'H1 1'o0 1'O1",
        tokens: &[
            (Sort::Constant(false), b"1'b0", 0),
            (Sort::Constant(true), b"1'B1", 5),
            (Sort::Constant(false), b"1'd0", 10),
            (Sort::Constant(true), b"1'D1", 15),
            (Sort::Constant(false), b"1'h0", 20),
            (Sort::Constant(true), b"1'H1", 25),
            (Sort::Constant(false), b"1'o0", 30),
            (Sort::Constant(true), b"1'O1", 35),
        ],
        fault: None,
    },
    Row {
        text: b"1'b2 1'b 1'b00 1'x0 2'b0 1''0 '",
        tokens: &[
            (Sort::Other, b"1'b2", 0),
            (Sort::Other, b"1'b", 5),
            (Sort::Other, b"1'b00", 9),
            (Sort::Other, b"1'x0", 15),
            (Sort::Other, b"2'b0", 20),
            (Sort::Other, b"1''0", 25),
            (Sort::Other, b"'", 30),
        ],
        fault: None,
    },
    // Comments.
    Row {
        text: b"a//b /* c\nd",
        tokens: &[(Sort::Word, b"a", 0), (Sort::Word, b"d", 10)],
        fault: None,
    },
    Row {
        text: b"a// b",
        tokens: &[(Sort::Word, b"a", 0)],
        fault: None,
    },
    Row {
        text: b"/* // */a/**/b",
        tokens: &[(Sort::Word, b"a", 8), (Sort::Word, b"b", 13)],
        fault: None,
    },
    Row {
        text: b"a /*/ b",
        tokens: &[(Sort::Word, b"a", 0)],
        fault: Some(LexFault::OpenComment(2)),
    },
    Row {
        text: b"/ *",
        tokens: &[(Sort::Sign, b"/", 0), (Sort::Sign, b"*", 2)],
        fault: None,
    },
    // Attributes.
    Row {
        text: b"(* k = \"*)\\\" *)\" *)a",
        tokens: &[(Sort::Word, b"a", 19)],
        fault: None,
    },
    Row {
        text: b"(*)*)a",
        tokens: &[(Sort::Word, b"a", 5)],
        fault: None,
    },
    Row {
        text: b"(*)",
        tokens: &[],
        fault: Some(LexFault::OpenComment(0)),
    },
    Row {
        text: b"a(* \"*)",
        tokens: &[(Sort::Word, b"a", 0)],
        fault: Some(LexFault::OpenComment(1)),
    },
    Row {
        text: b"( *)",
        tokens: &[
            (Sort::Sign, b"(", 0),
            (Sort::Sign, b"*", 2),
            (Sort::Sign, b")", 3),
        ],
        fault: None,
    },
    // Directives.
    Row {
        text: b"`timescale 1ns/1ps\na`resetall`celldefine\n`default_nettype none",
        tokens: &[(Sort::Word, b"a", 19)],
        fault: None,
    },
    Row {
        text: b"`endcelldefine",
        tokens: &[],
        fault: None,
    },
    Row {
        text: b"`timescales `define_1$ ` `Timescale",
        tokens: &[
            (Sort::Directive, b"`timescales", 0),
            (Sort::Directive, b"`define_1", 12),
            (Sort::Sign, b"$", 21),
            (Sort::Directive, b"`", 23),
            (Sort::Directive, b"`Timescale", 25),
        ],
        fault: None,
    },
    // Escaped names.
    Row {
        text: b"\\a+b//c d\\e\n",
        tokens: &[
            (Sort::Escaped, b"a+b//c", 0),
            (Sort::Word, b"d", 8),
            (Sort::Escaped, b"e", 9),
        ],
        fault: None,
    },
    Row {
        text: b"\\module ",
        tokens: &[(Sort::Escaped, b"module", 0)],
        fault: None,
    },
    Row {
        text: b"a \\ b",
        tokens: &[(Sort::Word, b"a", 0)],
        fault: Some(LexFault::OpenName(2)),
    },
    Row {
        text: b"a \\bc",
        tokens: &[(Sort::Word, b"a", 0)],
        fault: Some(LexFault::OpenName(2)),
    },
    Row {
        text: b"\\",
        tokens: &[],
        fault: Some(LexFault::OpenName(0)),
    },
    Row {
        text: b"a \\bc\x7f ",
        tokens: &[(Sort::Word, b"a", 0)],
        fault: Some(LexFault::BadByte(5)),
    },
    Row {
        text: b"\\\x01 ",
        tokens: &[],
        fault: Some(LexFault::BadByte(1)),
    },
    // Bytes that fit no rule.
    Row {
        text: b"a\x7f\\",
        tokens: &[(Sort::Word, b"a", 0)],
        fault: Some(LexFault::BadByte(1)),
    },
    Row {
        text: b"a \x80",
        tokens: &[(Sort::Word, b"a", 0)],
        fault: Some(LexFault::BadByte(2)),
    },
    Row {
        text: b"\x0b",
        tokens: &[],
        fault: Some(LexFault::BadByte(0)),
    },
    Row {
        text: b"//\xff\n/*\xff*/(*\xff*)`resetall\xff\n\x00",
        tokens: &[],
        fault: Some(LexFault::BadByte(25)),
    },
];

/// Whether the text reads as its tokens, and then twice as its fault or its end.
fn reads(row: &Row) -> bool {
    let mut lexer = Lexer::new(row.text);
    for &(sort, spelled, at) in row.tokens {
        match lexer.next() {
            Ok(Some(token)) if token.sort == sort && token.text == spelled && token.at == at => {}
            _ => return false,
        }
    }
    ends(&mut lexer, row.fault) && ends(&mut lexer, row.fault)
}

fn ends(lexer: &mut Lexer, fault: Option<LexFault>) -> bool {
    match lexer.next() {
        Ok(None) => fault.is_none(),
        Ok(Some(_)) => false,
        Err(found) => fault == Some(found),
    }
}

#[test]
fn texts_read_as_their_tokens(rt: HostRuntime) {
    for (i, row) in ROWS.iter().enumerate() {
        assert!(rt; reads(row), "row {i}");
    }
}

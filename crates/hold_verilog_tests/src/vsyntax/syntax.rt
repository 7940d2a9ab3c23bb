//! Texts with each form of piece; and texts without a syntax tree since they can't be cut into tokens or pieces that
//! stand in their places.

use hold_base::Stop;
use hold_vlex::LexFault;
use hold_vsyntax::{SyntaxFault, syntax_tree};
use std::alloc::Global;

/// What a text is answered.
#[derive(Clone, Copy)]
enum Answer {
    Tree,
    Lex(LexFault),
    Syntax(u64),
    LeftOut(&'static [u8], u64),
}

static ROWS: [(&'static [u8], Answer); 59] = [
    (b"module m; endmodule", Answer::Tree),
    (b"module m(); endmodule", Answer::Tree),
    (
        b"module m(a, \\b[0] ); input a, \\b[0] ; endmodule",
        Answer::Tree,
    ),
    (
        b"module m(input a, b, output wire [3:0] c, d); endmodule",
        Answer::Tree,
    ),
    (
        b"module \\wire (a, b); input wire [1:0] a, b; wire c; wire [0:2] d, e; endmodule",
        Answer::Tree,
    ),
    (
        b"module m; wire b; wire [3:0] c, d, e; assign a = b, c[3] = 1'b0, d[3:2] = e[1:0]; endmodule",
        Answer::Tree,
    ),
    (
        b"module m; wire [3:0] b; INV u1(.A(a), .Y(b[3])), u2(), u3(.A(1'h1), .Y()); endmodule",
        Answer::Tree,
    ),
    (
        b"module m; DFF u(.A(1'B0), .B(1'b1), .C(1'd0), .D(1'D1), .E(1'o0), .F(1'O1), .G(1'h0), .H(1'H1)); endmodule",
        Answer::Tree,
    ),
    (
        b"`timescale 1ns/1ps\n`celldefine\nmodule m; /* ; */ (* x = \"*)\" *) wire a; // ;\nendmodule\n`endcelldefine",
        Answer::Tree,
    ),
    (b"", Answer::Syntax(0)),
    (b" // x", Answer::Syntax(5)),
    (b"`timescale 1ns module m; endmodule", Answer::Syntax(34)),
    (b"module m;", Answer::Syntax(9)),
    (b"module m; wire a; ", Answer::Syntax(18)),
    (b"module m; wire a", Answer::Syntax(10)),
    (b"module m; INV u() endmodule", Answer::Syntax(10)),
    (
        b"module e(clk, y);
  input clk;
  output y;
  wire a;
  wire b;
  DFF u1(.C(clk), .D(1'b0), .Q(a));
  INV u2(.A(a)",
        Answer::Syntax(101),
    ),
    (b"endmodule", Answer::Syntax(0)),
    (b"wire a; endmodule", Answer::Syntax(0)),
    (b"module input; endmodule", Answer::Syntax(0)),
    (b"module m(a,); endmodule", Answer::Syntax(0)),
    (b"module m(input a, wire b); endmodule", Answer::Syntax(0)),
    (b"module m(input a, output); endmodule", Answer::Syntax(0)),
    (b"module m(a, input b); endmodule", Answer::Syntax(0)),
    (b"module m; ; endmodule", Answer::Syntax(10)),
    (b"module m; input; endmodule", Answer::Syntax(10)),
    (b"module m; wire endmodule", Answer::Syntax(10)),
    (b"module m; wire assign; endmodule", Answer::Syntax(10)),
    (b"module m; wire [3] a; endmodule", Answer::Syntax(10)),
    (b"module m; wire [1'b1:0] a; endmodule", Answer::Syntax(10)),
    (b"module m; INV u; endmodule", Answer::Syntax(10)),
    (b"module m; INV u(a); endmodule", Answer::Syntax(10)),
    (b"module m; INV u(.A); endmodule", Answer::Syntax(10)),
    (b"module m; INV u(.A(2'b0)); endmodule", Answer::Syntax(10)),
    (b"module m; INV u(.A(1 'b0)); endmodule", Answer::Syntax(10)),
    (
        b"module m; INV u1(.A(a[3:0])); endmodule",
        Answer::Syntax(10),
    ),
    (b"module m; assign 1'b0 = a; endmodule", Answer::Syntax(10)),
    (b"module m; assign a = 0; endmodule", Answer::Syntax(10)),
    (b"module m; assign a = b,; endmodule", Answer::Syntax(10)),
    (b"module m; wire a, a; ; endmodule", Answer::Syntax(21)),
    (b"module m; endmodule wire a;", Answer::Syntax(20)),
    (b"module m; endmodule endmodule", Answer::Syntax(20)),
    (b"module m; endmodule ;", Answer::Syntax(20)),
    (b"module m; ; reg a; endmodule", Answer::Syntax(10)),
    (b"module m; reg a; ; endmodule", Answer::LeftOut(b"reg", 10)),
    (b"module m; wire a, reg", Answer::LeftOut(b"reg", 18)),
    (
        b"module m; endmodule module n; endmodule",
        Answer::LeftOut(b"module", 20),
    ),
    (
        b"module m; wire a; reg b; endmodule",
        Answer::LeftOut(b"reg", 18),
    ),
    (
        b"module m; wire and; endmodule",
        Answer::LeftOut(b"and", 15),
    ),
    (
        b"module m; wire \\and ; and u(); endmodule",
        Answer::LeftOut(b"and", 22),
    ),
    (b"module m #(p) (a); endmodule", Answer::LeftOut(b"#", 9)),
    (
        b"module m; INV #(reg) u(); endmodule",
        Answer::LeftOut(b"#", 14),
    ),
    (
        b"module m; assign a = {b, c}; tri d; endmodule",
        Answer::LeftOut(b"{", 21),
    ),
    (
        b"`include module m; endmodule",
        Answer::LeftOut(b"`include", 0),
    ),
    (b"module m; ` endmodule", Answer::LeftOut(b"`", 10)),
    (b"module module m; endmodule", Answer::LeftOut(b"module", 7)),
    (b"reg module; \x80", Answer::Lex(LexFault::BadByte(12))),
    (
        b"module m; wire reg /* ; endmodule",
        Answer::Lex(LexFault::OpenComment(19)),
    ),
    (b"module m; wire \\", Answer::Lex(LexFault::OpenName(15))),
];

/// Whether this fault is the answer.
fn is_fault(fault: &SyntaxFault, answer: Answer) -> bool {
    match (fault, answer) {
        (SyntaxFault::Lex(found), Answer::Lex(fault)) => *found == fault,
        (SyntaxFault::Syntax(at), Answer::Syntax(place)) => *at == place,
        (SyntaxFault::LeftOut(word, at), Answer::LeftOut(text, place)) => {
            word.bytes() == text && *at == place
        }
        _ => false,
    }
}

/// Whether the text is answered so.
fn is_answered(alloc: Global, text: &[u8], answer: Answer) -> bool {
    match (syntax_tree(alloc, text), answer) {
        (Ok(_), Answer::Tree) => true,
        (Err(Stop::Fault(fault)), answer) => is_fault(&fault, answer),
        _ => false,
    }
}

#[test]
fn texts_are_trees_or_refused(rt: HostRuntime) {
    for (i, (text, answer)) in ROWS.iter().enumerate() {
        assert!(rt; is_answered(rt.alloc(), text, *answer), "row {i}");
    }
}

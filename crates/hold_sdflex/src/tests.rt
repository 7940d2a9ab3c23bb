ghost use Rattle.std.specs.Prelude.{◌^◌, ◌<◌, length, IsTrue};

use crate::groups::{GroupFault, read_groups};
use crate::piece::{Form, Piece};
use hold_base::Stop;
use std::test::Fail;

const SDF: &[u8] = b"(DELAYFILE
 (SDFVERSION \"3.0\") (DESIGN \"e\") (DIVIDER /) (TIMESCALE 1ps)
 (CELL (CELLTYPE \"INV\") (INSTANCE u2)
  (DELAY (ABSOLUTE
   (COND B == 1'b0 (IOPATH A Y (0.050:0.055:0.058) (0.052)))
   (CONDELSE (IOPATH A Y (0.051) (0.060))))))
 (CELL (CELLTYPE \"DFF\") (INSTANCE u3)
  (TIMINGCHECK (SETUPHOLD D (posedge C) (0.040) (-0.030)))))
";

// The piece that closes each group of `SDF`, in the order of their openings.
const CLOSINGS: [u32; 26] = [
    98, 5, 9, 13, 17, 69, 23, 27, 68, 67, 52, 51, 47, 50, 66, 65, 61, 64, 97, 75, 79, 96, 95, 88,
    91, 94,
];

fn is_short(text: &[u8]) -> bool
    ensures { IsTrue result → length text.now < 2 ^ 32 }
{
    text.len() < 1000
}

#[test]
fn comments_strings_and_backslashes(rt: HostRuntime) -> Result<(), Fail> {
    let text = b"(a//b /* ( */ \"x ) y\"c:(\\ \\\"))// end".as_slice();
    let want = [
        (Form::Open { close: 8 }, b"(".as_slice()),
        (Form::Atom, b"a//b"),
        (Form::Text, b"\"x ) y\""),
        (Form::Atom, b"c"),
        (Form::Colon, b":"),
        (Form::Open { close: 7 }, b"("),
        (Form::Atom, b"\\ \\\""),
        (Form::Close, b")"),
        (Form::Close, b")"),
    ];
    assert!(rt; is_short(text));
    let groups = read_groups(rt.alloc(), text)?;
    assert_eq!(rt; groups.tokens().len(), want.len());
    for (piece, (form, bytes)) in groups.tokens().iter().zip(want) {
        assert_eq!(rt; piece.form, form);
        assert_eq!(rt;
            text.get(piece.from as usize..piece.to as usize),
            Some(bytes)
        );
    }
    Ok(())
}

#[test]
fn closings(rt: HostRuntime) -> Result<(), Fail> {
    assert!(rt; is_short(SDF));
    let groups = read_groups(rt.alloc(), SDF)?;
    assert_eq!(rt; groups.tokens().len(), 99);
    let mut next = 0;
    for piece in groups.tokens() {
        if let Form::Open { close } = piece.form {
            assert_eq!(rt; CLOSINGS.get(next), Some(&close));
            next += 1;
        }
    }
    assert_eq!(rt; next, CLOSINGS.len());
    Ok(())
}

#[test]
fn faults(rt: HostRuntime) {
    let cases = [
        // Something has no end, or nothing is there.
        (b"".as_slice(), 0),
        (b" // only\n", 9),
        (b"(DELAYFILE", 10),
        (b"(a /* b)", 8),
        (b"(a) /*/", 7),
        (b"(a \"b)", 6),
        (b"(a\\", 3),
        (b"(a\\)", 4),
        (b")(", 2),
        (b"(a)(b", 5),
        (b"(/*/ )*/ \\", 10),
        // Something stands beside the group.
        (b") (a)", 0),
        (b" a (b)", 1),
        (b"(a) : b", 4),
        (b"(a))", 3),
        (b"(a)(b)", 3),
        (b" \t\r\n\x0c(\\(a\\\\):b (\"\" (: ) /**/ ))", 12),
    ];
    for (text, at) in cases {
        assert!(rt; is_short(text));
        let fault = read_groups(rt.alloc(), text).err();
        assert_eq!(rt; fault, Some(Stop::Fault(GroupFault::At(at))), "at {at}");
    }
}

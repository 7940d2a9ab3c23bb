//! Texts in which a port isn't declared whole, or has two ranges.

use super::answer::{Answer, is_answered};

static ROWS: [(&'static [u8], Answer); 26] = [
    // A port without a direction.
    (b"module a(b); endmodule", Answer::BadPort(b"b")),
    (b"module m(a); wire a; endmodule", Answer::BadPort(b"a")),
    (b"module m(\\a[0] ); endmodule", Answer::BadPort(b"a[0]")),
    (
        b"module m(a); INV u(.A(a)); assign a = 1'b0; endmodule",
        Answer::BadPort(b"a"),
    ),
    // A direction without a port.
    (b"module m; input a; endmodule", Answer::BadPort(b"a")),
    (b"module m(); output a; endmodule", Answer::BadPort(b"a")),
    (b"module m(a); input a, b; endmodule", Answer::BadPort(b"b")),
    (
        b"module m(input a); output b; endmodule",
        Answer::BadPort(b"b"),
    ),
    (
        b"module m; INV u(.A(a)); input a; endmodule",
        Answer::BadPort(b"a"),
    ),
    // Two ranges.
    (
        b"module m(a); input [3:0] a; wire a; endmodule",
        Answer::BadPort(b"a"),
    ),
    (
        b"module m(a); input a; wire [0:0] a; endmodule",
        Answer::BadPort(b"a"),
    ),
    (
        b"module m(a); input [3:0] a; wire [0:3] a; endmodule",
        Answer::BadPort(b"a"),
    ),
    (
        b"module m(a); wire [2:0] a; input [3:0] a; endmodule",
        Answer::BadPort(b"a"),
    ),
    (
        b"module m(a); wire [3:1] a; input [3:0] a; endmodule",
        Answer::BadPort(b"a"),
    ),
    (
        b"module m(input [3:0] a); wire [4:0] a; endmodule",
        Answer::BadPort(b"a"),
    ),
    (
        b"module m(input [3:0] a, b); wire b; endmodule",
        Answer::BadPort(b"b"),
    ),
    // The place of a port without a direction is that in the header.
    (b"module m(b, a); endmodule", Answer::BadPort(b"b")),
    (
        b"module m(a, b); input a; output c; endmodule",
        Answer::BadPort(b"b"),
    ),
    (
        b"module m(b); input a; wire b; endmodule",
        Answer::BadPort(b"b"),
    ),
    (b"module m; input b, a; endmodule", Answer::BadPort(b"b")),
    // The place of two ranges is the later declaration.
    (
        b"module m(a, b); wire a, b; input [1:0] b; input [1:0] a; endmodule",
        Answer::BadPort(b"b"),
    ),
    (
        b"module m(a, b); input [1:0] a, b; wire b; wire a; endmodule",
        Answer::BadPort(b"b"),
    ),
    (
        b"module m(a, b); wire a; input b; wire [1:0] b; input [1:0] a; endmodule",
        Answer::BadPort(b"b"),
    ),
    (
        b"module m(input [1:0] a, b); wire b; wire a; endmodule",
        Answer::BadPort(b"b"),
    ),
    // The three are looked for together.
    (
        b"module m(a); input c; input [1:0] a; wire a; endmodule",
        Answer::BadPort(b"c"),
    ),
    (
        b"module m(a); input [1:0] a; wire a; input c; endmodule",
        Answer::BadPort(b"a"),
    ),
];

#[test]
fn a_port_that_is_not_declared_whole_is_refused(rt: HostRuntime) {
    for (i, (text, answer)) in ROWS.iter().enumerate() {
        assert!(rt; is_answered(rt.alloc(), text, *answer), "row {i}");
    }
}

//! Texts in which a bit isn't there, or two widths differ.

use super::answer::{Answer, is_answered};

static ROWS: [(&'static [u8], Answer); 39] = [
    // A net that stands on right sides only.
    (b"module m(); assign x = y; endmodule", Answer::BadBit(b"y")),
    (
        b"module m(); assign x = y[0]; endmodule",
        Answer::BadBit(b"y"),
    ),
    (
        b"module m(); assign x = y[0:0]; endmodule",
        Answer::BadBit(b"y"),
    ),
    (
        b"module m(output y); assign y = a, y = a; endmodule",
        Answer::BadBit(b"a"),
    ),
    // A bit outside its net's range, on each side and in a connection.
    (
        b"module m; wire [3:0] v; INV u(.A(v[4])); endmodule",
        Answer::BadBit(b"v"),
    ),
    (
        b"module m; wire [4:1] v; INV u(.A(v[0])); endmodule",
        Answer::BadBit(b"v"),
    ),
    (
        b"module m; wire [1:4] v; INV u(.A(v[0])); endmodule",
        Answer::BadBit(b"v"),
    ),
    (
        b"module m; wire [1:4] v; assign v[5] = 1'b0; endmodule",
        Answer::BadBit(b"v"),
    ),
    (
        b"module m; wire [3:0] v; assign a = v[4]; endmodule",
        Answer::BadBit(b"v"),
    ),
    (
        b"module m; wire [3:0] v; assign a = v[18446744073709551616]; endmodule",
        Answer::BadBit(b"v"),
    ),
    (
        b"module m(input [1:0] p); INV u(.A(p[2])); endmodule",
        Answer::BadBit(b"p"),
    ),
    // A part that leaves its net's range at either end.
    (
        b"module m; wire [3:0] v; wire [1:0] w; assign w = v[4:3]; endmodule",
        Answer::BadBit(b"v"),
    ),
    (
        b"module m; wire [4:1] v; wire [1:0] w; assign v[1:0] = w; endmodule",
        Answer::BadBit(b"v"),
    ),
    // A bit or part on a net without a range.
    (
        b"module m; wire a; INV u(.A(a[0])); endmodule",
        Answer::BadBit(b"a"),
    ),
    (
        b"module m; INV u(.A(a[0])); endmodule",
        Answer::BadBit(b"a"),
    ),
    (
        b"module m; assign a[0] = 1'b0; endmodule",
        Answer::BadBit(b"a"),
    ),
    (
        b"module m; wire a, b; assign a = b[0]; endmodule",
        Answer::BadBit(b"b"),
    ),
    (
        b"module m; wire a, b; assign a[0:0] = b; endmodule",
        Answer::BadBit(b"a"),
    ),
    (
        b"module m; wire \\b[0] ; INV u(.A(\\b[0] [0])); endmodule",
        Answer::BadBit(b"b[0]"),
    ),
    // A part against its net's direction.
    (
        b"module m; wire [3:0] v, w; assign v = w[0:3]; endmodule",
        Answer::BadBit(b"w"),
    ),
    (
        b"module m; wire [3:0] v, w; assign v[0:3] = w; endmodule",
        Answer::BadBit(b"v"),
    ),
    (
        b"module m; wire [0:3] v, w; assign v[1:2] = w[2:1]; endmodule",
        Answer::BadBit(b"w"),
    ),
    // A vector in a connection.
    (
        b"module m; wire [1:0] v; INV u(.A(v)); endmodule",
        Answer::BadBit(b"v"),
    ),
    (
        b"module m(input [0:1] v); INV u(.A(v)); endmodule",
        Answer::BadBit(b"v"),
    ),
    // Two widths that differ: the left side.
    (
        b"module m; wire [1:0] v; assign x = v; endmodule",
        Answer::BadBit(b"x"),
    ),
    (
        b"module m; wire [1:0] v; wire x; assign v = x; endmodule",
        Answer::BadBit(b"v"),
    ),
    (
        b"module m; wire [1:0] v; assign v = 1'b0; endmodule",
        Answer::BadBit(b"v"),
    ),
    (
        b"module m; wire [3:0] v; wire [2:0] w; assign v = w; endmodule",
        Answer::BadBit(b"v"),
    ),
    (
        b"module m; wire [3:0] v, w; assign v[3:2] = w[2:0]; endmodule",
        Answer::BadBit(b"v"),
    ),
    // A part keeps its written width where it is at fault, and a whole undeclared side has none.
    (
        b"module m; wire [3:0] v; wire [1:0] x; assign x = v[9:0]; endmodule",
        Answer::BadBit(b"x"),
    ),
    (
        b"module m; wire [3:0] v; wire [9:0] x; assign x = v[9:0]; endmodule",
        Answer::BadBit(b"v"),
    ),
    (
        b"module m; wire [1:0] x; assign x = y[3:0]; endmodule",
        Answer::BadBit(b"x"),
    ),
    (
        b"module m; wire [1:0] x; assign x = y[1:0]; endmodule",
        Answer::BadBit(b"y"),
    ),
    (
        b"module m; wire [1:0] x; assign x = y; endmodule",
        Answer::BadBit(b"y"),
    ),
    (
        b"module m; wire [1:0] x; assign x = y[0]; endmodule",
        Answer::BadBit(b"x"),
    ),
    // The first place in the text, in assignments and connections alike.
    (
        b"module m; wire [3:0] v, w; assign a = v[4], w = 1'b0; endmodule",
        Answer::BadBit(b"v"),
    ),
    (
        b"module m; wire [1:0] v, w; INV u(.A(v)); assign w = 1'b0; endmodule",
        Answer::BadBit(b"v"),
    ),
    (
        b"module m; wire [1:0] v, w; assign w = 1'b0; INV u(.A(v)); endmodule",
        Answer::BadBit(b"w"),
    ),
    (
        b"module m; wire [1:0] v, w; INV u(.A(w[0]), .B(w), .C(v)); endmodule",
        Answer::BadBit(b"w"),
    ),
];

#[test]
fn a_bit_that_is_not_there_is_refused(rt: HostRuntime) {
    for (i, (text, answer)) in ROWS.iter().enumerate() {
        assert!(rt; is_answered(rt.alloc(), text, *answer), "row {i}");
    }
}

//! Netlists that are bound, with the roots of their net bits.

use crate::answer::{Answer, is_answered};

static ROWS: [(&'static [u8], Answer); 18] = [
    (b"module m; endmodule", Answer::Roots(b"")),
    // The base example: nets clk, y, a, b; eight connections and two port bits.
    (
        b"module e(clk, y); input clk; output y; wire a; wire b; DFF u1(.C(clk), .D(1'b0), .Q(a)); INV u2(.A(a), .Y(b)); DFF u3(.C(clk), .D(b), .Q(y)); endmodule",
        Answer::Roots(b"p8 p7 p2 p4 "),
    ),
    // An alias has the root of what it is of.
    (
        b"module e(clk, y); input clk; output y; wire a; wire b; wire b2; DFF u1(.C(clk), .D(1'b0), .Q(a)); INV u2(.A(a), .Y(b)); assign b2 = b; DFF u3(.C(clk), .D(b2), .Q(y)); endmodule",
        Answer::Roots(b"p8 p7 p2 p4 p4 "),
    ),
    // So has an alias of an alias, in either order of lines and of nets.
    (
        b"module m(a, d); input a; output d; wire b, c; assign b = a; assign c = b; assign d = c; endmodule",
        Answer::Roots(b"p0 p0 p0 p0 "),
    ),
    (
        b"module m(d, a); output d; input a; wire c, b; assign d = c; assign c = b; assign b = a; endmodule",
        Answer::Roots(b"p1 p1 p1 p1 "),
    ),
    (
        b"module m; wire a, b, c, d; assign a = b; assign b = c; assign d = b; TIE u(.Y(c)); endmodule",
        Answer::Roots(b"p0 p0 p0 p0 "),
    ),
    // Constants, also behind an alias.
    (
        b"module m; wire a, b, c, d; assign a = 1'b0; assign b = 1'b1; assign c = a; assign d = b; endmodule",
        Answer::Roots(b"0 1 0 1 "),
    ),
    (
        b"module m; wire a, b, c; assign b = a; assign c = b; endmodule",
        Answer::Roots(b"- - - "),
    ),
    // An output port drives nothing, and an input port's bit is its own root.
    (
        b"module m(a, y); input a; output y; endmodule",
        Answer::Roots(b"p0 - "),
    ),
    // Outputs of opaque types and second outputs of registers are roots.
    (
        b"module m(g); input g; wire q, n; LAT u(.G(g), .D(n), .Q(q)); DFF r(.C(g), .D(q), .QN(n)); endmodule",
        Answer::Roots(b"p6 p2 p5 "),
    ),
    // An output that is written empty drives nothing, and neither does one that isn't written.
    (
        b"module m; wire q; DFF r(.C(q), .Q()); INV u(.A(q)); endmodule",
        Answer::Roots(b"- "),
    ),
    // An input that is tied to a constant is no fault, and neither is a reset.
    (
        b"module m; wire y; NAND u(.A(1'b0), .B(1'b1), .Y(y)); DFF r(.R(1'b0), .D()); endmodule",
        Answer::Roots(b"p2 "),
    ),
    // Port bits count from the left bound, behind all connections; net bits so too.
    (
        b"module m(v, w); input [1:0] v; input [4:6] w; wire y; INV u(.A(v[0]), .Y(y)); endmodule",
        Answer::Roots(b"p2 p3 p4 p5 p6 p1 "),
    ),
    (
        b"module m(y); output [1:0] y; wire [2:3] v; assign y = v; TIE u(.Y(v[3])); endmodule",
        Answer::Roots(b"- p0 - p0 "),
    ),
    (
        b"module m(v); input [1:0] v; wire [1:0] w; assign w[1] = v[0]; assign w[0] = w[1]; endmodule",
        Answer::Roots(b"p0 p1 p1 p1 "),
    ),
    // Two nets of one driver have one root; two drivers of two nets have two.
    (
        b"module m(a); input a; wire b, c; assign b = a; assign c = a; endmodule",
        Answer::Roots(b"p0 p0 p0 "),
    ),
    // A ring through a cell is none of assignments.
    (
        b"module m; wire a, b; INV u(.A(a), .Y(b)); assign a = b; endmodule",
        Answer::Roots(b"p1 p1 "),
    ),
    (
        b"module m; wire a, b; INV u(.A(a), .Y(b)); INV v(.A(b), .Y(a)); endmodule",
        Answer::Roots(b"p3 p1 "),
    ),
];

#[test]
fn net_bits_have_these_roots(rt: HostRuntime) {
    let alloc = rt.alloc();
    for (text, answer) in &ROWS {
        assert!(rt; is_answered(alloc, text, *answer));
    }
}

//! Netlists that can't be bound, each with its first fault.

use crate::answer::{Answer, is_answered};
use hold_base::What;

static ROWS: [(&'static [u8], Answer); 38] = [
    // Too many net bits, whatever else is at fault. One bit less is no fault of this kind.
    (
        b"module m; wire [1048575:0] p, q; wire r; endmodule",
        Answer::Limit(What::Bits),
    ),
    (
        b"module m; wire [1048575:0] p, q; wire r; XOR u(.A(r)); assign r = r; endmodule",
        Answer::Limit(What::Bits),
    ),
    (
        b"module m; wire [1048575:0] p, q; XOR u(.A(p[0])); endmodule",
        Answer::NoRole(b"XOR"),
    ),
    // Too many pins, which the bits of ports are too, before any other fault than too many net bits. One less is none.
    (
        b"module m(p, q); input [1048575:0] p; input q; XOR u(); endmodule",
        Answer::Limit(What::Pins),
    ),
    (
        b"module m(p); input [1048575:0] p; INV u(.A()); endmodule",
        Answer::Limit(What::Pins),
    ),
    (
        b"module m(p, q); input [1048575:0] p; output [1048575:0] q; wire r; endmodule",
        Answer::Limit(What::Bits),
    ),
    (
        b"module m(p); input [1048575:0] p; XOR u(); endmodule",
        Answer::NoRole(b"XOR"),
    ),
    // A type that isn't listed: the first instance's, before any bad pin.
    (
        b"module m; INV a(); XOR b(); OR c(); endmodule",
        Answer::NoRole(b"XOR"),
    ),
    (b"module m; inv a(); endmodule", Answer::NoRole(b"inv")),
    (
        b"module m; wire y; INV a(.Z(y)); XOR b(); endmodule",
        Answer::NoRole(b"XOR"),
    ),
    // A pin that the type lacks: the first connection's of the first such instance.
    (
        b"module m; wire y; INV a(.A(y)); INV b(.A(y), .Z(y), .X(y)); INV c(.W(y)); endmodule",
        Answer::BadPin(b"b", b"Z"),
    ),
    (
        b"module m; INV a(.Z()); endmodule",
        Answer::BadPin(b"a", b"Z"),
    ),
    (
        b"module m; INV a(.a()); endmodule",
        Answer::BadPin(b"a", b"a"),
    ),
    // A pin of another type, or of another role's kind.
    (
        b"module m; INV a(.B()); endmodule",
        Answer::BadPin(b"a", b"B"),
    ),
    (
        b"module m; LAT a(.C()); endmodule",
        Answer::BadPin(b"a", b"C"),
    ),
    (
        b"module m; DFF a(.G()); endmodule",
        Answer::BadPin(b"a", b"G"),
    ),
    // An output that is tied to a constant, of each role.
    (
        b"module m; INV a(.A(1'b0), .Y(1'b0)); endmodule",
        Answer::BadPin(b"a", b"Y"),
    ),
    (
        b"module m; TIE a(.Y(1'b1)); endmodule",
        Answer::BadPin(b"a", b"Y"),
    ),
    (
        b"module m; DFF a(.Q(), .QN(1'b1)); endmodule",
        Answer::BadPin(b"a", b"QN"),
    ),
    (
        b"module m; LAT a(.Q(1'b0)); endmodule",
        Answer::BadPin(b"a", b"Q"),
    ),
    // Whichever of the two kinds of bad pin comes first.
    (
        b"module m; INV a(.Y(1'b0), .Z()); endmodule",
        Answer::BadPin(b"a", b"Y"),
    ),
    (
        b"module m; INV a(.Z(), .Y(1'b0)); endmodule",
        Answer::BadPin(b"a", b"Z"),
    ),
    // Two drivers: outputs of any role, input ports and assignments, each with each.
    (
        b"module e(clk, y); input clk; output y; wire a; wire b; DFF u1(.C(clk), .D(1'b0), .Q(a)); INV u2(.A(a), .Y(a)); DFF u3(.C(clk), .D(b), .Q(y)); endmodule",
        Answer::DoubleDriver(b"a"),
    ),
    (
        b"module m; wire q; LAT u(.Q(q)); DFF v(.QN(q)); endmodule",
        Answer::DoubleDriver(b"q"),
    ),
    (
        b"module m; wire q; DFF v(.Q(q), .QN(q)); endmodule",
        Answer::DoubleDriver(b"q"),
    ),
    (
        b"module m(a); input a; INV u(.Y(a)); endmodule",
        Answer::DoubleDriver(b"a"),
    ),
    (
        b"module m(a); input a; assign a = 1'b0; endmodule",
        Answer::DoubleDriver(b"a"),
    ),
    (
        b"module m; wire a; INV u(.Y(a)); assign a = 1'b1; endmodule",
        Answer::DoubleDriver(b"a"),
    ),
    (
        b"module m; wire a, b; assign a = b; assign a = b; endmodule",
        Answer::DoubleDriver(b"a"),
    ),
    // The first net bit by its number, said with its index where it is of a vector.
    (
        b"module m; wire a, b; assign b = 1'b0; assign b = 1'b1; assign a = 1'b0; assign a = 1'b1; endmodule",
        Answer::DoubleDriver(b"a"),
    ),
    (
        b"module m(v); input [7:4] v; assign v[4] = 1'b0; assign v[6] = 1'b0; endmodule",
        Answer::DoubleDriver(b"v[6]"),
    ),
    (
        b"module m; wire [5:5] w; assign w = 1'b0; assign w[5] = 1'b1; endmodule",
        Answer::DoubleDriver(b"w[5]"),
    ),
    // Before any ring.
    (
        b"module m; wire a, b; assign a = a; assign b = 1'b0; assign b = 1'b0; endmodule",
        Answer::DoubleDriver(b"b"),
    ),
    // Rings: the first net bit that is on one. One that only leads into a ring isn't.
    (
        b"module m; wire a; assign a = a; endmodule",
        Answer::AssignRing(b"a"),
    ),
    (
        b"module m; wire t, u, c, b, a; assign t = u; assign u = a; assign a = b; assign b = c; assign c = a; endmodule",
        Answer::AssignRing(b"c"),
    ),
    (
        b"module m; wire t, c, x; assign t = c; assign c = c; assign x = x; endmodule",
        Answer::AssignRing(b"c"),
    ),
    (
        b"module m; wire t, d, x, c, y; assign t = c; assign c = d; assign d = c; assign x = y; assign y = x; endmodule",
        Answer::AssignRing(b"d"),
    ),
    (
        b"module m; wire [0:3] v; assign v[0] = v[3]; assign v[3] = v[2]; assign v[2] = v[1]; assign v[1] = v[3]; endmodule",
        Answer::AssignRing(b"v[1]"),
    ),
];

#[test]
fn netlists_are_refused_for_their_first_fault(rt: HostRuntime) {
    let alloc = rt.alloc();
    for (text, answer) in &ROWS {
        assert!(rt; is_answered(alloc, text, *answer));
    }
}

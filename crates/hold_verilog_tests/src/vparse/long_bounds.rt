//! Texts whose ranges have long bounds, either or both. A bound that is too large is a fault too, but those of ports
//! and of bits go before it.

use super::answer::{Answer, is_answered};
use hold_base::What;

/// Six bits lie between 10^20 + 5 and 10^20.
static BITS: [(&'static [u8], Answer); 58] = [
    // Six bits between two long bounds, either way, against six, five and seven.
    (
        b"module m; wire [100000000000000000005:100000000000000000000] v; wire [5:0] w; assign v = w; endmodule",
        Answer::Limit(What::Bound),
    ),
    (
        b"module m; wire [100000000000000000005:100000000000000000000] v; wire [0:5] w; assign w = v; endmodule",
        Answer::Limit(What::Bound),
    ),
    (
        b"module m; wire [100000000000000000005:100000000000000000000] v; wire [4:0] w; assign v = w; endmodule",
        Answer::BadBit(b"v"),
    ),
    (
        b"module m; wire [100000000000000000005:100000000000000000000] v; wire [6:0] w; assign w = v; endmodule",
        Answer::BadBit(b"w"),
    ),
    (
        b"module m; wire [100000000000000000000:100000000000000000005] v; wire [5:0] w; assign v = w; endmodule",
        Answer::Limit(What::Bound),
    ),
    (
        b"module m; wire [100000000000000000000:100000000000000000005] v; wire [0:5] w; assign w = v; endmodule",
        Answer::Limit(What::Bound),
    ),
    (
        b"module m; wire [100000000000000000000:100000000000000000005] v; wire [4:0] w; assign v = w; endmodule",
        Answer::BadBit(b"v"),
    ),
    (
        b"module m; wire [100000000000000000000:100000000000000000005] v; wire [6:0] w; assign w = v; endmodule",
        Answer::BadBit(b"w"),
    ),
    // Against a net without a range, a constant and an implicit net.
    (
        b"module m; wire [100000000000000000005:100000000000000000000] v; wire x; assign x = v; endmodule",
        Answer::BadBit(b"x"),
    ),
    (
        b"module m; wire [100000000000000000005:100000000000000000000] v; assign v = 1'b0; endmodule",
        Answer::BadBit(b"v"),
    ),
    (
        b"module m; wire [100000000000000000005:100000000000000000000] v; assign x = v; endmodule",
        Answer::BadBit(b"x"),
    ),
    // Between two nets with long bounds: the same ones, as far apart, and one nearer or further.
    (
        b"module m; wire [100000000000000000000:0] v, w; assign v = w; endmodule",
        Answer::Limit(What::Bound),
    ),
    (
        b"module m; wire [100000000000000000000:0] v; wire [0:100000000000000000000] w; assign v = w; endmodule",
        Answer::Limit(What::Bound),
    ),
    (
        b"module m; wire [100000000000000000000:0] v; wire [100000000000000000001:1] w; assign v = w; endmodule",
        Answer::Limit(What::Bound),
    ),
    (
        b"module m; wire [100000000000000000000:0] v; wire [100000000000000000000:1] w; assign v = w; endmodule",
        Answer::BadBit(b"v"),
    ),
    (
        b"module m; wire [100000000000000000000:0] v; wire [100000000000000000001:0] w; assign v = w; endmodule",
        Answer::BadBit(b"v"),
    ),
    (
        b"module m; wire [100000000000000000000:0] v; wire [10000000000000000000:0] w; assign v = w; endmodule",
        Answer::BadBit(b"v"),
    ),
    (
        b"module m; wire [100000000000000000005:100000000000000000000] v; wire [200000000000000000007:200000000000000000002] w; assign v = w; endmodule",
        Answer::Limit(What::Bound),
    ),
    (
        b"module m; wire [100000000000000000005:100000000000000000000] v; wire [200000000000000000008:200000000000000000002] w; assign v = w; endmodule",
        Answer::BadBit(b"v"),
    ),
    (
        b"module m; wire [4294967296:1] v; wire [4294967295:0] w; assign v = w; endmodule",
        Answer::Limit(What::Bound),
    ),
    (
        b"module m; wire [4294967296:0] v; wire [4294967295:0] w; assign v = w; endmodule",
        Answer::BadBit(b"v"),
    ),
    // The first of several, by the place in the text.
    (
        b"module m; wire [100000000000000000000:0] u, v; wire [100000000000000000000:1] w; assign u = v, v = w, w = u; endmodule",
        Answer::BadBit(b"v"),
    ),
    // Bits within the bounds, at them and past them, and small ones.
    (
        b"module m; wire [100000000000000000005:100000000000000000000] v; assign x = v[100000000000000000005]; endmodule",
        Answer::Limit(What::Bound),
    ),
    (
        b"module m; wire [100000000000000000005:100000000000000000000] v; assign x = v[100000000000000000000]; endmodule",
        Answer::Limit(What::Bound),
    ),
    (
        b"module m; wire [100000000000000000005:100000000000000000000] v; assign x = v[0000100000000000000000003]; endmodule",
        Answer::Limit(What::Bound),
    ),
    (
        b"module m; wire [100000000000000000005:100000000000000000000] v; assign x = v[100000000000000000006]; endmodule",
        Answer::BadBit(b"v"),
    ),
    (
        b"module m; wire [100000000000000000005:100000000000000000000] v; assign x = v[99999999999999999999]; endmodule",
        Answer::BadBit(b"v"),
    ),
    (
        b"module m; wire [100000000000000000005:100000000000000000000] v; assign x = v[3]; endmodule",
        Answer::BadBit(b"v"),
    ),
    (
        b"module m; wire [100000000000000000000:100000000000000000005] v; assign v[100000000000000000003] = x; endmodule",
        Answer::BadBit(b"x"),
    ),
    (
        b"module m; wire [100000000000000000000:100000000000000000005] v; wire x; assign v[100000000000000000003] = x; endmodule",
        Answer::Limit(What::Bound),
    ),
    (
        b"module m; wire [100000000000000000000:100000000000000000005] v; wire x; assign v[100000000000000000006] = x; endmodule",
        Answer::BadBit(b"v"),
    ),
    // Parts of a net with long bounds: within, past an end, and against its direction.
    (
        b"module m; wire [100000000000000000005:100000000000000000000] v; wire [2:0] w; assign w = v[100000000000000000004:100000000000000000002]; endmodule",
        Answer::Limit(What::Bound),
    ),
    (
        b"module m; wire [100000000000000000005:100000000000000000000] v; wire [1:0] w; assign w = v[100000000000000000004:100000000000000000002]; endmodule",
        Answer::BadBit(b"w"),
    ),
    (
        b"module m; wire [100000000000000000005:100000000000000000000] v; wire [2:0] w; assign w = v[100000000000000000006:100000000000000000004]; endmodule",
        Answer::BadBit(b"v"),
    ),
    (
        b"module m; wire [100000000000000000005:100000000000000000000] v; wire [2:0] w; assign w = v[100000000000000000002:100000000000000000004]; endmodule",
        Answer::BadBit(b"v"),
    ),
    (
        b"module m; wire [100000000000000000000:100000000000000000005] v; wire [2:0] w; assign w = v[100000000000000000002:100000000000000000004]; endmodule",
        Answer::Limit(What::Bound),
    ),
    (
        b"module m; wire [100000000000000000000:100000000000000000005] v; wire [2:0] w; assign w = v[100000000000000000004:100000000000000000002]; endmodule",
        Answer::BadBit(b"v"),
    ),
    (
        b"module m; wire [100000000000000000005:100000000000000000000] v; wire [2:0] w; assign w = v[4:2]; endmodule",
        Answer::BadBit(b"v"),
    ),
    (
        b"module m; wire [100000000000000000000:100000000000000000005] v; wire w; assign w = v[100000000000000000005:100000000000000000005]; endmodule",
        Answer::Limit(What::Bound),
    ),
    // A part against a whole net with long bounds, on either side.
    (
        b"module m; wire [100000000000000000005:100000000000000000000] v; wire [9:0] w; assign v = w[7:2]; endmodule",
        Answer::Limit(What::Bound),
    ),
    (
        b"module m; wire [100000000000000000005:100000000000000000000] v; wire [9:0] w; assign w[7:2] = v; endmodule",
        Answer::Limit(What::Bound),
    ),
    (
        b"module m; wire [100000000000000000005:100000000000000000000] v; wire [9:0] w; assign v = w[7:3]; endmodule",
        Answer::BadBit(b"v"),
    ),
    (
        b"module m; wire [100000000000000000005:100000000000000000000] v; wire [9:0] w; assign w[8:2] = v; endmodule",
        Answer::BadBit(b"w"),
    ),
    (
        b"module m; wire [100000000000000000000:0] v, w; assign v = w[100000000000000000000:0]; endmodule",
        Answer::Limit(What::Bound),
    ),
    (
        b"module m; wire [100000000000000000000:0] v, w; assign v = w[100000000000000000000:1]; endmodule",
        Answer::BadBit(b"v"),
    ),
    (
        b"module m; wire [100000000000000000000:0] v, w; assign w[9:0] = v; endmodule",
        Answer::BadBit(b"w"),
    ),
    // Whole in a connection, and bit by bit.
    (
        b"module m; wire [100000000000000000000:100000000000000000000] v; INV u(.A(v)); endmodule",
        Answer::Limit(What::Bound),
    ),
    (
        b"module m; wire [000100000000000000000000:100000000000000000000] v; assign x = v; endmodule",
        Answer::Limit(What::Bound),
    ),
    (
        b"module m; wire [100000000000000000001:100000000000000000000] v; INV u(.A(v)); endmodule",
        Answer::BadBit(b"v"),
    ),
    (
        b"module m; wire [100000000000000000005:100000000000000000000] v; INV u(.A(v[100000000000000000000]), .B(v)); endmodule",
        Answer::BadBit(b"v"),
    ),
    (
        b"module m; wire [100000000000000000005:100000000000000000000] v; INV u(.A(v[100000000000000000000]), .B(v[100000000000000000005])); endmodule",
        Answer::Limit(What::Bound),
    ),
    (
        b"module m; wire [100000000000000000005:100000000000000000000] v; INV u(.A(v[0])); endmodule",
        Answer::BadBit(b"v"),
    ),
    // Nets of a header in another order, of a port with a `wire`, and of wires behind ports.
    (
        b"module m(b, a); input [100000000000000000005:100000000000000000000] a; input [5:0] b; assign a = b; endmodule",
        Answer::Limit(What::Bound),
    ),
    (
        b"module m(b, a); input [100000000000000000005:100000000000000000000] a; input [4:0] b; assign b = a; endmodule",
        Answer::BadBit(b"b"),
    ),
    (
        b"module m(input [5:0] p); wire [6:0] v; wire [5:0] p; wire [100000000000000000005:100000000000000000000] w; assign w = p; endmodule",
        Answer::Limit(What::Bound),
    ),
    (
        b"module m(input [5:0] p); wire [6:0] v; wire [5:0] p; wire [100000000000000000005:100000000000000000000] w; assign w = v; endmodule",
        Answer::BadBit(b"w"),
    ),
    (
        b"module m(input [100000000000000000000:0] a, b, input [0:100000000000000000000] c); assign a = b, b = c; endmodule",
        Answer::Limit(What::Bound),
    ),
    (
        b"module m(input [100000000000000000000:0] a, b, input [1:100000000000000000000] c); assign a = b, b = c; endmodule",
        Answer::BadBit(b"b"),
    ),
];

/// Ports beside a `wire` of their names.
static PORTS: [(&'static [u8], Answer); 20] = [
    // The same bounds and others, about 2^32 and below it.
    (
        b"module m(a); input [007:0] a; wire [7:00] a; endmodule",
        Answer::Netlist(b"module m(a);\n  input [7:0] a;\nendmodule\n"),
    ),
    (
        b"module m(a); input [7:0] a; wire [70:0] a; endmodule",
        Answer::BadPort(b"a"),
    ),
    (
        b"module m(a); input [4294967296:4294967295] a; wire [0004294967296:4294967295] a; endmodule",
        Answer::Limit(What::Bound),
    ),
    (
        b"module m(a); input [4294967296:0] a; wire [4294967295:0] a; endmodule",
        Answer::BadPort(b"a"),
    ),
    // The same bounds, also with leading zeros.
    (
        b"module m(a); input [100000000000000000005:100000000000000000000] a; wire [100000000000000000005:100000000000000000000] a; endmodule",
        Answer::Limit(What::Bound),
    ),
    (
        b"module m(a); input [100000000000000000005:100000000000000000000] a; wire [0100000000000000000005:00100000000000000000000] a; endmodule",
        Answer::Limit(What::Bound),
    ),
    (
        b"module m(input [100000000000000000000:0] a, b); wire [100000000000000000000:0] a; wire [100000000000000000000:0] b; endmodule",
        Answer::Limit(What::Bound),
    ),
    // Another left bound, another right one, both turned around, and none.
    (
        b"module m(a); input [100000000000000000005:100000000000000000000] a; wire [100000000000000000006:100000000000000000000] a; endmodule",
        Answer::BadPort(b"a"),
    ),
    (
        b"module m(a); input [100000000000000000005:100000000000000000000] a; wire [100000000000000000005:100000000000000000001] a; endmodule",
        Answer::BadPort(b"a"),
    ),
    (
        b"module m(a); input [100000000000000000005:100000000000000000000] a; wire [1100000000000000000005:100000000000000000000] a; endmodule",
        Answer::BadPort(b"a"),
    ),
    (
        b"module m(a); input [100000000000000000005:100000000000000000000] a; wire [100000000000000000000:100000000000000000005] a; endmodule",
        Answer::BadPort(b"a"),
    ),
    (
        b"module m(a); input [100000000000000000005:100000000000000000000] a; wire [5:0] a; endmodule",
        Answer::BadPort(b"a"),
    ),
    (
        b"module m(a); input [5:0] a; wire [100000000000000000005:100000000000000000000] a; endmodule",
        Answer::BadPort(b"a"),
    ),
    (
        b"module m(a); input [100000000000000000005:100000000000000000000] a; wire a; endmodule",
        Answer::BadPort(b"a"),
    ),
    (
        b"module m(a); input a; wire [100000000000000000000:100000000000000000000] a; endmodule",
        Answer::BadPort(b"a"),
    ),
    // Each wire against the port of its name, in whatever order they stand.
    (
        b"module m(b, a); input [100000000000000000005:100000000000000000000] a; input [100000000000000000000:100000000000000000005] b; wire [100000000000000000000:100000000000000000005] b; wire [100000000000000000005:100000000000000000000] a; endmodule",
        Answer::Limit(What::Bound),
    ),
    (
        b"module m(b, a); input [100000000000000000005:100000000000000000000] a; input [100000000000000000000:100000000000000000005] b; wire [100000000000000000005:100000000000000000000] b; wire [100000000000000000005:100000000000000000000] a; endmodule",
        Answer::BadPort(b"b"),
    ),
    (
        b"module m(input [100000000000000000005:100000000000000000000] a, input [100000000000000000000:0] b); wire x; wire [100000000000000000000:0] b; wire [100000000000000000005:100000000000000000000] a; endmodule",
        Answer::Limit(What::Bound),
    ),
    (
        b"module m(input [100000000000000000005:100000000000000000000] a, input [100000000000000000000:0] b); wire x; wire [100000000000000000000:0] b; wire [100000000000000000000:0] a; endmodule",
        Answer::BadPort(b"a"),
    ),
    (
        b"module m(a, b, c); input [100000000000000000005:100000000000000000000] a, b, c; wire [100000000000000000005:100000000000000000000] c; wire [100000000000000000000:100000000000000000005] b; wire [100000000000000000000:100000000000000000005] a; endmodule",
        Answer::BadPort(b"b"),
    ),
];

#[test]
fn bits_are_judged_before_long_bounds(rt: HostRuntime) {
    for (i, (text, answer)) in BITS.iter().enumerate() {
        assert!(rt; is_answered(rt.alloc(), text, *answer), "row {i}");
    }
}

#[test]
fn ports_are_judged_before_long_bounds(rt: HostRuntime) {
    for (i, (text, answer)) in PORTS.iter().enumerate() {
        assert!(rt; is_answered(rt.alloc(), text, *answer), "row {i}");
    }
}

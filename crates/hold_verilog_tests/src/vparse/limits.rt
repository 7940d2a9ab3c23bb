//! Texts with several sorts of fault, and texts that pass a limit or just keep to it.

use super::answer::{Answer, is_answered};
use hold_base::What;

/// Of several sorts, the first in the order of the fault's variants is answered, wherever it stands.
static ORDER: [(&'static [u8], Answer); 8] = [
    (
        b"module m(p); assign x = y; wire a, a; endmodule",
        Answer::DoubleName(b"a"),
    ),
    (
        b"module m(p); wire a, a; endmodule",
        Answer::DoubleName(b"a"),
    ),
    (
        b"module m; assign x = y; INV u(.A(), .A()); endmodule",
        Answer::DoubleName(b"A"),
    ),
    (
        b"module m; assign x = y; input p; endmodule",
        Answer::BadPort(b"p"),
    ),
    (
        b"module m(p); wire [1048576:0] v; wire p, p; endmodule",
        Answer::DoubleName(b"p"),
    ),
    (
        b"module m(p); wire [1048576:0] v; endmodule",
        Answer::BadPort(b"p"),
    ),
    (
        b"module m; wire [1048576:0] v; assign x = y; endmodule",
        Answer::BadBit(b"y"),
    ),
    (
        b"module m; wire [1048576:0] v; assign v = 1'b0; endmodule",
        Answer::BadBit(b"v"),
    ),
];

/// The greatest bound of a range is 1048575.
static BOUNDS: [(&'static [u8], Answer); 10] = [
    (
        b"module m; wire [1048575:0] v; endmodule",
        Answer::Netlist(b"module m();\n  wire [1048575:0] v;\nendmodule\n"),
    ),
    (
        b"module m(input [1048575:1048575] p); INV u(.A(p)); endmodule",
        Answer::Netlist(
            b"module m(p);
  input [1048575:1048575] p;
  INV u(.A(p[1048575]));
endmodule
",
        ),
    ),
    (
        b"module m(p); output [00000000001:0] p; endmodule",
        Answer::Netlist(b"module m(p);\n  output [1:0] p;\nendmodule\n"),
    ),
    (
        b"module m; wire [1048576:0] v; endmodule",
        Answer::Limit(What::Bound),
    ),
    (
        b"module m; wire [0:1048576] v; endmodule",
        Answer::Limit(What::Bound),
    ),
    (
        b"module m; wire [1048576:1048576] v; endmodule",
        Answer::Limit(What::Bound),
    ),
    (
        b"module m(input [1048576:1] p); endmodule",
        Answer::Limit(What::Bound),
    ),
    (
        b"module m(p); output [1:1048576] p; endmodule",
        Answer::Limit(What::Bound),
    ),
    (
        b"module m; wire [4294967296:0] v; endmodule",
        Answer::Limit(What::Bound),
    ),
    (
        b"module m; wire [18446744073709551616:0] v; endmodule",
        Answer::Limit(What::Bound),
    ),
];

/// A netlist has at most 33554432 bits, and assigns at most as many.
static COUNTS: [(&'static [u8], Answer); 7] = [
    (
        b"module m;
  wire [1048575:0] a1, a2, a3, a4, a5, a6, a7, a8, b1, b2, b3, b4, b5, b6, b7, b8;
  wire [0:1048575] c1, c2, c3, c4, c5, c6, c7, c8, d1, d2, d3, d4, d5, d6, d7, d8;
endmodule",
        Answer::Netlist(
            b"module m();
  wire [1048575:0] a1;
  wire [1048575:0] a2;
  wire [1048575:0] a3;
  wire [1048575:0] a4;
  wire [1048575:0] a5;
  wire [1048575:0] a6;
  wire [1048575:0] a7;
  wire [1048575:0] a8;
  wire [1048575:0] b1;
  wire [1048575:0] b2;
  wire [1048575:0] b3;
  wire [1048575:0] b4;
  wire [1048575:0] b5;
  wire [1048575:0] b6;
  wire [1048575:0] b7;
  wire [1048575:0] b8;
  wire [0:1048575] c1;
  wire [0:1048575] c2;
  wire [0:1048575] c3;
  wire [0:1048575] c4;
  wire [0:1048575] c5;
  wire [0:1048575] c6;
  wire [0:1048575] c7;
  wire [0:1048575] c8;
  wire [0:1048575] d1;
  wire [0:1048575] d2;
  wire [0:1048575] d3;
  wire [0:1048575] d4;
  wire [0:1048575] d5;
  wire [0:1048575] d6;
  wire [0:1048575] d7;
  wire [0:1048575] d8;
endmodule
",
        ),
    ),
    (
        b"module m;
  wire [1048575:0] a1, a2, a3, a4, a5, a6, a7, a8, b1, b2, b3, b4, b5, b6, b7, b8;
  wire [0:1048575] c1, c2, c3, c4, c5, c6, c7, c8, d1, d2, d3, d4, d5, d6, d7, d8;
  INV u(.A(e));
endmodule",
        Answer::Limit(What::Bits),
    ),
    (
        b"module m;
  wire [1048575:0] a1, a2, a3, a4, a5, a6, a7, a8, b1, b2, b3, b4, b5, b6, b7, b8;
  wire [0:1048575] c1, c2, c3, c4, c5, c6, c7, c8, d1, d2, d3, d4, d5, d6, d7, d8, e;
endmodule",
        Answer::Limit(What::Bits),
    ),
    (
        b"module m;
  wire [1048575:0] v, w;
  assign v = w, v = w, v = w, v = w, v = w, v = w, v = w, v = w;
  assign v = w, v = w, v = w, v = w, v = w, v = w, v = w, v = w;
  assign v = w, v = w, v = w, v = w, v = w, v = w, v = w, v = w;
  assign v = w, v = w, v = w, v = w, v = w, v = w, v = w, v = w;
  assign x = 1'b0;
endmodule",
        Answer::Limit(What::Assigns),
    ),
    (
        b"module m;
  wire [1048575:0] v, w;
  assign v = w, v = w, v = w, v = w, v = w, v = w, v = w, v = w;
  assign v = w, v = w, v = w, v = w, v = w, v = w, v = w, v = w;
  assign v = w, v = w, v = w, v = w, v = w, v = w, v = w, v = w;
  assign v = w, v = w, v = w, v = w, v = w, v = w, v = w, v = w;
  assign v = w;
endmodule",
        Answer::Limit(What::Assigns),
    ),
    (
        b"module m;
  wire [1048576:0] a1, a2, a3, a4, a5, a6, a7, a8, b1, b2, b3, b4, b5, b6, b7, b8;
  wire [0:1048575] c1, c2, c3, c4, c5, c6, c7, c8, d1, d2, d3, d4, d5, d6, d7, d8, e;
endmodule",
        Answer::Limit(What::Bound),
    ),
    (
        b"module m;
  wire [1048575:0] a1, a2, a3, a4, a5, a6, a7, a8, b1, b2, b3, b4, b5, b6, b7, b8;
  wire [0:1048575] c1, c2, c3, c4, c5, c6, c7, c8, d1, d2, d3, d4, d5, d6, d7, d8, e;
  assign e = c1, e = c1, e = c1, e = c1, e = c1, e = c1, e = c1, e = c1;
  assign e = c2, e = c2, e = c2, e = c2, e = c2, e = c2, e = c2, e = c2;
  assign e = c3, e = c3, e = c3, e = c3, e = c3, e = c3, e = c3, e = c3;
  assign e = c4, e = c4, e = c4, e = c4, e = c4, e = c4, e = c4, e = c4;
  assign e = c5;
endmodule",
        Answer::Limit(What::Bits),
    ),
];

#[test]
fn the_first_sort_of_fault_is_answered(rt: HostRuntime) {
    for (i, (text, answer)) in ORDER.iter().enumerate() {
        assert!(rt; is_answered(rt.alloc(), text, *answer), "row {i}");
    }
}

#[test]
fn bounds_keep_to_their_limit(rt: HostRuntime) {
    for (i, (text, answer)) in BOUNDS.iter().enumerate() {
        assert!(rt; is_answered(rt.alloc(), text, *answer), "row {i}");
    }
}

#[test]
fn counts_keep_to_their_limits(rt: HostRuntime) {
    for (i, (text, answer)) in COUNTS.iter().enumerate() {
        assert!(rt; is_answered(rt.alloc(), text, *answer), "row {i}");
    }
}

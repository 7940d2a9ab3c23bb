//! Texts with each form of piece, and one for each fault for which a text has no syntax tree.

use super::answer::{Answer, is_answered};
use hold_vlex::LexFault;

static ROWS: [(&'static [u8], Answer); 12] = [
    (
        b"module m; endmodule",
        Answer::Netlist(b"module m();\nendmodule\n"),
    ),
    (
        b"module m(); endmodule",
        Answer::Netlist(b"module m();\nendmodule\n"),
    ),
    (
        b"module m(a, \\b[0] ); input a, \\b[0] ; endmodule",
        Answer::Netlist(
            b"module m(a, \\b[0] );
  input a;
  input \\b[0] ;
endmodule
",
        ),
    ),
    (
        b"module m(input a, b, output wire [3:0] c, d); endmodule",
        Answer::Netlist(
            b"module m(a, b, c, d);
  input a;
  input b;
  output [3:0] c;
  output [3:0] d;
endmodule
",
        ),
    ),
    (
        b"module \\wire (a, b); input wire [1:0] a, b; wire c; wire [0:2] d, e; endmodule",
        Answer::Netlist(
            b"module \\wire (a, b);
  input [1:0] a;
  input [1:0] b;
  wire c;
  wire [0:2] d;
  wire [0:2] e;
endmodule
",
        ),
    ),
    (
        b"module m; wire b; wire [3:0] c, d, e; assign a = b, c[3] = 1'b0, d[3:2] = e[1:0]; endmodule",
        Answer::Netlist(
            b"module m();
  wire b;
  wire [3:0] c;
  wire [3:0] d;
  wire [3:0] e;
  wire a;
  assign a = b;
  assign c[3] = 1'b0;
  assign d[3] = e[1];
  assign d[2] = e[0];
endmodule
",
        ),
    ),
    (
        b"module m; wire [3:0] b; INV u1(.A(a), .Y(b[3])), u2(), u3(.A(1'h1), .Y()); endmodule",
        Answer::Netlist(
            b"module m();
  wire [3:0] b;
  wire a;
  INV u1(.A(a), .Y(b[3]));
  INV u2();
  INV u3(.A(1'b1), .Y());
endmodule
",
        ),
    ),
    (
        b"module m; DFF u(.A(1'B0), .B(1'b1), .C(1'd0), .D(1'D1), .E(1'o0), .F(1'O1), .G(1'h0), .H(1'H1)); endmodule",
        Answer::Netlist(
            b"module m();
  DFF u(.A(1'b0), .B(1'b1), .C(1'b0), .D(1'b1), .E(1'b0), .F(1'b1), .G(1'b0), .H(1'b1));
endmodule
",
        ),
    ),
    (
        b"`timescale 1ns/1ps\n`celldefine\nmodule m; /* ; */ (* x = \"*)\" *) wire a; // ;\nendmodule\n`endcelldefine",
        Answer::Netlist(b"module m();\n  wire a;\nendmodule\n"),
    ),
    (b"module m; wire \\", Answer::Lex(LexFault::OpenName(15))),
    (b"module m; reg a; ; endmodule", Answer::LeftOut(b"reg", 10)),
    (b"module m; endmodule endmodule", Answer::Syntax(20)),
];

#[test]
fn forms_are_read(rt: HostRuntime) {
    for (i, (text, answer)) in ROWS.iter().enumerate() {
        assert!(rt; is_answered(rt.alloc(), text, *answer), "row {i}");
    }
}

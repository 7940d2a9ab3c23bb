//! Texts, each beside the canonical text of the netlist that it has.

use super::answer::{Answer, is_answered};

static ROWS: [(&'static [u8], Answer); 20] = [
    // Declarations after uses.
    (
        b"module m(y); assign y = v[0]; INV u(.A(v[1]), .Y(a)); wire a; wire [1:0] v; output y; endmodule",
        Answer::Netlist(
            b"module m(y);
  output y;
  wire a;
  wire [1:0] v;
  assign y = v[0];
  INV u(.A(v[1]), .Y(a));
endmodule
",
        ),
    ),
    // Ports in the order of the header, then the other declared wires, then the implicit ones.
    (
        b"module m(b, a); wire z; INV u(.A(q), .Y(p)); assign r = p; wire c, b; output a; input b; assign q = z; endmodule",
        Answer::Netlist(
            b"module m(b, a);
  input b;
  output a;
  wire z;
  wire c;
  wire q;
  wire p;
  wire r;
  assign r = p;
  assign q = z;
  INV u(.A(q), .Y(p));
endmodule
",
        ),
    ),
    // A name's place on a right side doesn't count.
    (
        b"module m; assign b = a, c = 1'b0; INV u(.A(a)); endmodule",
        Answer::Netlist(
            b"module m();
  wire b;
  wire c;
  wire a;
  assign b = a;
  assign c = 1'b0;
  INV u(.A(a));
endmodule
",
        ),
    ),
    (
        b"module m; assign x = x; INV u(.A(x)), v(.A(x)); endmodule",
        Answer::Netlist(
            b"module m();
  wire x;
  assign x = x;
  INV u(.A(x));
  INV v(.A(x));
endmodule
",
        ),
    ),
    // A port with one wire of its range, before and after its direction.
    (
        b"module a(b); input b; wire b; endmodule",
        Answer::Netlist(b"module a(b);\n  input b;\nendmodule\n"),
    ),
    (
        b"module m(a, b); wire [3:0] a; input [03:0] a; output [0:1] b; wire [0:01] b; endmodule",
        Answer::Netlist(
            b"module m(a, b);
  input [3:0] a;
  output [0:1] b;
endmodule
",
        ),
    ),
    (
        b"module m(a); input wire a; wire a; endmodule",
        Answer::Netlist(b"module m(a);\n  input a;\nendmodule\n"),
    ),
    (
        b"module m(output wire [1:0] a, b); wire [1:0] b, a; endmodule",
        Answer::Netlist(
            b"module m(a, b);
  output [1:0] a;
  output [1:0] b;
endmodule
",
        ),
    ),
    // Direction and range are carried on to a lone name, and not past the next direction.
    (
        b"module m(output [1:0] a, b, input c, d, input [0:2] e, output wire f, g); endmodule",
        Answer::Netlist(
            b"module m(a, b, c, d, e, f, g);
  output [1:0] a;
  output [1:0] b;
  input c;
  input d;
  input [0:2] e;
  output f;
  output g;
endmodule
",
        ),
    ),
    // The module, a type, a pin and a net or instance may share a name.
    (
        b"module m(m); input m; INV INV(.INV(m)), u(.INV(m)); endmodule",
        Answer::Netlist(
            b"module m(m);
  input m;
  INV INV(.INV(m));
  INV u(.INV(m));
endmodule
",
        ),
    ),
    // An escaped name is the name without its backslash, and may spell a keyword.
    (
        b"module m(\\cpu3 ); input cpu3; wire \\cpu3 ; INV \\u (.\\A (cpu3)); endmodule",
        Answer::Netlist(
            b"module m(cpu3);
  input cpu3;
  INV u(.A(cpu3));
endmodule
",
        ),
    ),
    (
        b"module \\module (\\input ); input \\input ; \\and \\endmodule (.\\or (\\input ), .\\; (\\wire )); endmodule",
        Answer::Netlist(
            b"module \\module (\\input );
  input \\input ;
  wire \\wire ;
  \\and  \\endmodule (.\\or (\\input ), .\\; (\\wire ));
endmodule
",
        ),
    ),
    (
        b"module m; wire [1:0] b; wire \\b[0] ; assign \\b[0] = b[0], b[1] = \\b[0] ; endmodule",
        Answer::Netlist(
            b"module m();
  wire [1:0] b;
  wire \\b[0] ;
  assign \\b[0]  = b[0];
  assign b[1] = \\b[0] ;
endmodule
",
        ),
    ),
    // A range may run either way.
    (
        b"module m; wire [3:1] v; wire [1:3] w; assign v[3:2] = w[2:3]; INV u(.A(v[1]), .Y(w[1])); endmodule",
        Answer::Netlist(
            b"module m();
  wire [3:1] v;
  wire [1:3] w;
  assign v[3] = w[2];
  assign v[2] = w[3];
  INV u(.A(v[1]), .Y(w[1]));
endmodule
",
        ),
    ),
    // A vector of width one can be named whole; a part of one bit runs either way.
    (
        b"module m; wire [5:5] v; wire a; assign v = a, a = v, v = 1'b1, v[5:5] = 1'b0; INV u(.A(v), .Y(v[5])); endmodule",
        Answer::Netlist(
            b"module m();
  wire [5:5] v;
  wire a;
  assign v[5] = a;
  assign a = v[5];
  assign v[5] = 1'b1;
  assign v[5] = 1'b0;
  INV u(.A(v[5]), .Y(v[5]));
endmodule
",
        ),
    ),
    (
        b"module m; wire [3:0] v; wire [0:3] w; assign v[2:2] = w[1:1], w[03] = v[00]; endmodule",
        Answer::Netlist(
            b"module m();
  wire [3:0] v;
  wire [0:3] w;
  assign v[2] = w[1];
  assign w[3] = v[0];
endmodule
",
        ),
    ),
    // Vectors are paired from the right end, and assigned bit by bit from the left end.
    (
        b"module m; wire [3:0] v; wire [0:3] w; assign v = w, w[1:2] = v[3:2]; endmodule",
        Answer::Netlist(
            b"module m();
  wire [3:0] v;
  wire [0:3] w;
  assign v[3] = w[0];
  assign v[2] = w[1];
  assign v[1] = w[2];
  assign v[0] = w[3];
  assign w[1] = v[3];
  assign w[2] = v[2];
endmodule
",
        ),
    ),
    // Instances and assignments stay in their order, whatever stands between.
    (
        b"module m; INV u2(.A(1'b1)); assign b = 1'b1; BUFF u1(.P()); assign a = b; INV u3(); endmodule",
        Answer::Netlist(
            b"module m();
  wire b;
  wire a;
  assign b = 1'b1;
  assign a = b;
  INV u2(.A(1'b1));
  BUFF u1(.P());
  INV u3();
endmodule
",
        ),
    ),
    // A netlist with escaped names, and one with attributes, directions in the header and vectors.
    (
        b"module e(clk, y); input clk; output y; wire a, \\wire ;
  DFF u1(.C(clk), .D(1'b0), .Q(a));
  INV \\u[3] (.A(a), .Y(\\wire ));
  DFF u3(.C(clk), .D(\\wire ), .Q(y));
endmodule",
        Answer::Netlist(
            b"module e(clk, y);
  input clk;
  output y;
  wire a;
  wire \\wire ;
  DFF u1(.C(clk), .D(1'b0), .Q(a));
  INV \\u[3] (.A(a), .Y(\\wire ));
  DFF u3(.C(clk), .D(\\wire ), .Q(y));
endmodule
",
        ),
    ),
    (
        b"/* trial 20 */
`timescale 1ns/1ps
module trial(input clk, input in, output [1:0] out);
  wire [1:0] t;
  assign out = t;
  (* lane = \"0\" *)
  DFF \\p[0] (.C(clk), .D(in), .Q(a0_0));
  DFF q0(.C(clk), .D(a0_0), .Q(t[0]));
  (* lane = \"1\" *)
  DFF \\p[1] (.C(clk), .D(t[0]), .Q(a1_0));
  DFF q1(.C(clk), .D(a1_0), .Q(t[1]));
endmodule
",
        Answer::Netlist(
            b"module trial(clk, in, out);
  input clk;
  input in;
  output [1:0] out;
  wire [1:0] t;
  wire a0_0;
  wire a1_0;
  assign out[1] = t[1];
  assign out[0] = t[0];
  DFF \\p[0] (.C(clk), .D(in), .Q(a0_0));
  DFF q0(.C(clk), .D(a0_0), .Q(t[0]));
  DFF \\p[1] (.C(clk), .D(t[0]), .Q(a1_0));
  DFF q1(.C(clk), .D(a1_0), .Q(t[1]));
endmodule
",
        ),
    ),
];

#[test]
fn texts_have_the_netlists_of_their_canonical_texts(rt: HostRuntime) {
    for (i, (text, answer)) in ROWS.iter().enumerate() {
        assert!(rt; is_answered(rt.alloc(), text, *answer), "row {i}");
    }
}

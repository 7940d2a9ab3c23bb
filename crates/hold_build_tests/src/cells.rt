//! The lists of netlists of cells of each role. Pins are numbered instance by instance as they are written, and then come the bits
//! of the ports.

use crate::answer::{Answer, is_answered};
use crate::lists::{Lists, NONE};

static ROWS: [(&'static [u8], Lists); 10] = [
    (b"module m; endmodule", NONE),
    // Two registers with an inverter between them. A data pin at a constant ends no arc and is a capture.
    (
        b"module e(clk, y); input clk; output y; wire a; wire b; DFF u1(.C(clk), .D(1'b0), .Q(a)); INV u2(.A(a), .Y(b)); DFF u3(.C(clk), .D(b), .Q(y)); endmodule",
        Lists {
            pins: 10,
            arcs: &[
                (8, 0, true),
                (2, 3, true),
                (3, 4, false),
                (8, 5, true),
                (4, 6, true),
                (7, 9, true),
            ],
            launches: &[2, 7],
            captures: &[1, 6],
            clocks: &[0, 5],
            keeps: &[],
        },
    ),
    // Two ways that meet again, and one output with two loads.
    (
        b"module n(clk); input clk; wire q, x, y; DFF u1(.C(clk), .D(1'b0), .Q(q)); INV u2(.A(q), .Y(x)); NAND2 u3(.A(q), .B(x), .Y(y)); DFF u4(.C(clk), .D(y), .Q()); endmodule",
        Lists {
            pins: 12,
            arcs: &[
                (11, 0, true),
                (2, 3, true),
                (3, 4, false),
                (2, 5, true),
                (4, 6, true),
                (5, 7, false),
                (6, 7, false),
                (11, 8, true),
                (7, 9, true),
            ],
            launches: &[2, 10],
            captures: &[1, 9],
            clocks: &[0, 8],
            keeps: &[],
        },
    ),
    // A register's pins in any order, written empty or not written. A pin that isn't checked is no capture.
    (
        b"module m(c, r); input c, r; wire q; DFF u(.R(r), .QN(), .E(), .C(c), .Q(q), .D(q)); DFF v(.C(), .D(1'b1)); DFF w(); endmodule",
        Lists {
            pins: 10,
            arcs: &[(9, 0, true), (8, 3, true), (4, 5, true)],
            launches: &[1, 4],
            captures: &[2, 5, 7],
            clocks: &[3, 6],
            keeps: &[],
        },
    ),
    // Arcs lead from each input of a cell to each of its outputs.
    (
        b"module m(a, b, s, c); input a, b; output s, c; HA u(.A(a), .CO(c), .B(b), .S(s)); endmodule",
        Lists {
            pins: 8,
            arcs: &[
                (4, 0, true),
                (5, 2, true),
                (0, 1, false),
                (2, 1, false),
                (0, 3, false),
                (2, 3, false),
                (3, 6, true),
                (1, 7, true),
            ],
            ..NONE
        },
    ),
    // An input at a constant begins arcs, an empty one none. An empty output ends them.
    (
        b"module m(y); output y; wire z; HA u(.A(1'b0), .B(), .S(y), .CO()); INV v(.A(1'b1)); INV w(.Y(z)); endmodule",
        Lists {
            pins: 7,
            arcs: &[(0, 2, false), (0, 3, false), (2, 6, true)],
            ..NONE
        },
    ),
    // A cell without inputs.
    (
        b"module m; wire t; TIE u(.Y(t)); INV v(.A(t), .Y()); endmodule",
        Lists {
            pins: 3,
            arcs: &[(0, 1, true), (1, 2, false)],
            ..NONE
        },
    ),
    // No arc leads through an opaque cell, and its output is no launch.
    (
        b"module m(g, d, q); input g, d; output q; LAT u(.G(g), .D(d), .Q(q)); endmodule",
        Lists {
            pins: 6,
            arcs: &[(3, 0, true), (4, 1, true), (2, 5, true)],
            ..NONE
        },
    ),
    // One net at both inputs of a cell, and an output port that is a load beside a cell's input.
    (
        b"module m(a, y); input a; output y; NAND2 u(.A(a), .B(a), .Y(y)); INV v(.A(y)); endmodule",
        Lists {
            pins: 6,
            arcs: &[
                (4, 0, true),
                (4, 1, true),
                (0, 2, false),
                (1, 2, false),
                (2, 3, true),
                (2, 5, true),
            ],
            ..NONE
        },
    ),
    // What nothing drives.
    (
        b"module m(y); output y; wire z; INV u(.A(z)); endmodule",
        Lists { pins: 2, ..NONE },
    ),
];

#[test]
fn netlists_of_cells_have_these_lists(rt: HostRuntime) {
    let alloc = rt.alloc();
    for (netlist, lists) in &ROWS {
        assert!(rt; is_answered(alloc, netlist, b"", Answer::Lists(*lists)));
    }
}

//! The lists of netlists with assignments and vectors. Assignments have no pins.

use crate::answer::{Answer, is_answered};
use crate::lists::{Lists, NONE};

static ROWS: [(&'static [u8], Lists); 4] = [
    // Assignments are followed to what drives the last of them.
    (
        b"module m(a, y); input a; output y; wire b, c; assign c = b; assign b = a; assign y = c; INV u(.A(c)); INV v(.A(a)); endmodule",
        Lists {
            pins: 4,
            arcs: &[(2, 0, true), (2, 1, true), (2, 3, true)],
            ..NONE
        },
    ),
    (
        b"module m(y); output y; wire b, c; INV u(.A(1'b0), .Y(b)); assign c = b; assign y = c; DFF v(.C(b), .D(c), .R(c)); endmodule",
        Lists {
            pins: 6,
            arcs: &[
                (0, 1, false),
                (1, 2, true),
                (1, 3, true),
                (1, 4, true),
                (1, 5, true),
            ],
            captures: &[3],
            clocks: &[2],
            ..NONE
        },
    ),
    // To a constant, and to what nothing drives.
    (
        b"module m(y, z); output y, z; wire b, c; assign b = 1'b1; assign y = b; assign z = c; INV u(.A(b), .Y()); endmodule",
        Lists {
            pins: 4,
            arcs: &[(0, 1, false)],
            ..NONE
        },
    ),
    // Bits of vectors go from left to right, whichever way they are numbered.
    (
        b"module m(v, w); input [1:0] v; output [0:2] w; wire [3:2] t; assign w[2] = v[0]; assign t = v; INV u(.A(t[2]), .Y(w[0])); INV x(.A(v[1]), .Y(w[1])); endmodule",
        Lists {
            pins: 9,
            arcs: &[
                (5, 0, true),
                (0, 1, false),
                (1, 6, true),
                (4, 2, true),
                (2, 3, false),
                (3, 7, true),
                (5, 8, true),
            ],
            ..NONE
        },
    ),
];

#[test]
fn assignments_are_followed_bit_by_bit(rt: HostRuntime) {
    let alloc = rt.alloc();
    for (netlist, lists) in &ROWS {
        assert!(rt; is_answered(alloc, netlist, b"", Answer::Lists(*lists)));
    }
}

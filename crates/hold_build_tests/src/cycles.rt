//! Netlists whose arcs have a cycle, and such whose rings are broken.

use crate::answer::{Answer, is_answered};
use crate::lists::{Lists, NONE};

static ROWS: [(&'static [u8], &'static [u8], Answer); 11] = [
    (
        b"module r(); wire a; wire b; INV u1(.A(a), .Y(b)); INV u2(.A(b), .Y(a)); endmodule",
        b"",
        Answer::Cycle(&[0, 1, 2, 3]),
    ),
    (
        b"module r; wire a; INV u(.A(a), .Y(a)); endmodule",
        b"",
        Answer::Cycle(&[0, 1]),
    ),
    // From the least pin, which isn't an input here.
    (
        b"module r; wire a, b; INV u1(.Y(b), .A(a)); INV u2(.Y(a), .A(b)); endmodule",
        b"",
        Answer::Cycle(&[0, 3, 2, 1]),
    ),
    // What leads into the ring and what it leads to isn't on it.
    (
        b"module r(i, o); input i; output o; wire a, b, c; INV x(.A(a), .Y(o)); NAND2 u(.A(c), .B(b), .Y(a)); INV v(.A(a), .Y(b)); INV w(.A(i), .Y(c)); endmodule",
        b"",
        Answer::Cycle(&[3, 4, 5, 6]),
    ),
    // Round by an assignment.
    (
        b"module r; wire b, c; assign c = b; INV u(.A(c), .Y(b)); endmodule",
        b"",
        Answer::Cycle(&[0, 1]),
    ),
    // An entry that names nothing goes first, and a kept pin breaks no ring.
    (
        b"module r; wire a; INV u(.A(a), .Y(a)); endmodule",
        b"keep = [{ inst = \"u\", pin = \"B\" }]\n",
        Answer::Unknown(b"keep.0"),
    ),
    (
        b"module r; wire a; INV u(.A(a), .Y(a)); endmodule",
        b"keep = [{ inst = \"u\", pin = \"A\" }]\n",
        Answer::Cycle(&[0, 1]),
    ),
    // A register and an opaque cell break a ring, and an input that is written empty closes none.
    (
        b"module r; wire a, b; INV u1(.A(a), .Y(b)); DFF u2(.D(b), .Q(a)); endmodule",
        b"",
        Answer::Lists(Lists {
            pins: 4,
            arcs: &[(3, 0, true), (0, 1, false), (1, 2, true)],
            launches: &[3],
            captures: &[2],
            ..NONE
        }),
    ),
    (
        b"module r; wire q; DFF u(.D(q), .Q(q)); endmodule",
        b"",
        Answer::Lists(Lists {
            pins: 2,
            arcs: &[(1, 0, true)],
            launches: &[1],
            captures: &[0],
            ..NONE
        }),
    ),
    (
        b"module r; wire a, b; INV u1(.A(a), .Y(b)); LAT u2(.D(b), .Q(a)); endmodule",
        b"",
        Answer::Lists(Lists {
            pins: 4,
            arcs: &[(3, 0, true), (0, 1, false), (1, 2, true)],
            ..NONE
        }),
    ),
    (
        b"module r; wire a, b; INV u1(.A(), .Y(b)); INV u2(.A(b), .Y(a)); endmodule",
        b"",
        Answer::Lists(Lists {
            pins: 4,
            arcs: &[(1, 2, true), (2, 3, false)],
            ..NONE
        }),
    ),
];

#[test]
fn a_ring_of_combinational_cells_is_named_from_its_least_pin(rt: HostRuntime) {
    let alloc = rt.alloc();
    for (netlist, lines, answer) in &ROWS {
        assert!(rt; is_answered(alloc, netlist, lines, *answer));
    }
}

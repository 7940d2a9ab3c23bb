//! Texts in which a name is declared twice, or an instance names a pin twice.

use super::answer::{Answer, is_answered};

static ROWS: [(&'static [u8], Answer); 47] = [
    // Wires.
    (
        b"module m; wire a; wire a; endmodule",
        Answer::DoubleName(b"a"),
    ),
    (b"module m; wire a, a; endmodule", Answer::DoubleName(b"a")),
    (
        b"module m; wire cpu3, \\cpu3 ; endmodule",
        Answer::DoubleName(b"cpu3"),
    ),
    // Ports: in the list, by their directions, and by more than one wire.
    (
        b"module m(a, a); input a; endmodule",
        Answer::DoubleName(b"a"),
    ),
    (b"module m(input a, a); endmodule", Answer::DoubleName(b"a")),
    (
        b"module m(input a, output a); endmodule",
        Answer::DoubleName(b"a"),
    ),
    (
        b"module m(a); input a; input a; endmodule",
        Answer::DoubleName(b"a"),
    ),
    (
        b"module m(a); input a; output a; endmodule",
        Answer::DoubleName(b"a"),
    ),
    (
        b"module m(input a); input a; endmodule",
        Answer::DoubleName(b"a"),
    ),
    (
        b"module m(a); input a; wire a; wire a; endmodule",
        Answer::DoubleName(b"a"),
    ),
    (
        b"module m(a); wire a, a; input a; endmodule",
        Answer::DoubleName(b"a"),
    ),
    (
        b"module m(input a); wire a, a; endmodule",
        Answer::DoubleName(b"a"),
    ),
    // A direction and a wire of a name that is no port.
    (
        b"module m; input a; wire a; endmodule",
        Answer::DoubleName(b"a"),
    ),
    (
        b"module m; wire a; input a; endmodule",
        Answer::DoubleName(b"a"),
    ),
    (b"module m; input a, a; endmodule", Answer::DoubleName(b"a")),
    (
        b"module m(input a); wire b; output b; endmodule",
        Answer::DoubleName(b"b"),
    ),
    // Instances, and nets that have an instance's name.
    (
        b"module m; INV u(); INV u(); endmodule",
        Answer::DoubleName(b"u"),
    ),
    (
        b"module m; INV u(), u(); endmodule",
        Answer::DoubleName(b"u"),
    ),
    (
        b"module m; INV u(); DFF u(); endmodule",
        Answer::DoubleName(b"u"),
    ),
    (
        b"module m; wire u; INV u(); endmodule",
        Answer::DoubleName(b"u"),
    ),
    (
        b"module m; INV u(); wire u; endmodule",
        Answer::DoubleName(b"u"),
    ),
    (
        b"module m(u); input u; INV u(); endmodule",
        Answer::DoubleName(b"u"),
    ),
    (
        b"module m(u); INV u(); input u; endmodule",
        Answer::DoubleName(b"u"),
    ),
    (
        b"module m(input u); INV u(); endmodule",
        Answer::DoubleName(b"u"),
    ),
    (
        b"module m; INV u(); input u; endmodule",
        Answer::DoubleName(b"u"),
    ),
    (
        b"module m; INV v(.A(u)), u(); endmodule",
        Answer::DoubleName(b"u"),
    ),
    (
        b"module m; INV u(), v(.A(u)); endmodule",
        Answer::DoubleName(b"u"),
    ),
    (
        b"module m; INV u(.A(u)); endmodule",
        Answer::DoubleName(b"u"),
    ),
    (
        b"module m; INV u(), v(.A(u[0])); endmodule",
        Answer::DoubleName(b"u"),
    ),
    (
        b"module m; INV u(); assign u = 1'b0; endmodule",
        Answer::DoubleName(b"u"),
    ),
    (
        b"module m; assign u = 1'b0; INV u(); endmodule",
        Answer::DoubleName(b"u"),
    ),
    // A name on a right side declares nothing.
    (
        b"module m; wire y; INV u(); assign y = u; endmodule",
        Answer::BadBit(b"u"),
    ),
    // Pins, whatever is tied to them.
    (
        b"module m; INV u(.A(a), .A(b)); endmodule",
        Answer::DoubleName(b"A"),
    ),
    (
        b"module m; INV u(.A(a), .Y(y), .A(a)); endmodule",
        Answer::DoubleName(b"A"),
    ),
    (
        b"module m; INV u(.A(), .A()); endmodule",
        Answer::DoubleName(b"A"),
    ),
    (
        b"module m; INV u(.\\A (), .A(1'b0)); endmodule",
        Answer::DoubleName(b"A"),
    ),
    // The place is the later declaration; for an implicit net, its first place that declares it.
    (
        b"module m; wire a, b, b, a; endmodule",
        Answer::DoubleName(b"b"),
    ),
    (
        b"module m(a, b, b, a); input a, b; endmodule",
        Answer::DoubleName(b"b"),
    ),
    (
        b"module m(a, b); input a, b; output b; output a; endmodule",
        Answer::DoubleName(b"b"),
    ),
    (
        b"module m; INV u1(.A(u2)), u2(), u3(), u3(); endmodule",
        Answer::DoubleName(b"u2"),
    ),
    (
        b"module m; INV u1(.A(u3)), u2(), u2(), u3(); endmodule",
        Answer::DoubleName(b"u2"),
    ),
    (
        b"module m; INV u(); wire b, b; INV v(.A(u)); endmodule",
        Answer::DoubleName(b"b"),
    ),
    (
        b"module m; INV u(); INV v(.A(u)); wire b, b; endmodule",
        Answer::DoubleName(b"u"),
    ),
    (
        b"module m; wire y; INV u(); assign y = u; wire b, b; INV v(.A(u)); endmodule",
        Answer::DoubleName(b"b"),
    ),
    // The place of a pin is the second, and names and pins are looked for together.
    (
        b"module m; INV u(.A(), .B(), .B(), .A()); endmodule",
        Answer::DoubleName(b"B"),
    ),
    (
        b"module m; INV u(.A(), .A()); wire b, b; endmodule",
        Answer::DoubleName(b"A"),
    ),
    (
        b"module m; wire b, b; INV u(.A(), .A()); endmodule",
        Answer::DoubleName(b"b"),
    ),
];

#[test]
fn a_second_declaration_is_refused(rt: HostRuntime) {
    for (i, (text, answer)) in ROWS.iter().enumerate() {
        assert!(rt; is_answered(rt.alloc(), text, *answer), "row {i}");
    }
}

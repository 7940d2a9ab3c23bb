//! Types of cells with their pins, arcs and checks.

use crate::answer::{Answer, are_answered};

#[test]
fn types_have_their_form(rt: HostRuntime) {
    for (lines, answer) in [
        ("type = []", Answer::Job),
        ("type = 1", Answer::Key("type")),
        ("type = [1]", Answer::Key("type.0")),
        ("type = [{ role = \"comb\" }]", Answer::Key("type.0.name")),
        (
            "type = [{ name = 1, role = \"comb\" }]",
            Answer::Key("type.0.name"),
        ),
        (
            "type = [{ name = \"\", role = \"comb\" }]",
            Answer::Range("type.0.name"),
        ),
        ("type = [{ name = \"A\" }]", Answer::Key("type.0.role")),
        (
            "type = [{ name = \"A\", role = 1 }]",
            Answer::Key("type.0.role"),
        ),
        (
            "type = [{ name = \"A\", role = \"latch\" }]",
            Answer::Range("type.0.role"),
        ),
        // without a role the keys of all roles are known, and no others
        (
            "type = [{ name = \"A\", clock = 1, inputs = 1, checks = 1 }]",
            Answer::Key("type.0.role"),
        ),
        (
            "type = [{ name = \"A\", role = \"x\", quiet = 1, data = 1 }]",
            Answer::Range("type.0.role"),
        ),
        (
            "type = [{ name = \"A\", pins = 1, z = 1 }]",
            Answer::Key("type.0.pins"),
        ),
        // keys of another role
        (
            "type = [{ name = \"A\", role = \"comb\", data = [] }]",
            Answer::Key("type.0.data"),
        ),
        (
            "type = [{ name = \"A\", role = \"comb\", clock = \"c\" }]",
            Answer::Key("type.0.clock"),
        ),
        (
            "type = [{ name = \"A\", role = \"comb\", quiet = [] }]",
            Answer::Key("type.0.quiet"),
        ),
        (
            "type = [{ name = \"A\", role = \"comb\", checks = [] }]",
            Answer::Key("type.0.checks"),
        ),
        (
            "type = [{ name = \"A\", role = \"opaque\", arcs = [] }]",
            Answer::Key("type.0.arcs"),
        ),
        (
            "type = [{ name = \"A\", role = \"opaque\", clock = \"c\" }]",
            Answer::Key("type.0.clock"),
        ),
        (
            "type = [{ name = \"A\", role = \"register\", clock = \"c\", inputs = [] }]",
            Answer::Key("type.0.inputs"),
        ),
        (
            "type = [{ name = \"A\", role = \"register\" }]",
            Answer::Key("type.0.clock"),
        ),
        (
            "type = [{ name = \"A\", role = \"register\", clock = [\"c\"] }]",
            Answer::Key("type.0.clock"),
        ),
        (
            "type = [{ name = \"A\", role = \"register\", clock = \"\" }]",
            Answer::Range("type.0.clock"),
        ),
        (
            "type = [{ name = \"A\", role = \"opaque\", inputs = [\"a\"], outputs = [\"y\"] }]",
            Answer::Job,
        ),
        (
            "type = [{ name = \"A\", role = \"register\", clock = \"c\", data = [\"d\"], quiet = [\"r\"], outputs = [\"q\"] }]",
            Answer::Job,
        ),
    ] {
        assert!(rt; are_answered(rt.alloc(), lines, answer), "{lines}");
    }
}

#[test]
fn pins_of_a_type_differ(rt: HostRuntime) {
    for (lines, answer) in [
        (
            "type = [{ name = \"A\", role = \"comb\", inputs = [\"A\"] }, { name = \"B\", role = \"comb\", outputs = [\"A\"] }]",
            Answer::Job,
        ),
        (
            "type = [{ name = \"A\", role = \"comb\", inputs = \"a\" }]",
            Answer::Key("type.0.inputs"),
        ),
        (
            "type = [{ name = \"A\", role = \"comb\", inputs = [1] }]",
            Answer::Key("type.0.inputs.0"),
        ),
        (
            "type = [{ name = \"A\", role = \"comb\", outputs = [\"a b\"] }]",
            Answer::Range("type.0.outputs.0"),
        ),
        (
            "type = [{ name = \"A\", role = \"comb\", inputs = [\"a\", \"b\", \"a\"] }]",
            Answer::Range("type.0.inputs.2"),
        ),
        (
            "type = [{ name = \"A\", role = \"comb\", inputs = [\"a\"], outputs = [\"y\", \"a\"] }]",
            Answer::Range("type.0.outputs.1"),
        ),
        (
            "type = [{ name = \"A\", role = \"opaque\", inputs = [\"a\"], outputs = [\"a\"] }]",
            Answer::Range("type.0.outputs.0"),
        ),
        (
            "type = [{ name = \"A\", role = \"register\", clock = \"c\", data = [\"c\"] }]",
            Answer::Range("type.0.data.0"),
        ),
        (
            "type = [{ name = \"A\", role = \"register\", clock = \"c\", data = [\"d\"], quiet = [\"r\", \"d\"] }]",
            Answer::Range("type.0.quiet.1"),
        ),
        (
            "type = [{ name = \"A\", role = \"register\", clock = \"c\", quiet = [\"c\"] }]",
            Answer::Range("type.0.quiet.0"),
        ),
        (
            "type = [{ name = \"A\", role = \"register\", clock = \"c\", quiet = [\"r\"], outputs = [\"r\"] }]",
            Answer::Range("type.0.outputs.0"),
        ),
        (
            "type = [{ name = \"A\", role = \"register\", clock = \"c\", data = [\"d\"], outputs = [\"q\", \"d\"] }]",
            Answer::Range("type.0.outputs.1"),
        ),
        (
            "type = [{ name = \"A\", role = \"register\", clock = \"c\", outputs = [\"c\"] }]",
            Answer::Range("type.0.outputs.0"),
        ),
    ] {
        assert!(rt; are_answered(rt.alloc(), lines, answer), "{lines}");
    }
}

#[test]
fn arcs_have_their_form(rt: HostRuntime) {
    for (arcs, answer) in [
        (
            "[{ from = \"a\", to = \"y\", spans = [[1, 1]] }, { from = \"b\", to = \"y\", spans = [[-1, 1]] }]",
            Answer::Job,
        ),
        ("1", Answer::Key("type.0.arcs")),
        ("[1]", Answer::Key("type.0.arcs.0")),
        (
            "[{ from = \"a\", to = \"y\", spans = [[1, 1]], at = 1 }]",
            Answer::Key("type.0.arcs.0.at"),
        ),
        (
            "[{ to = \"y\", spans = [[1, 1]] }]",
            Answer::Key("type.0.arcs.0.from"),
        ),
        (
            "[{ from = 1, to = \"y\", spans = [[1, 1]] }]",
            Answer::Key("type.0.arcs.0.from"),
        ),
        (
            "[{ from = \"y\", to = \"y\", spans = [[1, 1]] }]",
            Answer::Range("type.0.arcs.0.from"),
        ),
        (
            "[{ from = \"x\", to = \"y\", spans = [[1, 1]] }]",
            Answer::Range("type.0.arcs.0.from"),
        ),
        (
            "[{ from = \"a\", spans = [[1, 1]] }]",
            Answer::Key("type.0.arcs.0.to"),
        ),
        (
            "[{ from = \"a\", to = [], spans = [[1, 1]] }]",
            Answer::Key("type.0.arcs.0.to"),
        ),
        (
            "[{ from = \"a\", to = \"b\", spans = [[1, 1]] }]",
            Answer::Range("type.0.arcs.0.to"),
        ),
        (
            "[{ from = \"a\", to = \"y\" }]",
            Answer::Key("type.0.arcs.0.spans"),
        ),
        (
            "[{ from = \"a\", to = \"y\", spans = 1 }]",
            Answer::Key("type.0.arcs.0.spans"),
        ),
        (
            "[{ from = \"a\", to = \"y\", spans = [[1, 1], [1, 1]] }]",
            Answer::Range("type.0.arcs.0.spans"),
        ),
        (
            "[{ from = \"a\", to = \"y\", spans = [[1, 1]] }, { from = \"b\", to = \"y\", spans = [[2, 1]] }]",
            Answer::Range("type.0.arcs.1.spans.0"),
        ),
    ] {
        match format!(in rt.alloc();
            "type = [{{ name = \"A\", role = \"comb\", inputs = [\"a\", \"b\"], outputs = [\"y\"], arcs = {arcs} }}]"
        ) {
            Ok(text) => assert!(rt; are_answered(rt.alloc(), text.as_str(), answer), "{arcs}"),
            Err(_) => assert!(rt; false, "no memory"),
        }
    }
}

#[test]
fn arcs_and_checks_of_a_register_have_their_form(rt: HostRuntime) {
    for (lists, answer) in [
        (
            "arcs = [{ from = \"c\", to = \"q\", spans = [[1, 1]] }]",
            Answer::Job,
        ),
        (
            "arcs = [{ from = \"d\", to = \"q\", spans = [[1, 1]] }]",
            Answer::Range("type.0.arcs.0.from"),
        ),
        (
            "arcs = [{ from = \"c\", to = \"d\", spans = [[1, 1]] }]",
            Answer::Range("type.0.arcs.0.to"),
        ),
        (
            "checks = [{ pin = \"d\", setup = [-10000000000], hold = [10000000000] }]",
            Answer::Job,
        ),
        ("checks = 1", Answer::Key("type.0.checks")),
        ("checks = [1]", Answer::Key("type.0.checks.0")),
        (
            "checks = [{ pin = \"d\", setup = [1], hold = [1], span = 1 }]",
            Answer::Key("type.0.checks.0.span"),
        ),
        (
            "checks = [{ setup = [1], hold = [1] }]",
            Answer::Key("type.0.checks.0.pin"),
        ),
        (
            "checks = [{ pin = 1, setup = [1], hold = [1] }]",
            Answer::Key("type.0.checks.0.pin"),
        ),
        (
            "checks = [{ pin = \"r\", setup = [1], hold = [1] }]",
            Answer::Range("type.0.checks.0.pin"),
        ),
        (
            "checks = [{ pin = \"d\", hold = [1] }]",
            Answer::Key("type.0.checks.0.setup"),
        ),
        (
            "checks = [{ pin = \"d\", setup = 1, hold = [1] }]",
            Answer::Key("type.0.checks.0.setup"),
        ),
        (
            "checks = [{ pin = \"d\", setup = [1, 2], hold = [1] }]",
            Answer::Range("type.0.checks.0.setup"),
        ),
        (
            "checks = [{ pin = \"d\", setup = [\"1\"], hold = [1] }]",
            Answer::Key("type.0.checks.0.setup.0"),
        ),
        (
            "checks = [{ pin = \"d\", setup = [-10000000001], hold = [1] }]",
            Answer::Range("type.0.checks.0.setup.0"),
        ),
        (
            "checks = [{ pin = \"d\", setup = [1] }]",
            Answer::Key("type.0.checks.0.hold"),
        ),
        (
            "checks = [{ pin = \"d\", setup = [1], hold = [] }]",
            Answer::Range("type.0.checks.0.hold"),
        ),
        (
            "checks = [{ pin = \"d\", setup = [1], hold = [10000000001] }]",
            Answer::Range("type.0.checks.0.hold.0"),
        ),
    ] {
        match format!(in rt.alloc();
            "type = [{{ name = \"A\", role = \"register\", clock = \"c\", data = [\"d\"], quiet = [\"r\"], outputs = [\"q\"], {lists} }}]"
        ) {
            Ok(text) => assert!(rt; are_answered(rt.alloc(), text.as_str(), answer), "{lists}"),
            Err(_) => assert!(rt; false, "no memory"),
        }
    }
}

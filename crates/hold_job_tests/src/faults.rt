//! The keys of a job, of its corners, kinds, clock arrivals and kept pins: each missing, of another kind and out of its range.

use crate::answer::{Answer, are_answered, is_answered};

#[test]
fn a_text_that_is_no_toml_has_that_fault(rt: HostRuntime) {
    for text in [
        b"netlist = ".as_slice(),
        b"netlist",
        b"a = 1\na = 2",
        b"a = \"\xff\"",
        b"period = 9223372036854775808",
    ] {
        assert!(rt; is_answered(rt.alloc(), text, Answer::Toml));
    }
}

#[test]
fn a_key_that_is_unknown_missing_or_of_another_kind_is_named(rt: HostRuntime) {
    for (text, path) in [
        ("", "netlist"),
        ("netlist = 1", "netlist"),
        ("netlist = \"n\"", "output"),
        ("netlist = \"n\"\noutput = [\"o\"]", "output"),
        ("netlist = \"n\"\noutput = \"o\"", "certificate"),
        (
            "netlist = \"n\"\noutput = \"o\"\ncertificate = true",
            "certificate",
        ),
        (
            "netlist = \"n\"\noutput = \"o\"\ncertificate = \"c\"\nplan = 1",
            "plan",
        ),
        (
            "netlist = \"n\"\noutput = \"o\"\ncertificate = \"c\"",
            "period",
        ),
        (
            "netlist = \"n\"\noutput = \"o\"\ncertificate = \"c\"\nperiod = 1.0",
            "period",
        ),
        (
            "netlist = \"n\"\noutput = \"o\"\ncertificate = \"c\"\nperiod = 1",
            "corner",
        ),
        (
            "netlist = \"n\"\noutput = \"o\"\ncertificate = \"c\"\nperiod = 1\ncorner = 1",
            "corner",
        ),
        (
            "netlist = \"n\"\noutput = \"o\"\ncertificate = \"c\"\nperiod = 1\ncorner = [1]",
            "corner.0",
        ),
        (
            "netlist = \"n\"\noutput = \"o\"\ncertificate = \"c\"\nperiod = 1\ncorner = [{}]",
            "corner.0.name",
        ),
        (
            "netlist = \"n\"\noutput = \"o\"\ncertificate = \"c\"\nperiod = 1\ncorner = [{ name = 1 }]",
            "corner.0.name",
        ),
        (
            "netlist = \"n\"\noutput = \"o\"\ncertificate = \"c\"\nperiod = 1\ncorner = [{ name = \"t\", sdf = 1 }]",
            "corner.0.sdf",
        ),
        (
            "netlist = \"n\"\noutput = \"o\"\ncertificate = \"c\"\nperiod = 1\ncorner = [{ name = \"t\", \"\" = 1 }]",
            "corner.0.",
        ),
        // unknown keys come first, in byte order
        ("perid = 1", "perid"),
        ("netlist = 1\nb = 1\na = 1", "a"),
        ("\"\" = 1", ""),
        ("netlist = \"\"\nB = 1\na = 1", "B"),
    ] {
        assert!(rt;
            is_answered(rt.alloc(), text.as_bytes(), Answer::Key(path)),
            "{text}"
        );
    }
}

#[test]
fn a_value_out_of_its_range_is_named(rt: HostRuntime) {
    for (text, path) in [
        ("netlist = \"\"", "netlist"),
        ("netlist = \"n\"\noutput = \"\"", "output"),
        (
            "netlist = \"n\"\noutput = \"o\"\ncertificate = \"\"",
            "certificate",
        ),
        (
            "netlist = \"n\"\noutput = \"o\"\ncertificate = \"c\"\nplan = \"\"",
            "plan",
        ),
        (
            "netlist = \"n\"\noutput = \"o\"\ncertificate = \"c\"\nperiod = 0",
            "period",
        ),
        (
            "netlist = \"n\"\noutput = \"o\"\ncertificate = \"c\"\nperiod = -1",
            "period",
        ),
        (
            "netlist = \"n\"\noutput = \"o\"\ncertificate = \"c\"\nperiod = 10000000001",
            "period",
        ),
        (
            "netlist = \"n\"\noutput = \"o\"\ncertificate = \"c\"\nperiod = 1\ncorner = []",
            "corner",
        ),
        (
            "netlist = \"n\"\noutput = \"o\"\ncertificate = \"c\"\nperiod = 1\ncorner = [1, 2, 3, 4, 5, 6, 7, 8, 9]",
            "corner",
        ),
        (
            "netlist = \"n\"\noutput = \"o\"\ncertificate = \"c\"\nperiod = 1\ncorner = [{ name = \"\" }]",
            "corner.0.name",
        ),
        (
            "netlist = \"n\"\noutput = \"o\"\ncertificate = \"c\"\nperiod = 1\ncorner = [{ name = \"a b\" }]",
            "corner.0.name",
        ),
        (
            "netlist = \"n\"\noutput = \"o\"\ncertificate = \"c\"\nperiod = 1\ncorner = [{ name = \"t\", sdf = \"\" }]",
            "corner.0.sdf",
        ),
        // a second corner of one name, before its other keys
        (
            "netlist = \"n\"\noutput = \"o\"\ncertificate = \"c\"\nperiod = 1\ncorner = [{ name = \"t\" }, { name = \"t\", sdf = 1 }]",
            "corner.1.name",
        ),
    ] {
        assert!(rt;
            is_answered(rt.alloc(), text.as_bytes(), Answer::Range(path)),
            "{text}"
        );
    }
}

#[test]
fn numbers_have_their_ranges(rt: HostRuntime) {
    for (lines, answer) in [
        ("max_chain = 0", Answer::Job),
        ("max_chain = 16", Answer::Job),
        ("max_chain = 17", Answer::Range("max_chain")),
        ("max_chain = -1", Answer::Range("max_chain")),
        ("max_chain = \"4\"", Answer::Key("max_chain")),
        ("nodes = 1", Answer::Job),
        ("nodes = 1000000", Answer::Job),
        ("nodes = 0", Answer::Range("nodes")),
        ("nodes = 1000001", Answer::Range("nodes")),
        ("nodes = []", Answer::Key("nodes")),
        ("searchers = 1", Answer::Job),
        ("searchers = 8", Answer::Job),
        ("searchers = 0", Answer::Range("searchers")),
        ("searchers = 9", Answer::Range("searchers")),
        ("searchers = 1.5", Answer::Key("searchers")),
        ("order = 9223372036854775807", Answer::Job),
        ("order = -1", Answer::Range("order")),
        ("order = false", Answer::Key("order")),
        // in the order of the keys
        ("nodes = 0\nmax_chain = \"4\"", Answer::Key("max_chain")),
    ] {
        assert!(rt; are_answered(rt.alloc(), lines, answer), "{lines}");
    }
}

#[test]
fn spans_have_their_form(rt: HostRuntime) {
    for (lines, answer) in [
        ("arrival = [[-10000000000, 10000000000]]", Answer::Job),
        ("arrival = 1", Answer::Key("arrival")),
        ("arrival = []", Answer::Range("arrival")),
        ("arrival = [1, 2]", Answer::Range("arrival")),
        ("arrival = [0]", Answer::Key("arrival.0")),
        ("arrival = [[0]]", Answer::Range("arrival.0")),
        ("arrival = [[0, 0, 0]]", Answer::Range("arrival.0")),
        ("arrival = [[0.0, 0]]", Answer::Key("arrival.0.0")),
        ("arrival = [[0, \"x\"]]", Answer::Key("arrival.0.1")),
        (
            "arrival = [[-10000000001, 0]]",
            Answer::Range("arrival.0.0"),
        ),
        ("arrival = [[0, 10000000001]]", Answer::Range("arrival.0.1")),
        ("arrival = [[1, 0]]", Answer::Range("arrival.0")),
        (
            "arrival = [[10000000001, \"x\"]]",
            Answer::Range("arrival.0.0"),
        ),
    ] {
        assert!(rt; are_answered(rt.alloc(), lines, answer), "{lines}");
    }
}

#[test]
fn clocks_and_keeps_have_their_form(rt: HostRuntime) {
    for (lines, answer) in [
        (
            "clock = [{ inst = \"a\", arrivals = [[0, 1]] }, { inst = \"b\", arrivals = [[0, 1]] }]",
            Answer::Job,
        ),
        ("clock = 1", Answer::Key("clock")),
        ("clock = [1]", Answer::Key("clock.0")),
        (
            "clock = [{ inst = \"a\", arrivals = [[0, 0]], x = 1 }]",
            Answer::Key("clock.0.x"),
        ),
        (
            "clock = [{ arrivals = [[0, 0]] }]",
            Answer::Key("clock.0.inst"),
        ),
        (
            "clock = [{ inst = 1, arrivals = [[0, 0]] }]",
            Answer::Key("clock.0.inst"),
        ),
        (
            "clock = [{ inst = \"a b\", arrivals = [[0, 0]] }]",
            Answer::Range("clock.0.inst"),
        ),
        (
            "clock = [{ inst = \"a\" }]",
            Answer::Key("clock.0.arrivals"),
        ),
        (
            "clock = [{ inst = \"a\", arrivals = [[1, 0]] }]",
            Answer::Range("clock.0.arrivals.0"),
        ),
        (
            "keep = [{ inst = \"a\", pin = \"p\" }, { inst = \"a\", pin = \"p\" }]",
            Answer::Job,
        ),
        ("keep = {}", Answer::Key("keep")),
        (
            "keep = [{ inst = \"a\", pin = \"p\" }, 1]",
            Answer::Key("keep.1"),
        ),
        (
            "keep = [{ inst = \"a\", pin = \"p\", net = 1 }]",
            Answer::Key("keep.0.net"),
        ),
        ("keep = [{ pin = \"p\" }]", Answer::Key("keep.0.inst")),
        (
            "keep = [{ inst = \"\", pin = \"p\" }]",
            Answer::Range("keep.0.inst"),
        ),
        ("keep = [{ inst = \"a\" }]", Answer::Key("keep.0.pin")),
        (
            "keep = [{ inst = \"a\", pin = \"\" }]",
            Answer::Range("keep.0.pin"),
        ),
    ] {
        assert!(rt; are_answered(rt.alloc(), lines, answer), "{lines}");
    }
}

#[test]
fn kinds_have_their_form(rt: HostRuntime) {
    let types =
        "type = [{ name = \"B\", role = \"comb\", inputs = [\"A\"], outputs = [\"Y\"] }, { name = \"N\", role = \"comb\", inputs = [\"A\", \"B\"], outputs = [\"Y\"] }, { name = \"O\", role = \"opaque\", inputs = [\"A\"], outputs = [\"Y\"] }, { name = \"E\", role = \"comb\", inputs = [\"A\"] }]\n";
    for (lines, answer) in [
        (
            "kind = [{ type = \"B\", cost = 1, spans = [[0, 0]] }]",
            Answer::Job,
        ),
        (
            "kind = [{ type = \"B\", cost = 1000000, spans = [[10000000000, 10000000000]] }]",
            Answer::Job,
        ),
        ("kind = 1", Answer::Key("kind")),
        ("kind = [1, 2, 3, 4, 5, 6, 7, 8, 9]", Answer::Range("kind")),
        ("kind = [1]", Answer::Key("kind.0")),
        (
            "kind = [{ type = \"B\", cost = 1, spans = [[0, 0]], pin = 1 }]",
            Answer::Key("kind.0.pin"),
        ),
        (
            "kind = [{ cost = 1, spans = [[0, 0]] }]",
            Answer::Key("kind.0.type"),
        ),
        (
            "kind = [{ type = 1, cost = 1, spans = [[0, 0]] }]",
            Answer::Key("kind.0.type"),
        ),
        (
            "kind = [{ type = \"X\", cost = 1, spans = [[0, 0]] }]",
            Answer::Range("kind.0.type"),
        ),
        (
            "kind = [{ type = \"N\", cost = 1, spans = [[0, 0]] }]",
            Answer::Range("kind.0.type"),
        ),
        (
            "kind = [{ type = \"O\", cost = 1, spans = [[0, 0]] }]",
            Answer::Range("kind.0.type"),
        ),
        (
            "kind = [{ type = \"E\", cost = 1, spans = [[0, 0]] }]",
            Answer::Range("kind.0.type"),
        ),
        (
            "kind = [{ type = \"B\", spans = [[0, 0]] }]",
            Answer::Key("kind.0.cost"),
        ),
        (
            "kind = [{ type = \"B\", cost = \"1\", spans = [[0, 0]] }]",
            Answer::Key("kind.0.cost"),
        ),
        (
            "kind = [{ type = \"B\", cost = 0, spans = [[0, 0]] }]",
            Answer::Range("kind.0.cost"),
        ),
        (
            "kind = [{ type = \"B\", cost = 1000001, spans = [[0, 0]] }]",
            Answer::Range("kind.0.cost"),
        ),
        (
            "kind = [{ type = \"B\", cost = 1 }]",
            Answer::Key("kind.0.spans"),
        ),
        (
            "kind = [{ type = \"B\", cost = 1, spans = [] }]",
            Answer::Range("kind.0.spans"),
        ),
        (
            "kind = [{ type = \"B\", cost = 1, spans = [[-1, -2]] }]",
            Answer::Range("kind.0.spans.0.0"),
        ),
        (
            "kind = [{ type = \"B\", cost = 1, spans = [[1, 0]] }]",
            Answer::Range("kind.0.spans.0"),
        ),
    ] {
        match format!(in rt.alloc(); "{types}{lines}") {
            Ok(text) => assert!(rt; are_answered(rt.alloc(), text.as_str(), answer), "{lines}"),
            Err(_) => assert!(rt; false, "no memory"),
        }
    }
}

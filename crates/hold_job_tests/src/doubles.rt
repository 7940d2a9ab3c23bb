//! Entries that stand twice, and files that share a name, each in its order.

use crate::answer::{Answer, are_answered, is_answered};

const ARC: &str = "{ from = \"a\", to = \"y\", spans = [[1, 1]] }";

#[test]
fn what_stands_twice_is_named_at_the_second_place(rt: HostRuntime) {
    for (lines, answer) in [
        (
            "type = [{ name = \"A\", role = \"comb\" }, { name = \"B\", role = \"comb\" }, { name = \"A\", role = \"opaque\" }]",
            Answer::Double("type.2.name"),
        ),
        (
            "type = [{ name = \"B\", role = \"comb\", inputs = [\"A\"], outputs = [\"Y\"] }]\nkind = [{ type = \"B\", cost = 1, spans = [[0, 0]] }, { type = \"B\", cost = 2, spans = [[0, 0]] }]",
            Answer::Double("kind.1.type"),
        ),
        (
            "clock = [{ inst = \"a\", arrivals = [[0, 0]] }, { inst = \"a\", arrivals = [[1, 1]] }]",
            Answer::Double("clock.1.inst"),
        ),
        (
            "type = [{ name = \"A\", role = \"register\", clock = \"c\", data = [\"d\"], checks = [{ pin = \"d\", setup = [1], hold = [1] }, { pin = \"d\", setup = [1], hold = [1] }] }]",
            Answer::Double("type.0.checks.1.pin"),
        ),
        // a rule that is broken goes before what stands twice
        (
            "clock = [{ inst = \"a\", arrivals = [[0, 0]] }, { inst = \"a\", arrivals = [[1, 0]] }]",
            Answer::Range("clock.1.arrivals.0"),
        ),
        (
            "type = [{ name = \"A\", role = \"comb\" }, { name = \"A\", role = \"comb\" }]\nkeep = 1",
            Answer::Key("keep"),
        ),
        // a kind's type is right where some type of its name fits
        (
            "type = [{ name = \"B\", role = \"opaque\" }, { name = \"B\", role = \"comb\", inputs = [\"A\"], outputs = [\"Y\"] }]\nkind = [{ type = \"B\", cost = 1, spans = [[0, 0]] }]",
            Answer::Double("type.1.name"),
        ),
    ] {
        assert!(rt; are_answered(rt.alloc(), lines, answer), "{lines}");
    }
}

#[test]
fn an_arc_stands_twice_by_both_its_ends(rt: HostRuntime) {
    for (arcs, answer) in [
        (
            "{ from = \"b\", to = \"y\", spans = [[1, 1]] }",
            Answer::Job,
        ),
        (
            "{ from = \"a\", to = \"z\", spans = [[1, 1]] }",
            Answer::Job,
        ),
        (
            "{ from = \"a\", to = \"y\", spans = [[2, 2]] }",
            Answer::Double("type.1.arcs.1.from"),
        ),
        (
            "{ from = \"b\", to = \"y\", spans = [[1, 1]] }, { from = \"a\", to = \"z\", spans = [[1, 1]] }, { from = \"b\", to = \"y\", spans = [[1, 1]] }",
            Answer::Double("type.1.arcs.3.from"),
        ),
    ] {
        match format!(in rt.alloc();
            "type = [{{ name = \"O\", role = \"comb\", inputs = [\"a\"], outputs = [\"y\"], arcs = [{ARC}] }}, {{ name = \"A\", role = \"comb\", inputs = [\"a\", \"b\"], outputs = [\"y\", \"z\"], arcs = [{ARC}, {arcs}] }}]"
        ) {
            Ok(text) => assert!(rt; are_answered(rt.alloc(), text.as_str(), answer), "{arcs}"),
            Err(_) => assert!(rt; false, "no memory"),
        }
    }
}

#[test]
fn doubles_are_asked_in_their_order(rt: HostRuntime) {
    for (lines, answer) in [
        (
            "type = [{ name = \"A\", role = \"comb\" }, { name = \"A\", role = \"comb\" }]\nclock = [{ inst = \"a\", arrivals = [[0, 0]] }, { inst = \"a\", arrivals = [[1, 1]] }]",
            Answer::Double("type.1.name"),
        ),
        (
            "type = [{ name = \"A\", role = \"comb\", inputs = [\"a\"], outputs = [\"y\"], arcs = [{ from = \"a\", to = \"y\", spans = [[1, 1]] }, { from = \"a\", to = \"y\", spans = [[1, 1]] }] }]\nclock = [{ inst = \"a\", arrivals = [[0, 0]] }, { inst = \"a\", arrivals = [[1, 1]] }]",
            Answer::Double("clock.1.inst"),
        ),
        (
            "type = [{ name = \"R\", role = \"register\", clock = \"c\", data = [\"d\"], checks = [{ pin = \"d\", setup = [1], hold = [1] }, { pin = \"d\", setup = [1], hold = [1] }] }, { name = \"A\", role = \"comb\", inputs = [\"a\"], outputs = [\"y\"], arcs = [{ from = \"a\", to = \"y\", spans = [[1, 1]] }, { from = \"a\", to = \"y\", spans = [[1, 1]] }] }]",
            Answer::Double("type.1.arcs.1.from"),
        ),
    ] {
        assert!(rt; are_answered(rt.alloc(), lines, answer), "{lines}");
    }
}

#[test]
fn files_that_are_written_have_names_of_their_own(rt: HostRuntime) {
    for (names, answer) in [
        (
            "netlist = \"n\"\noutput = \"o\"\ncertificate = \"c\"\nplan = \"p\"",
            Answer::Job,
        ),
        (
            "netlist = \"e.toml\"\noutput = \"o\"\ncertificate = \"c\"\nplan = \"e.toml\"",
            Answer::Job,
        ),
        (
            "netlist = \"n\"\noutput = \"./n\"\ncertificate = \"c\"",
            Answer::Job,
        ),
        (
            "netlist = \"n\"\noutput = \"e.toml\"\ncertificate = \"c\"",
            Answer::SameName("e.toml"),
        ),
        (
            "netlist = \"e.v\"\noutput = \"e.v\"\ncertificate = \"c\"",
            Answer::SameName("e.v"),
        ),
        (
            "netlist = \"n\"\noutput = \"c\"\ncertificate = \"c\"",
            Answer::SameName("c"),
        ),
        (
            "netlist = \"n\"\noutput = \"p\"\ncertificate = \"c\"\nplan = \"p\"",
            Answer::SameName("p"),
        ),
        (
            "netlist = \"n\"\noutput = \"s\"\ncertificate = \"c\"",
            Answer::SameName("s"),
        ),
        (
            "netlist = \"n\"\noutput = \"o\"\ncertificate = \"e.toml\"",
            Answer::SameName("e.toml"),
        ),
        (
            "netlist = \"n\"\noutput = \"o\"\ncertificate = \"n\"",
            Answer::SameName("n"),
        ),
        (
            "netlist = \"n\"\noutput = \"o\"\ncertificate = \"p\"\nplan = \"p\"",
            Answer::SameName("p"),
        ),
        (
            "netlist = \"n\"\noutput = \"o\"\ncertificate = \"s\"",
            Answer::SameName("s"),
        ),
        // the output goes first
        (
            "netlist = \"n\"\noutput = \"s\"\ncertificate = \"n\"",
            Answer::SameName("s"),
        ),
        // what stands twice goes before both
        (
            "netlist = \"n\"\noutput = \"n\"\ncertificate = \"c\"\nclock = [{ inst = \"a\", arrivals = [[0, 0], [0, 0], [0, 0]] }, { inst = \"a\", arrivals = [[0, 0], [0, 0], [0, 0]] }]",
            Answer::Double("clock.1.inst"),
        ),
    ] {
        match format!(in rt.alloc();
            "period = 1\ncorner = [{{ name = \"t\" }}, {{ name = \"u\", sdf = \"s\" }}, {{ name = \"v\", sdf = \"s\" }}]\n{names}"
        ) {
            Ok(text) => assert!(rt; is_answered(rt.alloc(), text.as_bytes(), answer), "{names}"),
            Err(_) => assert!(rt; false, "no memory"),
        }
    }
}

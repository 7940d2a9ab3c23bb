use super::{Job, read};
use hold_base::{Interval, Name};
use hold_plain::{Cell, Role};
use std::alloc::{AllocError, Global};

/// The answer to the text, which stands in the file `e.toml`.
fn answer(alloc: Global, text: &str) -> Option<Job> {
    let own = match Name::from_bytes(alloc, b"e.toml") {
        Ok(own) => own,
        Err(_) => return None,
    };
    match read(alloc, text.as_bytes(), &own) {
        Ok(job) => job,
        Err(_) => None,
    }
}

/// What each job has to say, as lines at the head of one.
const HEAD: &str =
    "netlist = \"n\"\noutput = \"o\"\ncertificate = \"c\"\nperiod = 1\ncorner = [{ name = \"t\" }]\n";

/// The answer to a text of these lines after the head.
fn answer_after_head(alloc: Global, lines: &str) -> Option<Job> {
    match format!(in alloc; "{HEAD}{lines}") {
        Ok(text) => answer(alloc, text.as_str()),
        Err(_) => None,
    }
}

const FIVE_KEYS: &str =
    "netlist = \"e.v\"\noutput = \"e_out.v\"\ncertificate = \"e.cert\"\nperiod = 1000\n[[corner]]\nname = \"typ\"\n";

const REST_OF_EXAMPLE: &str = "[[type]]
name = \"DFF\"
role = \"register\"
clock = \"C\"
data = [\"D\"]
outputs = [\"Q\"]
arcs = [{ from = \"C\", to = \"Q\", spans = [[100, 120]] }]
checks = [{ pin = \"D\", setup = [40], hold = [30] }]
[[type]]
name = \"INV\"
role = \"comb\"
inputs = [\"A\"]
outputs = [\"Y\"]
arcs = [{ from = \"A\", to = \"Y\", spans = [[50, 60]] }]
[[type]]
name = \"K1\"
role = \"comb\"
inputs = [\"A\"]
outputs = [\"Y\"]
[[type]]
name = \"K2\"
role = \"comb\"
inputs = [\"A\"]
outputs = [\"Y\"]
[[kind]]
type = \"K1\"
cost = 2
spans = [[50, 60]]
[[kind]]
type = \"K2\"
cost = 3
spans = [[100, 115]]
[[clock]]
inst = \"u3\"
arrivals = [[300, 300]]
";

#[test]
fn five_keys_are_a_job(rt: HostRuntime) {
    match answer(rt.alloc(), FIVE_KEYS) {
        Some(job) => {
            assert!(rt; job.netlist.bytes() == b"e.v".as_slice());
            assert!(rt; job.output.bytes() == b"e_out.v".as_slice());
            assert!(rt; job.certificate.bytes() == b"e.cert".as_slice());
            assert!(rt; job.timing.period == 1000);
            assert!(rt; job.corner.bytes() == b"typ".as_slice());
            assert!(rt; job.timing.arrival.is_none());
            assert!(rt; job.timing.cells.as_slice().is_empty());
            assert!(rt; job.timing.clocks.as_slice().is_empty());
        }
        None => assert!(rt; false, "no job"),
    }
}

/// The base example's job, with its period and chain limit and the common arrival.
fn example(alloc: Global) -> Option<Job> {
    match format!(in alloc; "max_chain = 4\narrival = [[0, 0]]\n{FIVE_KEYS}{REST_OF_EXAMPLE}") {
        Ok(text) => answer(alloc, text.as_str()),
        Err(_) => None,
    }
}

#[test]
fn example_has_its_clock_arrivals(rt: HostRuntime) {
    match example(rt.alloc()) {
        Some(job) => {
            assert!(rt;
                job.timing.arrival
                    == Some(Interval {
                        least: 0,
                        greatest: 0
                    })
            );
            match job.timing.clocks.as_slice() {
                [clock] => {
                    assert!(rt; clock.inst.bytes() == b"u3".as_slice());
                    assert!(rt; clock.arrival.least == 300 && clock.arrival.greatest == 300);
                }
                _ => assert!(rt; false, "not one clock"),
            }
        }
        None => assert!(rt; false, "no job"),
    }
}

/// Whether the cell is the example's register.
fn is_flip_flop(cell: &Cell) -> bool {
    let Some(clock) = &cell.clock else {
        return false;
    };
    let ([data], [output]) = (cell.inputs.as_slice(), cell.outputs.as_slice()) else {
        return false;
    };
    let ([arc], [entry]) = (cell.arcs.as_slice(), cell.checks.as_slice()) else {
        return false;
    };
    let are_pins = clock.bytes() == b"C".as_slice()
        && data.bytes() == b"D".as_slice()
        && output.bytes() == b"Q".as_slice();
    let is_arc = arc.from.bytes() == b"C".as_slice()
        && arc.to.bytes() == b"Q".as_slice()
        && arc.span.least == 100
        && arc.span.greatest == 120;
    let is_check = entry.pin.bytes() == b"D".as_slice()
        && entry.check.setup == 40
        && entry.check.hold == 30;
    cell.name.bytes() == b"DFF".as_slice()
        && cell.role == Role::Register
        && are_pins
        && is_arc
        && is_check
}

/// Whether the cell is the example's inverter.
fn is_inverter(cell: &Cell) -> bool {
    let ([input], [output], [arc]) = (
        cell.inputs.as_slice(),
        cell.outputs.as_slice(),
        cell.arcs.as_slice(),
    ) else {
        return false;
    };
    let is_arc = arc.from.bytes() == b"A".as_slice()
        && arc.to.bytes() == b"Y".as_slice()
        && arc.span.least == 50
        && arc.span.greatest == 60;
    cell.name.bytes() == b"INV".as_slice()
        && cell.role == Role::Comb
        && cell.clock.is_none()
        && input.bytes() == b"A".as_slice()
        && output.bytes() == b"Y".as_slice()
        && is_arc
        && cell.checks.as_slice().is_empty()
}

#[test]
fn example_has_its_cell_types(rt: HostRuntime) {
    match example(rt.alloc()) {
        Some(job) => match job.timing.cells.as_slice() {
            [flip_flop, inverter, first, second] => {
                assert!(rt; is_flip_flop(flip_flop));
                assert!(rt; is_inverter(inverter));
                assert!(rt;
                    first.name.bytes() == b"K1".as_slice() && first.arcs.as_slice().is_empty()
                );
                assert!(rt; second.name.bytes() == b"K2".as_slice());
            }
            _ => assert!(rt; false, "not four types"),
        },
        None => assert!(rt; false, "no job"),
    }
}

#[test]
fn other_texts_are_no_job(rt: HostRuntime) {
    for text in [
        "",
        "netlist",
        // A key is missing.
        "output = \"o\"\ncertificate = \"c\"\nperiod = 1\ncorner = [{ name = \"t\" }]",
        "netlist = \"n\"\ncertificate = \"c\"\nperiod = 1\ncorner = [{ name = \"t\" }]",
        "netlist = \"n\"\noutput = \"o\"\nperiod = 1\ncorner = [{ name = \"t\" }]",
        "netlist = \"n\"\noutput = \"o\"\ncertificate = \"c\"\ncorner = [{ name = \"t\" }]",
        "netlist = \"n\"\noutput = \"o\"\ncertificate = \"c\"\nperiod = 1",
        // A value of another kind, or out of its range.
        "netlist = 1\noutput = \"o\"\ncertificate = \"c\"\nperiod = 1\ncorner = [{ name = \"t\" }]",
        "netlist = \"\"\noutput = \"o\"\ncertificate = \"c\"\nperiod = 1\ncorner = [{ name = \"t\" }]",
        "netlist = \"n\"\noutput = \"o\"\ncertificate = \"c\"\nperiod = 0\ncorner = [{ name = \"t\" }]",
        "netlist = \"n\"\noutput = \"o\"\ncertificate = \"c\"\nperiod = 1.0\ncorner = [{ name = \"t\" }]",
        "netlist = \"n\"\noutput = \"o\"\ncertificate = \"c\"\nperiod = 10000000001\ncorner = [{ name = \"t\" }]",
        // Not one corner, or a corner that isn't a name alone.
        "netlist = \"n\"\noutput = \"o\"\ncertificate = \"c\"\nperiod = 1\ncorner = []",
        "netlist = \"n\"\noutput = \"o\"\ncertificate = \"c\"\nperiod = 1\ncorner = [{ name = \"t\" }, { name = \"u\" }]",
        "netlist = \"n\"\noutput = \"o\"\ncertificate = \"c\"\nperiod = 1\ncorner = [1]",
        "netlist = \"n\"\noutput = \"o\"\ncertificate = \"c\"\nperiod = 1\ncorner = [{}]",
        "netlist = \"n\"\noutput = \"o\"\ncertificate = \"c\"\nperiod = 1\ncorner = [{ name = \"t\", sdf = \"s\" }]",
        "netlist = \"n\"\noutput = \"o\"\ncertificate = \"c\"\nperiod = 1\ncorner = [{ name = \"a b\" }]",
        "netlist = \"n\"\noutput = \"o\"\ncertificate = \"c\"\nperiod = 1\ncorner = [{ name = \"\" }]",
        // One name for two files.
        "netlist = \"n\"\noutput = \"e.toml\"\ncertificate = \"c\"\nperiod = 1\ncorner = [{ name = \"t\" }]",
        "netlist = \"n\"\noutput = \"n\"\ncertificate = \"c\"\nperiod = 1\ncorner = [{ name = \"t\" }]",
        "netlist = \"n\"\noutput = \"c\"\ncertificate = \"c\"\nperiod = 1\ncorner = [{ name = \"t\" }]",
        "netlist = \"n\"\noutput = \"o\"\ncertificate = \"e.toml\"\nperiod = 1\ncorner = [{ name = \"t\" }]",
        "netlist = \"n\"\noutput = \"o\"\ncertificate = \"n\"\nperiod = 1\ncorner = [{ name = \"t\" }]",
    ] {
        assert!(rt; answer(rt.alloc(), text).is_none(), "{text}");
    }
}

#[test]
fn lines_that_keep_the_rules_are_a_job(rt: HostRuntime) {
    for lines in [
        "",
        // What stands at these keys is read past.
        "kind = 1\nmax_chain = \"any\"",
        "kind = [{ wrong = [1] }]\nmax_chain = 17",
        // The ends of the ranges.
        "arrival = [[-10000000000, 10000000000]]",
        "type = []\nclock = []",
        // Lists may be left out; a pin of another cell may have the same name.
        "type = [{ name = \"A\", role = \"comb\" }, { name = \"B\", role = \"register\", clock = \"A\" }]",
        "type = [{ name = \"A\", role = \"comb\", inputs = [\"A\"] }, { name = \"B\", role = \"comb\", outputs = [\"A\"] }]",
        // Arcs that share one end.
        "type = [{ name = \"A\", role = \"comb\", inputs = [\"a\", \"b\"], outputs = [\"y\"], arcs = [{ from = \"a\", to = \"y\", spans = [[1, 1]] }, { from = \"b\", to = \"y\", spans = [[1, 1]] }] }]",
        "type = [{ name = \"A\", role = \"register\", clock = \"c\", data = [\"d\"], checks = [{ pin = \"d\", setup = [-1], hold = [0] }] }]",
        "clock = [{ inst = \"a\", arrivals = [[0, 1]] }, { inst = \"b\", arrivals = [[0, 1]] }]",
    ] {
        assert!(rt; answer_after_head(rt.alloc(), lines).is_some(), "{lines}");
    }
}

#[test]
fn lines_that_break_a_rule_are_no_job(rt: HostRuntime) {
    for lines in [
        // A key that no job has.
        "sdf = \"s\"",
        "plan = \"p\"",
        "nodes = 1",
        "searchers = 1",
        "order = 0",
        "keep = []",
        // Spans of the wrong form.
        "arrival = 1",
        "arrival = []",
        "arrival = [[0, 0], [0, 0]]",
        "arrival = [0]",
        "arrival = [[0]]",
        "arrival = [[0, 0, 0]]",
        "arrival = [[0, 0.0]]",
        "arrival = [[1, 0]]",
        "arrival = [[-10000000001, 0]]",
        "arrival = [[0, 10000000001]]",
        // Clocks.
        "clock = 1",
        "clock = [1]",
        "clock = [{ arrivals = [[0, 0]] }]",
        "clock = [{ inst = \"a\" }]",
        "clock = [{ inst = \"a b\", arrivals = [[0, 0]] }]",
        "clock = [{ inst = \"a\", arrivals = [[1, 0]] }]",
        "clock = [{ inst = \"a\", arrivals = [[0, 0]], least = 0 }]",
        "clock = [{ inst = \"a\", arrivals = [[0, 0]] }, { inst = \"a\", arrivals = [[1, 1]] }]",
    ] {
        assert!(rt; answer_after_head(rt.alloc(), lines).is_none(), "{lines}");
    }
}

#[test]
fn cell_types_that_break_a_rule_are_no_job(rt: HostRuntime) {
    for lines in [
        "type = 1",
        "type = [1]",
        // The role, and the keys of a role.
        "type = [{ name = \"A\" }]",
        "type = [{ name = \"A\", role = \"opaque\" }]",
        "type = [{ name = \"A\", role = 1 }]",
        "type = [{ role = \"comb\" }]",
        "type = [{ name = \"A\", role = \"comb\", data = [\"d\"] }]",
        "type = [{ name = \"A\", role = \"comb\", checks = [] }]",
        "type = [{ name = \"A\", role = \"register\" }]",
        "type = [{ name = \"A\", role = \"register\", clock = \"c\", inputs = [\"d\"] }]",
        "type = [{ name = \"A\", role = \"register\", clock = \"c\", quiet = [\"r\"] }]",
        // Names.
        "type = [{ name = \"\", role = \"comb\" }]",
        "type = [{ name = \"A\", role = \"comb\", inputs = \"a\" }]",
        "type = [{ name = \"A\", role = \"comb\", inputs = [1] }]",
        "type = [{ name = \"A\", role = \"comb\", outputs = [\"a b\"] }]",
        // Pins that share a name.
        "type = [{ name = \"A\", role = \"comb\", inputs = [\"a\", \"a\"] }]",
        "type = [{ name = \"A\", role = \"comb\", inputs = [\"a\"], outputs = [\"a\"] }]",
        "type = [{ name = \"A\", role = \"register\", clock = \"c\", data = [\"c\"] }]",
        "type = [{ name = \"A\", role = \"register\", clock = \"c\", outputs = [\"c\"] }]",
        // Types that share a name.
        "type = [{ name = \"A\", role = \"comb\" }, { name = \"A\", role = \"register\", clock = \"c\" }]",
    ] {
        assert!(rt; answer_after_head(rt.alloc(), lines).is_none(), "{lines}");
    }
}

#[test]
fn arcs_and_checks_that_break_a_rule_are_no_job(rt: HostRuntime) {
    for lines in [
        // Arcs of the wrong form.
        "type = [{ name = \"A\", role = \"comb\", inputs = [\"a\"], outputs = [\"y\"], arcs = 1 }]",
        "type = [{ name = \"A\", role = \"comb\", inputs = [\"a\"], outputs = [\"y\"], arcs = [{ to = \"y\", spans = [[1, 1]] }] }]",
        "type = [{ name = \"A\", role = \"comb\", inputs = [\"a\"], outputs = [\"y\"], arcs = [{ from = \"a\", spans = [[1, 1]] }] }]",
        "type = [{ name = \"A\", role = \"comb\", inputs = [\"a\"], outputs = [\"y\"], arcs = [{ from = \"a\", to = \"y\" }] }]",
        "type = [{ name = \"A\", role = \"comb\", inputs = [\"a\"], outputs = [\"y\"], arcs = [{ from = \"a\", to = \"y\", spans = [[1, 1]], at = 1 }] }]",
        // Arcs between other pins than an input, or the clock, and an output.
        "type = [{ name = \"A\", role = \"comb\", inputs = [\"a\"], outputs = [\"y\"], arcs = [{ from = \"y\", to = \"y\", spans = [[1, 1]] }] }]",
        "type = [{ name = \"A\", role = \"comb\", inputs = [\"a\"], outputs = [\"y\"], arcs = [{ from = \"a\", to = \"a\", spans = [[1, 1]] }] }]",
        "type = [{ name = \"A\", role = \"register\", clock = \"c\", data = [\"d\"], outputs = [\"q\"], arcs = [{ from = \"d\", to = \"q\", spans = [[1, 1]] }] }]",
        // An arc that stands twice.
        "type = [{ name = \"A\", role = \"comb\", inputs = [\"a\"], outputs = [\"y\"], arcs = [{ from = \"a\", to = \"y\", spans = [[1, 1]] }, { from = \"a\", to = \"y\", spans = [[2, 2]] }] }]",
        // Checks of the wrong form.
        "type = [{ name = \"A\", role = \"register\", clock = \"c\", data = [\"d\"], checks = [{ setup = [1], hold = [1] }] }]",
        "type = [{ name = \"A\", role = \"register\", clock = \"c\", data = [\"d\"], checks = [{ pin = \"d\", hold = [1] }] }]",
        "type = [{ name = \"A\", role = \"register\", clock = \"c\", data = [\"d\"], checks = [{ pin = \"d\", setup = [1] }] }]",
        "type = [{ name = \"A\", role = \"register\", clock = \"c\", data = [\"d\"], checks = [{ pin = \"d\", setup = [1, 2], hold = [1] }] }]",
        "type = [{ name = \"A\", role = \"register\", clock = \"c\", data = [\"d\"], checks = [{ pin = \"d\", setup = 1, hold = [1] }] }]",
        "type = [{ name = \"A\", role = \"register\", clock = \"c\", data = [\"d\"], checks = [{ pin = \"d\", setup = [1], hold = [10000000001] }] }]",
        "type = [{ name = \"A\", role = \"register\", clock = \"c\", data = [\"d\"], checks = [{ pin = \"d\", setup = [1], hold = [1], span = 1 }] }]",
        // A check of another pin than a data pin, and one that stands twice.
        "type = [{ name = \"A\", role = \"register\", clock = \"c\", data = [\"d\"], checks = [{ pin = \"c\", setup = [1], hold = [1] }] }]",
        "type = [{ name = \"A\", role = \"register\", clock = \"c\", data = [\"d\"], checks = [{ pin = \"d\", setup = [1], hold = [1] }, { pin = \"d\", setup = [1], hold = [1] }] }]",
    ] {
        assert!(rt; answer_after_head(rt.alloc(), lines).is_none(), "{lines}");
    }
}

/// A text of this many letters.
fn letters(alloc: Global, count: usize) -> Option<String> {
    match "a".repeat(alloc, count) {
        Ok(text) => Some(text),
        Err(_) => None,
    }
}

/// Whether a job may name its netlist, or its corner, or a cell type by this many letters each.
fn may_have_lengths(alloc: Global, netlist: usize, corner: usize, cell: usize) -> bool {
    let (Some(netlist), Some(corner), Some(cell)) = (
        letters(alloc, netlist),
        letters(alloc, corner),
        letters(alloc, cell),
    ) else {
        return false;
    };
    let text = format!(in alloc;
        "netlist = \"{netlist}\"\noutput = \"o\"\ncertificate = \"c\"\nperiod = 1\n[[corner]]\nname = \"{corner}\"\n[[type]]\nname = \"{cell}\"\nrole = \"comb\"\n"
    );
    match text {
        Ok(text) => answer(alloc, text.as_str()).is_some(),
        Err(_) => false,
    }
}

#[test]
fn names_have_greatest_lengths(rt: HostRuntime) {
    assert!(rt; may_have_lengths(rt.alloc(), 4096, 64, 4096));
    assert!(rt; !may_have_lengths(rt.alloc(), 4097, 64, 4096));
    assert!(rt; !may_have_lengths(rt.alloc(), 4096, 65, 4096));
    assert!(rt; !may_have_lengths(rt.alloc(), 4096, 64, 4097));
}

/// A list of so many cell types.
fn types(alloc: Global, count: u32) -> Result<String, AllocError> {
    let mut text = String::from_str(alloc, "type = [")?;
    for number in 0..count {
        let cell = format!(in alloc; "{{name=\"T{number}\",role=\"comb\"}},")?;
        text.push_str(cell.as_str())?;
    }
    text.push_str("]")?;
    Ok(text)
}

/// Whether a job may list so many cell types.
fn may_list(alloc: Global, count: u32) -> bool {
    match types(alloc, count) {
        Ok(lines) => answer_after_head(alloc, lines.as_str()).is_some(),
        Err(_) => false,
    }
}

#[test]
fn a_job_has_a_greatest_number_of_types(rt: HostRuntime) {
    assert!(rt; may_list(rt.alloc(), 4096));
    assert!(rt; !may_list(rt.alloc(), 4097));
}

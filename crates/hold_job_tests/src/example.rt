//! The base example's job, read whole, and what a job has where its keys are missing.

use crate::answer::job;
use hold_base::{Interval, List, Name};
use hold_job::Job;
use hold_roles::{CellType, Role};

const EXAMPLE: &[u8] = b"netlist = \"e.v\"
output = \"e_out.v\"
certificate = \"e.cert\"
period = 1000
max_chain = 4
arrival = [[0, 0]]
[[corner]]
name = \"typ\"
[[type]]
name = \"DFF\"
role = \"register\"
clock = \"C\"
data = [\"D\"]
outputs = [\"Q\"]
arcs = [{ from = \"C\", to = \"Q\", spans = [[100, 120]] }]
checks = [{ pin = \"D\", setup = [40], hold = [30] }]
[[type]]
name = \"INV\"
role = \"comb\"
inputs = [\"A\"]
outputs = [\"Y\"]
arcs = [{ from = \"A\", to = \"Y\", spans = [[50, 60]] }]
[[type]]
name = \"K1\"
role = \"comb\"
inputs = [\"A\"]
outputs = [\"Y\"]
[[type]]
name = \"K2\"
role = \"comb\"
inputs = [\"A\"]
outputs = [\"Y\"]
[[kind]]
type = \"K1\"
cost = 2
spans = [[50, 60]]
[[kind]]
type = \"K2\"
cost = 3
spans = [[100, 115]]
[[clock]]
inst = \"u3\"
arrivals = [[300, 300]]
";

/// Whether these are the names.
fn are(names: &List<Name>, texts: &[&[u8]]) -> bool {
    let names = names.as_slice();
    if names.len() != texts.len() {
        return false;
    }
    for (name, text) in names.iter().zip(texts) {
        if name.bytes() != *text {
            return false;
        }
    }
    true
}

/// Whether there is this one span.
fn is_span(spans: &List<Interval>, least: i64, greatest: i64) -> bool {
    match spans.as_slice() {
        [span] => span.least == least && span.greatest == greatest,
        _ => false,
    }
}

fn has_its_numbers(job: &Job) -> bool {
    job.period == 1000
        && job.max_chain == 4
        && job.nodes == 10_000
        && job.searchers == 1
        && job.order == 0
}

fn has_its_names(job: &Job) -> bool {
    job.netlist.bytes() == b"e.v".as_slice()
        && job.output.bytes() == b"e_out.v".as_slice()
        && job.certificate.bytes() == b"e.cert".as_slice()
        && job.plan.is_none()
}

fn is_flip_flop(cell: &CellType) -> bool {
    let Some(clock) = &cell.clock else {
        return false;
    };
    cell.role == Role::Register
        && clock.bytes() == b"C".as_slice()
        && are(&cell.inputs, &[b"D"])
        && are(&cell.quiet, &[])
        && are(&cell.outputs, &[b"Q"])
}

fn is_inverter(cell: &CellType) -> bool {
    cell.role == Role::Comb
        && cell.clock.is_none()
        && are(&cell.inputs, &[b"A"])
        && are(&cell.outputs, &[b"Y"])
}

fn has_its_types(job: &Job) -> bool {
    match job.library.types() {
        [flip_flop, inverter, first, second] => {
            is_flip_flop(flip_flop)
                && is_inverter(inverter)
                && first.name.bytes() == b"K1".as_slice()
                && second.name.bytes() == b"K2".as_slice()
        }
        _ => false,
    }
}

fn has_its_arcs(job: &Job) -> bool {
    match job.arcs.as_slice() {
        [first, second] => {
            first.kind.bytes() == b"DFF".as_slice()
                && first.from.bytes() == b"C".as_slice()
                && first.to.bytes() == b"Q".as_slice()
                && is_span(&first.spans, 100, 120)
                && second.kind.bytes() == b"INV".as_slice()
                && is_span(&second.spans, 50, 60)
        }
        _ => false,
    }
}

fn has_its_check(job: &Job) -> bool {
    match job.checks.as_slice() {
        [entry] => {
            entry.kind.bytes() == b"DFF".as_slice()
                && entry.pin.bytes() == b"D".as_slice()
                && entry.setup.as_slice() == [40].as_slice()
                && entry.hold.as_slice() == [30].as_slice()
        }
        _ => false,
    }
}

fn has_its_kinds(job: &Job) -> bool {
    match job.kinds.as_slice() {
        [first, second] => {
            first.cell.bytes() == b"K1".as_slice()
                && first.input.bytes() == b"A".as_slice()
                && first.output.bytes() == b"Y".as_slice()
                && first.cost == 2
                && is_span(&first.spans, 50, 60)
                && second.cell.bytes() == b"K2".as_slice()
                && second.cost == 3
                && is_span(&second.spans, 100, 115)
        }
        _ => false,
    }
}

fn has_its_arrivals(job: &Job) -> bool {
    let Some(arrival) = &job.arrival else {
        return false;
    };
    match job.clocks.as_slice() {
        [clock] => {
            is_span(arrival, 0, 0)
                && clock.inst.bytes() == b"u3".as_slice()
                && is_span(&clock.arrivals, 300, 300)
        }
        _ => false,
    }
}

#[test]
fn the_base_example_is_read_whole(rt: HostRuntime) {
    match job(rt.alloc(), EXAMPLE) {
        Ok(job) => {
            assert!(rt; has_its_names(&job));
            assert!(rt; has_its_numbers(&job));
            assert!(rt; job.corners.as_slice().len() == 1 && job.keeps.as_slice().is_empty());
            assert!(rt; has_its_types(&job));
            assert!(rt; has_its_arcs(&job));
            assert!(rt; has_its_check(&job));
            assert!(rt; has_its_kinds(&job));
            assert!(rt; has_its_arrivals(&job));
        }
        Err(_) => assert!(rt; false, "no job"),
    }
}

#[test]
fn keys_that_may_be_missing_have_their_defaults(rt: HostRuntime) {
    let least =
        b"netlist = \"n\"\noutput = \"o\"\ncertificate = \"c\"\nperiod = 10000000000\ncorner = [{ name = \"t\" }]";
    match job(rt.alloc(), least) {
        Ok(job) => {
            assert!(rt; job.period == 10_000_000_000 && job.max_chain == 4 && job.nodes == 10_000);
            assert!(rt;
                job.searchers == 1 && job.order == 0 && job.plan.is_none() && job.arrival.is_none()
            );
            assert!(rt; job.library.types().is_empty() && job.kinds.as_slice().is_empty());
            assert!(rt; job.clocks.as_slice().is_empty() && job.keeps.as_slice().is_empty());
        }
        Err(_) => assert!(rt; false, "no job"),
    }
}

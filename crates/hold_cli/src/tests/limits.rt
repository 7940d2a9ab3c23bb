//! Netlists and jobs just within and just past what they may have of each thing.

use super::outside::JOB_HEAD;
use super::{NETLIST, fails_at, run_over};
use crate::outcome::status;
use hold_base::{Memory, put_number};
use std::alloc::Global;
use std::process::Abort;
use std::test::Fail;

/// How many net bits, instances, pins and types are served.
const BITS: u32 = 2_097_152;

const INSTANCES: u32 = 262_144;

const PINS: u32 = 1_048_576;

const TYPES: u32 = 4096;

/// Room for the canonical text of each.
const ROOM: usize = 67_108_864;

/// A job with one type, which has four inputs.
const JOB: &[u8] =
    b"netlist = \"e.v\"\noutput = \"e_out.v\"\ncertificate = \"e.cert\"\nperiod = 1000\ncorner = [{ name = \"typ\" }]\ntype = [{ name = \"T\", role = \"comb\", inputs = [\"a\", \"b\", \"c\", \"d\"] }]\n";

/// A text that lists numbered things.
struct Listing {
    before: &'static [u8],
    /// What stands before each number and after it.
    lead: &'static [u8],
    after: &'static [u8],
    behind: &'static [u8],
}

static WIRES: Listing = Listing {
    before: b"module m; wire ",
    lead: b"n",
    after: b"",
    behind: b"; endmodule",
};

static GATES: Listing = Listing {
    before: b"module m; T ",
    lead: b"u",
    after: b"()",
    behind: b"; endmodule",
};

/// Instances with four pins each.
static OPEN_GATES: Listing = Listing {
    before: b"module m; T ",
    lead: b"u",
    after: b"(.a(), .b(), .c(), .d())",
    behind: b"; endmodule",
};

/// The same beside a port, which is a pin too.
static OPEN_GATES_AND_PORT: Listing = Listing {
    before: b"module m(input p); T ",
    lead: b"u",
    after: b"(.a(), .b(), .c(), .d())",
    behind: b"; endmodule",
};

static PORTS: Listing = Listing {
    before: b"module m(input ",
    lead: b"p",
    after: b"",
    behind: b"); endmodule",
};

static CELLS: Listing = Listing {
    before: b"type = [",
    lead: b"{name=\"T",
    after: b"\",role=\"comb\"}",
    behind: b"]",
};

/// The list of so many things, behind what the text begins with.
fn list_of(alloc: Global, begun: &[u8], listing: &Listing, count: u32) -> Result<Vec<u8>, Memory> {
    let mut text = Vec::from_slice(alloc, begun)?;
    text.extend_from_slice(listing.before)?;
    for number in 0..count {
        if number > 0 {
            text.extend_from_slice(b",")?;
        }
        text.extend_from_slice(listing.lead)?;
        put_number(&mut text, i64::from(number))?;
        text.extend_from_slice(listing.after)?;
    }
    text.extend_from_slice(listing.behind)?;
    Ok(text)
}

/// This line is said, and the run ends with this status.
pub(super) fn says(
    rt: &impl Abort,
    alloc: Global,
    job: &[u8],
    netlist: &[u8],
    wanted: u8,
    line: &[u8],
) -> Result<(), Fail> {
    let fails = fails_at(alloc, &[], &[], &[], &[])?;
    let ran = run_over(alloc, b"e.toml", job, netlist, ROOM, fails)?;
    assert_eq!(rt; status(&ran.outcome), wanted);
    assert_eq!(rt; ran.said.as_slice(), line);
    Ok(())
}

/// So many of something are served in a netlist.
fn serves(rt: &impl Abort, alloc: Global, listing: &Listing, count: u32) -> Result<(), Fail> {
    let netlist = list_of(alloc, b"", listing, count)?;
    says(rt, alloc, JOB, netlist.as_slice(), 0, b"repaired cost 0\n")
}

/// So many of something aren't.
fn refuses(rt: &impl Abort, alloc: Global, listing: &Listing, count: u32) -> Result<(), Fail> {
    let netlist = list_of(alloc, b"", listing, count)?;
    says(
        rt,
        alloc,
        JOB,
        netlist.as_slice(),
        3,
        b"input notbuilt e.v\n",
    )
}

/// A job lists so many types, and this is what is said.
fn says_of_types(
    rt: &impl Abort,
    alloc: Global,
    count: u32,
    wanted: u8,
    line: &[u8],
) -> Result<(), Fail> {
    let job = list_of(alloc, JOB_HEAD, &CELLS, count)?;
    says(rt, alloc, job.as_slice(), NETLIST, wanted, line)
}

/// One more of each thing than is served is refused.
pub(super) fn more_than_is_served_is_refused(rt: &impl Abort, alloc: Global) -> Result<(), Fail> {
    says_of_types(
        rt,
        alloc,
        TYPES.saturating_add(1),
        3,
        b"input notbuilt e.toml\n",
    )?;
    refuses(rt, alloc, &WIRES, BITS.saturating_add(1))?;
    refuses(rt, alloc, &GATES, INSTANCES.saturating_add(1))?;
    refuses(rt, alloc, &PORTS, PINS.saturating_add(1))?;
    refuses(rt, alloc, &OPEN_GATES_AND_PORT, PINS / 4)
}

// Each of these takes seconds, so each is a test of its own.

#[test]
fn a_job_has_its_most_types(rt: HostRuntime) -> Result<(), Fail> {
    says_of_types(&rt, rt.alloc(), TYPES, 0, b"repaired cost 0\n")
}

#[test]
fn a_netlist_has_its_most_net_bits(rt: HostRuntime) -> Result<(), Fail> {
    serves(&rt, rt.alloc(), &WIRES, BITS)
}

#[test]
fn a_netlist_has_its_most_instances(rt: HostRuntime) -> Result<(), Fail> {
    serves(&rt, rt.alloc(), &GATES, INSTANCES)
}

#[test]
fn a_netlist_has_its_most_pins_at_ports(rt: HostRuntime) -> Result<(), Fail> {
    serves(&rt, rt.alloc(), &PORTS, PINS)
}

#[test]
fn a_netlist_has_its_most_pins_at_instances(rt: HostRuntime) -> Result<(), Fail> {
    serves(&rt, rt.alloc(), &OPEN_GATES, PINS / 4)
}

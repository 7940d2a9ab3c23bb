//! Files of the greatest length, and of one byte more.

use super::limits::says;
use super::{JOB, NETLIST};
use hold_base::Memory;
use std::alloc::Global;
use std::test::Fail;

/// How many bytes a job or a netlist may have.
const LENGTH: usize = 67_108_864;

/// So many line ends.
fn line_ends(alloc: Global, count: usize) -> Result<Vec<u8>, Memory> {
    let mut text = Vec::new(alloc);
    text.resize(count, b'\n')?;
    Ok(text)
}

#[test]
fn a_job_has_a_greatest_length(rt: HostRuntime) -> Result<(), Fail> {
    let alloc = rt.alloc();
    let past = line_ends(alloc, LENGTH + 1)?;
    let line = b"input toolong e.toml\n".as_slice();
    says(&rt, alloc, past.as_slice(), NETLIST, 3, line)
}

#[test]
fn a_netlist_has_a_greatest_length(rt: HostRuntime) -> Result<(), Fail> {
    let alloc = rt.alloc();
    let within = line_ends(alloc, LENGTH)?;
    let line = b"input verilog syntax 67108864\n".as_slice();
    says(&rt, alloc, JOB, within.as_slice(), 3, line)?;
    let past = line_ends(alloc, LENGTH + 1)?;
    let line = b"input toolong e.v\n".as_slice();
    says(&rt, alloc, JOB, past.as_slice(), 3, line)
}

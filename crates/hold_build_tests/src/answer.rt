//! What is answered of a netlist and a job.

use crate::lists::{Lists, are_listed};
use hold_base::{Memory, Name, Stop, What};
use hold_build::{BuildFault, build, parts};
use hold_graph::{Cycle, Graph, Parts};
use hold_job::Job;
use hold_roles::{Bound, bind};
use std::alloc::Global;

/// What `build` answers. `parts` answers the same, but lists also where the arcs have a cycle.
#[derive(Clone, Copy)]
pub(crate) enum Answer {
    Lists(Lists),
    Unknown(&'static [u8]),
    Limit(What),
    Cycle(&'static [u32]),
}

/// The types of cells of each job.
const TYPES: &[u8] = b"
type = [
{ name = \"DFF\", role = \"register\", clock = \"C\", data = [\"D\", \"E\"], quiet = [\"R\"], outputs = [\"Q\", \"QN\"] },
{ name = \"INV\", role = \"comb\", inputs = [\"A\"], outputs = [\"Y\"] },
{ name = \"NAND2\", role = \"comb\", inputs = [\"A\", \"B\"], outputs = [\"Y\"] },
{ name = \"HA\", role = \"comb\", inputs = [\"A\", \"B\"], outputs = [\"S\", \"CO\"] },
{ name = \"TIE\", role = \"comb\", outputs = [\"Y\"] },
{ name = \"LAT\", role = \"opaque\", inputs = [\"G\", \"D\"], outputs = [\"Q\"] },
]
";

/// The text of a job with these types and these further lines.
fn job_text(alloc: Global, types: &[u8], lines: &[u8]) -> Result<Vec<u8>, Memory> {
    let mut text = Vec::from_slice(
        alloc,
        b"netlist = \"e.v\"\noutput = \"e_out.v\"\ncertificate = \"e.cert\"\nperiod = 1000\ncorner = [{ name = \"typ\" }]\n",
    )?;
    text.extend_from_slice(types)?;
    text.extend_from_slice(lines)?;
    Ok(text)
}

fn job(alloc: Global, types: &[u8], lines: &[u8]) -> Option<Job> {
    let Ok(text) = job_text(alloc, types, lines) else {
        return None;
    };
    let Ok(own) = Name::from_bytes(alloc, b"e.toml") else {
        return None;
    };
    hold_job::read(alloc, text.as_slice(), &own).ok()
}

fn bound(alloc: Global, netlist: &[u8], job: &Job) -> Option<Bound> {
    match hold_vparse::read(alloc, netlist) {
        Ok(netlist) => bind(alloc, netlist, &job.library).ok(),
        Err(_) => None,
    }
}

/// Whether this fault is the answer.
fn is_fault(fault: &BuildFault, answer: Answer) -> bool {
    match (fault, answer) {
        (BuildFault::Unknown(path), Answer::Unknown(text)) => path.bytes() == text,
        (BuildFault::Limit(found), Answer::Limit(what)) => *found == what,
        (BuildFault::Cycle(Cycle { pins }), Answer::Cycle(numbers)) => pins
            .as_slice()
            .iter()
            .map(|pin| pin.0)
            .eq(numbers.iter().copied()),
        _ => false,
    }
}

/// Whether `build` answers so.
fn is_built(built: &Result<Graph, Stop<BuildFault>>, answer: Answer) -> bool {
    match (built, answer) {
        (Ok(graph), Answer::Lists(lists)) => are_listed(graph.parts(), lists),
        (Err(Stop::Fault(fault)), answer) => is_fault(fault, answer),
        _ => false,
    }
}

/// Whether `parts` answers so.
fn is_told(told: &Result<Parts, Stop<BuildFault>>, answer: Answer) -> bool {
    match (told, answer) {
        (Ok(parts), Answer::Lists(lists)) => are_listed(parts, lists),
        (Ok(_), Answer::Cycle(_)) => true,
        (Err(Stop::Fault(BuildFault::Cycle(_))), _) => false,
        (Err(Stop::Fault(fault)), answer) => is_fault(fault, answer),
        _ => false,
    }
}

/// The graph of the netlist and of a job with these further lines, as `build` gives it.
pub(crate) fn graph(alloc: Global, netlist: &[u8], lines: &[u8]) -> Option<Graph> {
    let Some(job) = job(alloc, TYPES, lines) else {
        return None;
    };
    match bound(alloc, netlist, &job) {
        Some(bound) => build(alloc, &bound, &job).ok(),
        None => None,
    }
}

/// Whether the netlist is answered so, with a job of these types and further lines.
pub(crate) fn is_answered_of(
    alloc: Global,
    netlist: &[u8],
    (types, lines): (&[u8], &[u8]),
    answer: Answer,
) -> bool {
    let Some(job) = job(alloc, types, lines) else {
        return false;
    };
    match bound(alloc, netlist, &job) {
        Some(bound) => {
            is_built(&build(alloc, &bound, &job), answer)
                && is_told(&parts(alloc, &bound, &job), answer)
        }
        None => false,
    }
}

/// Whether the netlist is answered so, with a job of the types above and these further lines.
pub(crate) fn is_answered(alloc: Global, netlist: &[u8], lines: &[u8], answer: Answer) -> bool {
    is_answered_of(alloc, netlist, (TYPES, lines), answer)
}

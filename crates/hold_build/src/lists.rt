ghost use Rattle.std.specs.Prelude.{◌≤◌, Err, IfOk, OnOk, length};
ghost use Rattle.hold_base.specs.Answers.{Answers, IfFault};
ghost use Rattle.hold_base.specs.Limits.{arcs_limit};
ghost use Rattle.hold_build.specs.declared.fault.BuildFault.{BuildFault};
ghost use Rattle.hold_build.specs.Faults.{CanBeListed, IsListFault};
ghost use Rattle.hold_build.specs.NetlistGraph.{IsGraphOf};

use crate::arcs::arcs;
use crate::counts::pin_count;
use crate::entries::keeps;
use crate::fault::BuildFault;
use crate::register_pins::register_pins;
use crate::sort::Sort;
use hold_base::{List, Stop};
use hold_graph::Parts;
use hold_job::Job;
use hold_roles::Bound;
use std::alloc::Global;

/// What the graph of a netlist and a job is made of.
pub(crate) fn listed(alloc: Global, bound: &Bound, job: &Job) -> Result<Parts, Stop<BuildFault>>
    ensures made { IfOk result (IsGraphOf bound.now job.now) }
    ensures few { IfOk result (λ parts. length parts.arcs ≤ arcs_limit) }
    ensures sound { OnOk result (CanBeListed bound.now job.now) }
    ensures fault { IfFault result (IsListFault bound.now job.now) }
{
    let keeps = keeps(alloc, bound, job)?;
    let arcs = arcs(alloc, bound)?;
    let launches = register_pins(alloc, bound, Sort::Output)?;
    let captures = register_pins(alloc, bound, Sort::Data)?;
    let clocks = register_pins(alloc, bound, Sort::Clock)?;
    Ok(Parts {
        pins: pin_count(bound.netlist()),
        arcs: List::from_vec(arcs),
        launches: List::from_vec(launches),
        captures: List::from_vec(captures),
        clocks: List::from_vec(clocks),
        keeps: List::from_vec(keeps),
    })
}

/// The lists that the timing graph of a netlist and a job is made of, whether or not its arcs have a cycle. Of the job only its
/// `clock` and `keep` entries play a part. Refused for the first entry that names no register or no connection, else where the arcs
/// pass 2^22.
pub fn parts(alloc: Global, bound: &Bound, job: &Job) -> Result<Parts, Stop<BuildFault>>
    ensures made { IfOk result (IsGraphOf bound.now job.now) }
    ensures sound { OnOk result (CanBeListed bound.now job.now) }
    ensures fault { IfFault result (IsListFault bound.now job.now) }
    ensures listed { CanBeListed bound.now job.now → IfFault result (λ fault. ⊥) }
    ensures refused { (fault : BuildFault) → IsListFault bound.now job.now fault → Answers result (Err fault) }
{
    listed(alloc, bound, job)
}

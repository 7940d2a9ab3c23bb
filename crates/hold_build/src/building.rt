ghost use Rattle.std.specs.Prelude.{Err, IfOk, OnOk};
ghost use Rattle.hold_base.specs.Answers.{Answers, IfFault};
ghost use Rattle.hold_graph.specs.declared.cycle.Cycle.{Cycle};
ghost use Rattle.hold_build.specs.declared.fault.BuildFault.{BuildFault};
ghost use Rattle.hold_build.specs.Faults.{HasNoFault, IsCycleFault, IsFault, IsListFault, IsOnCycle};
ghost use Rattle.hold_build.specs.NetlistGraph.{IsGraphOf};

use crate::fault::BuildFault;
use crate::lists::listed;
use hold_base::Stop;
use hold_graph::Graph;
use hold_job::Job;
use hold_roles::Bound;
use std::alloc::Global;

/// The graph of a netlist and a job.
fn built(alloc: Global, bound: &Bound, job: &Job) -> Result<Graph, Stop<BuildFault>>
    ensures made { IfOk result (IsGraphOf bound.now job.now) }
    ensures sound { OnOk result (HasNoFault bound.now job.now) }
    ensures fault { IfFault result (IsFault bound.now job.now) }
{
    bound.netlist().know_valid();
    let parts = listed(alloc, bound, job)?;
    match Graph::make(alloc, parts) {
        Ok(graph) => Ok(graph),
        Err(Stop::Memory) => Err(Stop::Memory),
        Err(Stop::Fault(cycle)) => Err(Stop::Fault(BuildFault::Cycle(cycle))),
    }
}

/// The timing graph of a netlist and a job: its arcs, launches, captures and clock pins, and the pins that the job keeps. Refused as
/// `parts` is, else for a cycle of the arcs.
pub fn build(alloc: Global, bound: &Bound, job: &Job) -> Result<Graph, Stop<BuildFault>>
    ensures made { IfOk result (IsGraphOf bound.now job.now) }
    ensures sound { OnOk result (HasNoFault bound.now job.now) }
    ensures fault { IfFault result (IsFault bound.now job.now) }
    ensures built { HasNoFault bound.now job.now → IfFault result (λ fault. ⊥) }
    ensures refused { (fault : BuildFault) → IsListFault bound.now job.now fault → Answers result (Err fault) }
    ensures cyclic { (cycle : Cycle) → IsCycleFault bound.now job.now cycle → OnOk result ⊥ × IfFault result IsOnCycle }
{
    built(alloc, bound, job)
}

ghost use Rattle.std.specs.Prelude.{◌≡◌, ◌≤◌, IfOk, length};
ghost use Rattle.hold_base.specs.Answers.{IfFault};
ghost use Rattle.hold_base.specs.Limits.{arcs_limit};
ghost use Rattle.hold_base.specs.declared.stop.What.{What};
ghost use Rattle.hold_build.specs.declared.fault.BuildFault.{BuildFault};
ghost use Rattle.hold_build.specs.Arcs.{IsArc};
ghost use Rattle.hold_build.specs.Faults.{HasTooManyArcs};
ghost use Rattle.hold_build.specs.Listing.{ListsEach};

use crate::cell_arcs::{inst_count, put_inst_arcs};
use crate::fault::BuildFault;
use crate::sinks::sinks;
use crate::wire_arcs::wire_arcs;
use hold_base::{Stop, What};
use hold_graph::Arc;
use hold_roles::Bound;
use std::alloc::Global;

/// The arcs of the netlist, unless they are too many. Those through cells are counted before they are made.
pub(crate) fn arcs(alloc: Global, bound: &Bound) -> Result<Vec<Arc>, Stop<BuildFault>>
    ensures each { IfOk result (λ arcs. ListsEach (IsArc bound.now) arcs.items) }
    ensures few { IfOk result (λ arcs. length arcs.items ≤ arcs_limit) }
    ensures fault { IfFault result (λ fault. (fault ≡ BuildFault.Limit What.Arcs) × HasTooManyArcs bound.now) }
{
    bound.netlist().know_valid();
    let sinks = sinks(alloc, bound)?;
    let mut arcs = wire_arcs(alloc, bound, &sinks)?;
    let Some(count) = inst_count(bound, arcs.len()) else {
        return Err(Stop::Fault(BuildFault::Limit(What::Arcs)));
    };
    arcs.reserve_exact(count)?;
    put_inst_arcs(alloc, &mut arcs, bound)?;
    Ok(arcs)
}

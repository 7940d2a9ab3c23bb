ghost use Rattle.std.specs.Prelude.{◌≡◌, ◌↔◌, ◌≤◌, ◌^◌, length, All, IsTrue, IfOk, IfSome, IfNone};
ghost use Rattle.hold_base.specs.Limits.{bound_bits_limit, bound_insts_limit};
ghost use Rattle.hold_graph.specs.Graph.{EndsOnce};
ghost use Rattle.hold_graph.specs.Problem.{IsValid};
ghost use Rattle.hold_plain.specs.inner.Limits.{IsTimed};
ghost use Rattle.hold_plain.specs.Limits.{KeepsLimits};
ghost use Rattle.hold_plain.specs.Served.{IsScalar, IsServed, IsServedUses};
ghost use Rattle.hold_plain.specs.inner.Served.{IsUseWithin};
ghost use Rattle.hold_plain.specs.Problem.{problem_of, problem_with};

use crate::known::known_uses;
use crate::lists::problem_with;
use crate::pin_use::PinUse;
use crate::served::served_places;
use crate::timing::Timing;
use hold_base::{Memory, limits};
use hold_graph::Problem;
use hold_netlist::Netlist;
use std::alloc::Global;

/// Whether there are no more net bits and instances than are served.
fn is_within_counts(netlist: &Netlist) -> bool
    ensures { IsTrue result ↔ (length netlist.now.wires ≤ bound_bits_limit) × (length netlist.now.insts ≤ bound_insts_limit) }
{
    netlist.wires().len() as u64 <= limits::BOUND_BITS
        && netlist.insts().len() as u64 <= limits::BOUND_INSTANCES
}

/// The timing problem of these pins, None exactly where they aren't served.
fn problem_of_uses(
    alloc: Global,
    timing: &Timing,
    netlist: &Netlist,
    uses: &[PinUse],
) -> Result<Option<Problem>, Memory>
    requires limits { KeepsLimits timing.now }
    requires timed { All IsTimed uses.now }
    requires within { All (IsUseWithin (length netlist.now.wires) (length netlist.now.insts)) uses.now }
    requires insts { length netlist.now.insts ≤ bound_insts_limit }
    ensures served { IfOk result (λ found. IfSome found (λ problem. IsServedUses uses.now)) }
    ensures is { IfOk result (λ found. IfSome found (λ problem. problem ≡ problem_with timing.now.period uses.now)) }
    ensures valid { IfOk result (λ found. IfSome found (λ problem. IsValid problem)) }
    ensures once { IfOk result (λ found. IfSome found (λ problem. EndsOnce problem.graph.arcs)) }
    ensures none { IfOk result (λ found. IfNone found (IsServedUses uses.now → ⊥)) }
{
    let nets = netlist.wires().len();
    let insts = netlist.insts().len();
    match served_places(alloc, nets, insts, uses)? {
        None => Ok(None),
        Some(places) => {
            let drivers = places.drivers.as_slice();
            let feeders = places.feeders.as_slice();
            let problem = problem_with(alloc, timing.period, uses, drivers, feeders)?;
            Ok(Some(problem))
        }
    }
}

/// The timing problem of a netlist, None exactly where the netlist isn't served.
pub fn problem(alloc: Global, timing: &Timing, netlist: &Netlist) -> Result<Option<Problem>, Memory>
    requires limits { KeepsLimits timing.now }
    requires scalar { IsScalar netlist.now }
    ensures served { IfOk result (λ found. IfSome found (λ problem. IsServed timing.now netlist.now)) }
    ensures is { IfOk result (λ found. IfSome found (λ problem. problem ≡ problem_of timing.now netlist.now)) }
    ensures valid { IfOk result (λ found. IfSome found (λ problem. IsValid problem)) }
    ensures once { IfOk result (λ found. IfSome found (λ problem. EndsOnce problem.graph.arcs)) }
    ensures none { IfOk result (λ found. IfNone found (IsServed timing.now netlist.now → ⊥)) }
{
    if !is_within_counts(netlist) {
        return Ok(None);
    }
    match known_uses(alloc, timing, netlist)? {
        None => Ok(None),
        Some(uses) => problem_of_uses(alloc, timing, netlist, uses.as_slice()),
    }
}

//! Counts, and what arrivals tell.

ghost use Rattle.std.specs.Prelude.{◌≡◌, ◌<◌, IfOk, length};
ghost use Rattle.hold_graph.specs.Problem.{IsValid};
ghost use Rattle.hold_graph.specs.Sites.{AreCountsOf};
ghost use Rattle.hold_timing.specs.Arrivals.{AreArrivals};

use hold_base::{CornerNo, Memory, PinNo, Side, VarNo};
use hold_graph::{Counts, Problem};
use hold_timing::{Arrivals, End};
use std::alloc::Global;

/// Sets a count, where the variable is there and the count isn't above 16.
fn set(counts: &mut Counts, var: u32, count: u8)
    ensures { length counts.new ≡ length counts.old }
{
    if count <= 16 && (var as usize) < counts.as_slice().len() {
        counts.set(VarNo(var), count);
    }
}

/// Counts of a problem, by variable: these, and 0 of the rest.
#[tactic(auto, using(crate::proofs::Counted::no_counts, crate::proofs::Counted::as_many))]
pub(crate) fn counts_of(alloc: Global, problem: &Problem, listed: &[u8]) -> Result<Counts, Memory>
    requires { IsValid problem.now }
    ensures { IfOk result (AreCountsOf problem.now) }
{
    let mut counts = Counts::empty(alloc, problem)?;
    let mut var = 0u32;
    for count in listed {
        set(&mut counts, var, *count);
        var = var.saturating_add(1);
    }
    Ok(counts)
}

/// The arrivals for these counts.
pub(crate) fn arrivals_of(
    alloc: Global,
    problem: &Problem,
    listed: &[u8],
) -> Result<Arrivals, Memory>
    requires { IsValid problem.now }
    ensures { IfOk result (AreArrivals problem.now) }
{
    let counts = counts_of(alloc, problem, listed)?;
    Arrivals::make(alloc, problem, &counts)
}

/// The pin and the slack of the worst end, none where there is none or the problem hasn't that corner.
pub(crate) fn worst(
    problem: &Problem,
    arrivals: &Arrivals,
    corner: u8,
    side: Side,
) -> Option<(u32, i64)>
    requires valid { IsValid problem.now }
    requires arrivals { AreArrivals problem.now arrivals.now }
{
    if corner as usize >= problem.corners.as_slice().len() {
        return None;
    }
    match arrivals.worst(problem, CornerNo(corner), side) {
        Some(end) => Some((end.capture.0, end.slack)),
        None => None,
    }
}

/// A worst end, and a path to it.
#[derive(Drop)]
pub(crate) struct Found {
    pub end: End,
    pub path: Vec<PinNo>,
}

/// The worst end of a side of a corner and a path to it.
pub(crate) fn worst_path(
    alloc: Global,
    problem: &Problem,
    arrivals: &Arrivals,
    corner: CornerNo,
    side: Side,
) -> Result<Option<Found>, Memory>
    requires valid { IsValid problem.now }
    requires arrivals { AreArrivals problem.now arrivals.now }
    requires corner { corner.0 < length problem.now.corners }
{
    // by the list of sites a proof learns that some checked path ends there
    let _sites = problem.graph.sites();
    match arrivals.worst(problem, corner, side) {
        Some(end) => {
            let path = arrivals.path_to(alloc, problem, corner, side, end.capture)?;
            Ok(Some(Found { end, path }))
        }
        None => Ok(None),
    }
}

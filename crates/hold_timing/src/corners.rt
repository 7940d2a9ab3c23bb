ghost use Rattle.std.specs.Prelude.{◌≡◌, ◌≤◌, length, All, IfOk, ℕ};
ghost use Rattle.hold_base.specs.Limits.{chain_limit};
ghost use Rattle.hold_graph.specs.Problem.{IsValid};
ghost use Rattle.hold_graph.specs.Sites.{AreCountsOf};
ghost use Rattle.hold_timing.specs.Arrivals.{AreSideTimes};
ghost use Rattle.hold_timing.specs.inner.Search.{AreRoomFor};

use crate::times::SideTimes;
use hold_base::{Memory, Side};
use hold_graph::Problem;
use std::alloc::Global;

/// By corner, the times of that side for these counts.
pub(crate) fn side_times(
    alloc: Global,
    problem: &Problem,
    side: Side,
    counts: &[u8],
) -> Result<Vec<SideTimes>, Memory>
    requires valid { IsValid problem.now }
    requires counts { AreCountsOf problem.now counts.now }
    requires most { All (λ count. count ≤ chain_limit) counts.now }
    ensures { IfOk result (λ all. AreSideTimes side problem.now counts.now all.items) }
{
    let mut all = Vec::new(alloc);
    for spans in problem.corners.as_slice() {
        all.push(SideTimes::make(alloc, problem, spans, side, counts)?)?;
    }
    Ok(all)
}

/// Puts the arrivals for other counts in the place of these, corner by corner.
pub(crate) fn refresh_side(all: &mut Vec<SideTimes>, problem: &Problem, side: Side, counts: &[u8])
    requires valid { IsValid problem.now }
    requires counts { AreCountsOf problem.now counts.now }
    requires most { All (λ count. count ≤ chain_limit) counts.now }
    requires room { AreRoomFor side problem.now all.old.items }
    ensures { AreSideTimes side problem.now counts.now all.new.items }
{
    for (corner, spans) in problem.corners.as_slice().iter().enumerate() {
        all[corner].refresh(problem, spans, side, counts);
    }
}

/// Puts these counts in the place of others.
pub(crate) fn put_counts(kept: &mut Vec<u8>, counts: &[u8])
    requires { length kept.old.items ≡ length counts.now }
    ensures { kept.new.items ≡ counts.now }
{
    kept.as_mut_slice().copy_from_slice(counts);
}

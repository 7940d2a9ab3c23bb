ghost use Rattle.std.specs.Prelude.{◌≡◌, ℕ, ◌^◌, ◌<◌, ◌≤◌, length, IfOk, All, Some};
ghost use Rattle.hold_graph.specs.Problem.{IsWithin};
ghost use Rattle.hold_base.specs.Limits.{launch_limit};
ghost use Rattle.hold_graph.specs.inner.Arrival.{extended, offer, sum_limit, AreWithin, IsRight};
ghost use Rattle.hold_graph.specs.inner.Ordered.{IsInOrder};

use crate::graph::Arc;
use crate::line::Ordered;
use crate::table::lesser;
use hold_base::Memory;
use std::alloc::Global;

/// A sum with one more step, none where there is none.
fn extended(sum: Option<i64>, step: i64) -> Option<i64>
    requires sum { (s : _) → sum ≡ Some s → IsWithin sum_limit s }
    requires step { IsWithin launch_limit step }
    ensures { result ≡ extended sum step }
{
    match sum {
        Some(sum) => Some(sum + step),
        None => None,
    }
}

/// What the arc at that place brings to the pin that it ends at.
pub(crate) fn offer(
    arcs: &[Arc],
    steps: &[i64],
    best: &[Option<i64>],
    place: Option<usize>,
) -> Option<i64>
    requires place { (k : ℕ) → place ≡ Some k → k < length arcs.now }
    requires each { length steps.now ≡ length arcs.now }
    requires from { All (λ arc. arc.from.0 < length best.now) arcs.now }
    requires steps { All (IsWithin launch_limit) steps.now }
    requires best { AreWithin sum_limit best.now }
    ensures { result ≡ offer arcs.now steps.now best.now place }
{
    match place {
        Some(place) => extended(best[arcs[place].from.0 as usize], steps[place]),
        None => None,
    }
}

/// By pin, the least sum of a walk from a start to it. A pin's own start counts, and so does a walk to
/// the pin before it with one more step. Each pin comes after the one that its arc leads from.
pub(crate) fn arrivals(
    alloc: Global,
    line: &Ordered<'_>,
    steps: &[i64],
    starts: &[Option<i64>],
) -> Result<Vec<Option<i64>>, Memory>
    requires line { IsInOrder line.now }
    requires few { line.now.pins ≤ 2 ^ 20 }
    requires each { length steps.now ≡ length line.now.arcs.now }
    requires steps { All (IsWithin launch_limit) steps.now }
    requires starts_each { length starts.now ≡ line.now.pins }
    requires starts { AreWithin launch_limit starts.now }
    ensures len { IfOk result (λ best. length best.items ≡ line.now.pins) }
    ensures within { IfOk result (λ best. AreWithin sum_limit best.items) }
    ensures right { IfOk result (λ best. (pin : ℕ) → pin < line.now.pins →
        IsRight line.now.arcs.now steps.now starts.now line.now.into.now best.items pin) }
{
    let mut best = Vec::from_slice(alloc, starts)?;
    for pin in line.order {
        let at = pin.0 as usize;
        best[at] = lesser(
            starts[at],
            offer(line.arcs, steps, best.as_slice(), line.into[at]),
        );
    }
    Ok(best)
}

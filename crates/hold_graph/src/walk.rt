ghost use Rattle.std.specs.Prelude.{◌≡◌, ℕ, ◌<◌, ◌≤◌, length, slice_index_or, IfOk, IsSome, Some, None, ℤ};
ghost use Rattle.hold_base.specs.declared.time.Side.{Side};
ghost use Rattle.hold_graph.specs.declared.problem.Spans.{Spans as CornerSpans};
ghost use Rattle.hold_graph.specs.inner.Arrival.{coming, CameBy, IsFound, IsSettled};
ghost use Rattle.hold_graph.specs.inner.Ordered.{IsInOrder};

use crate::line::Ordered;
use hold_base::{Memory, PinNo};
use std::alloc::Global;

/// The arc along which a least walk came to a pin, none where the walk begins there.
fn came_by(best: Option<i64>, own: Option<i64>, place: Option<usize>) -> Option<usize>
    ensures { CameBy best own place result }
{
    if best == own { None } else { place }
}

/// A path to the capture whose sum is what comes there, found by going back from it arc by arc.
pub(crate) fn path_to(
    alloc: Global,
    line: &Ordered<'_>,
    starts: &[Option<i64>],
    best: &[Option<i64>],
    capture: PinNo,
) -> Result<Vec<PinNo>, Memory>
    requires line { IsInOrder line.now }
    requires capture { capture.0 < line.now.pins }
    requires starts_each { length starts.now ≡ line.now.pins }
    requires best_each { length best.now ≡ line.now.pins }
    ensures found { IfOk result (λ path. (side : Side) (spans : CornerSpans) (sum : ℤ) →
        IsSettled side line.now.pins line.now.arcs.now spans starts.now line.now.into.now best.now →
        coming side line.now.arcs.now spans line.now.into.now best.now capture ≡ Some sum →
        IsFound side line.now.arcs.now spans starts.now path.items capture sum) }
{
    let mut path = Vec::new(alloc);
    let mut pin = capture;
    let mut by = line.into[capture.0 as usize];
    while let Some(place) = by {
        path.push(pin)?;
        pin = line.arcs[place].from;
        let at = pin.0 as usize;
        by = came_by(best[at], starts[at], line.into[at]);
    }
    path.push(pin)?;
    path.reverse();
    Ok(path)
}

ghost use Rattle.std.specs.Prelude.{◌≡◌, ℕ, ◌<◌, [], length, IfOk, All, slice_index_or, reverse};
ghost use Rattle.hold_graph.specs.Graph.{AreBelow};
ghost use Rattle.hold_graph.specs.Cycles.{AreDifferent};
ghost use Rattle.hold_graph.specs.inner.Adjacency.{pin_at};
ghost use Rattle.hold_graph.specs.inner.Marks.{AreFlags, any_marked, AreMarked, StandsAhead};

use crate::adjacency::{Adjacency, End, pin_at};
use crate::graph::Arc;
use hold_base::{Memory, PinNo};
use std::alloc::Global;

/// By pin, whether it is listed.
pub(crate) fn flags_of(alloc: Global, pins: u32, listed: &[PinNo]) -> Result<Vec<bool>, Memory>
    requires { AreBelow pins listed.now }
    ensures { IfOk result (λ flags. AreFlags pins listed.now flags.items) }
{
    let mut flags = vec![in alloc; false; pins as usize]?;
    for pin in listed {
        flags[pin.0 as usize] = true;
    }
    Ok(flags)
}

/// The pins in the order against the given one.
pub(crate) fn reversed(alloc: Global, order: &[PinNo]) -> Result<Vec<PinNo>, Memory>
    ensures { IfOk result (λ back. back.items ≡ reverse order.now) }
{
    let mut back = Vec::from_slice(alloc, order)?;
    back.reverse();
    Ok(back)
}

/// Whether some arc at these places has a marked pin at that end.
fn any_marked(marks: &[bool], far: End, arcs: &[Arc], places: &[u32]) -> bool
    requires places { All (λ place. place < length arcs.now) places.now }
    requires ends { All (λ arc. (pin_at far arc).0 < length marks.now) arcs.now }
    ensures { result ≡ any_marked marks.now far arcs.now places.now }
{
    for place in places {
        if marks[pin_at(far, &arcs[*place as usize]).0 as usize] {
            return true;
        }
    }
    false
}

/// By pin, whether it is a seed, or an arc of its row has a marked pin at that end. Of each pin, the pins at those ends stand
/// before it in the order.
pub(crate) fn spread(
    alloc: Global,
    order: &[PinNo],
    arcs: &[Arc],
    rows: &Adjacency,
    far: End,
    seeds: &[bool],
) -> Result<Vec<bool>, Memory>
    requires each { length rows.now ≡ length seeds.now }
    requires order { AreBelow (length seeds.now) order.now }
    requires different { AreDifferent order.now }
    requires ahead { StandsAhead far arcs.now rows.now order.now }
    requires places { (pin : ℕ) → pin < length rows.now → All (λ place. place < length arcs.now) (slice_index_or rows.now pin []) }
    requires ends { All (λ arc. (pin_at far arc).0 < length seeds.now) arcs.now }
    ensures { IfOk result (λ marks. AreMarked far arcs.now rows.now seeds.now order.now marks.items) }
{
    let mut marks = Vec::from_slice(alloc, seeds)?;
    for pin in order {
        let at = pin.0 as usize;
        marks[at] = seeds[at] || any_marked(marks.as_slice(), far, arcs, rows.at(*pin));
    }
    Ok(marks)
}

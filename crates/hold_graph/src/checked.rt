ghost use Rattle.std.specs.Prelude.{◌≡◌, ◌<◌, ◌↔◌, ◌&&◌, false, IsTrue, length, All, Contains, slice_index_or};
ghost use Rattle.hold_graph.specs.Adjacency.{places_into};
ghost use Rattle.hold_graph.specs.Path.{EachNext, HasArc};
ghost use Rattle.hold_graph.specs.inner.Adjacency.{AreRows};

use crate::adjacency::Adjacency;
use crate::graph::Arc;
use hold_base::PinNo;

/// Whether the flag of the pin is set, false for a pin past the flags.
pub(crate) fn is_flagged(flags: &[bool], pin: PinNo) -> bool
    ensures { result ≡ slice_index_or flags.now pin.0 false }
{
    match flags.get(pin.0 as usize) {
        Some(flag) => *flag,
        None => false,
    }
}

/// Whether an arc leads from the one pin to the other.
fn has_arc(arcs: &[Arc], incoming: &Adjacency, from: PinNo, to: PinNo) -> bool
    requires rows { AreRows (length incoming.now) (places_into arcs.now) incoming.now }
    requires ends { All (λ arc. arc.to.0 < length incoming.now) arcs.now }
    ensures { IsTrue result ↔ HasArc arcs.now from to }
{
    if to.0 as usize >= incoming.len() {
        return false;
    }
    for place in incoming.at(to) {
        if arcs[*place as usize].from == from {
            return true;
        }
    }
    false
}

/// Whether each of these pins is next by an arc to the one before it, and the first of them to `first`.
pub(crate) fn each_next(arcs: &[Arc], incoming: &Adjacency, first: PinNo, rest: &[PinNo]) -> bool
    requires rows { AreRows (length incoming.now) (places_into arcs.now) incoming.now }
    requires ends { All (λ arc. arc.to.0 < length incoming.now) arcs.now }
    ensures { IsTrue result ↔ EachNext arcs.now first rest.now }
{
    let mut last = first;
    for pin in rest {
        if !has_arc(arcs, incoming, last, *pin) {
            return false;
        }
        last = *pin;
    }
    true
}

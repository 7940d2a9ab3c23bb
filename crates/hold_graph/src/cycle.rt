ghost use Rattle.std.specs.Prelude.{◌≡◌, ℕ, ◌<◌, ◌≤◌, length, drop, reverse, slice_index, IfOk, All, Contains};
ghost use Rattle.hold_graph.specs.Adjacency.{places_into};
ghost use Rattle.hold_graph.specs.Cycles.{AreDifferent, GoesRound, IsCycle};
ghost use Rattle.hold_graph.specs.inner.Adjacency.{AreRows};
ghost use Rattle.hold_graph.specs.inner.Waiting.{arc_at};
ghost use Rattle.hold_graph.specs.inner.Trail.{number_at, AreHeldUp, IsBegin};

use crate::adjacency::Adjacency;
use crate::graph::Arc;
use hold_base::{List, Memory, PinNo};
use std::alloc::Global;

/// Pins that arcs lead round: from each to the next, and from the last to the first. They are all
/// different, and the first has the least number.
#[derive(Clone, Debug, Drop, PartialEq, Eq)]
pub struct Cycle {
    pub pins: List<PinNo>,
}

/// The cycle that is met when one walks from this pin against the arcs, by pins whose count isn't 0.
pub(crate) fn cycle_behind(
    alloc: Global,
    arcs: &[Arc],
    incoming: &Adjacency,
    counts: &[u32],
    pin: PinNo,
) -> Result<Cycle, Memory>
    requires begins { All (λ arc. arc.from.0 < length counts.now) arcs.now }
    requires incoming { AreRows (length counts.now) (places_into arcs.now) incoming.now }
    requires held_up { AreHeldUp arcs.now counts.now }
    requires there { pin.0 < length counts.now }
    requires left { 0 < slice_index counts.now pin.0 }
    ensures { IfOk result (λ cycle. IsCycle arcs.now cycle.pins) }
{
    let mut pins = round_behind(alloc, arcs, incoming, counts, pin)?;
    let least = place_of_least(pins.as_slice());
    pins.rotate_left(least);
    Ok(Cycle {
        pins: List::from_vec(pins),
    })
}

/// Pins that go round, found by walking from this pin against the arcs until a pin comes again.
fn round_behind(
    alloc: Global,
    arcs: &[Arc],
    incoming: &Adjacency,
    counts: &[u32],
    start: PinNo,
) -> Result<Vec<PinNo>, Memory>
    requires begins { All (λ arc. arc.from.0 < length counts.now) arcs.now }
    requires incoming { AreRows (length counts.now) (places_into arcs.now) incoming.now }
    requires held_up { AreHeldUp arcs.now counts.now }
    requires there { start.0 < length counts.now }
    requires left { 0 < slice_index counts.now start.0 }
    ensures round { IfOk result (λ pins. GoesRound arcs.now pins.items) }
    ensures different { IfOk result (λ pins. AreDifferent pins.items) }
{
    let mut trail = Vec::new(alloc);
    // By pin, its place in the trail.
    let mut places = vec![in alloc; None; counts.len()]?;
    let mut pin = start;
    loop {
        let at = pin.0 as usize;
        if let Some(place) = places[at] {
            return turned_from(alloc, trail.as_slice(), place);
        }
        places[at] = Some(trail.len());
        trail.push(pin)?;
        pin = pin_before(arcs, incoming.at(pin), counts);
    }
}

/// The pins from this place on, the last one first.
#[tactic(auto, using(std::proofs::lemmas::List::take_rest))]
fn turned_from(alloc: Global, pins: &[PinNo], place: usize) -> Result<Vec<PinNo>, Memory>
    requires { place ≤ length pins.now }
    ensures { IfOk result (λ turned. turned.items ≡ reverse (drop place pins.now)) }
{
    let mut turned = Vec::from_slice(alloc, &pins[place..])?;
    turned.reverse();
    Ok(turned)
}

/// A pin whose count isn't 0 and at which one of these arcs begins.
fn pin_before(arcs: &[Arc], arriving: &[u32], counts: &[u32]) -> PinNo
    requires places { All (λ place. place < length arcs.now) arriving.now }
    requires begins { All (λ arc. arc.from.0 < length counts.now) arcs.now }
    requires some { (place : ℕ) × Contains arriving.now place × (0 < slice_index counts.now (arc_at arcs.now place).from.0) }
    ensures { IsBegin arcs.now arriving.now counts.now result }
{
    for place in arriving {
        let pin = arcs[*place as usize].from;
        if counts[pin.0 as usize] > 0 {
            return pin;
        }
    }
    unreachable!()
}

/// The place of the pin with the least number.
fn place_of_least(pins: &[PinNo]) -> usize
    requires some { 0 < length pins.now }
    ensures there { result < length pins.now }
    ensures least { (k : ℕ) → k < length pins.now → number_at pins.now result ≤ number_at pins.now k }
{
    let mut least = 0;
    for place in 1..pins.len() {
        if pins[place].0 < pins[least].0 {
            least = place;
        }
    }
    least
}

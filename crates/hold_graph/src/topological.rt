ghost use Rattle.std.specs.Prelude.{◌≡◌, ℕ, ◌+◌, ◌-◌, ◌<◌, ◌≤◌, [], length, slice_index, slice_set, IfOk, OnOk, IfSome, IfNone, All, List};
ghost use Rattle.hold_base.specs.Answers.{IfFault};
ghost use Rattle.hold_base.specs.Limits.{arcs_limit};
ghost use Rattle.hold_graph.specs.Adjacency.{places_from, places_into};
ghost use Rattle.hold_graph.specs.Cycles.{IsCycle, IsTopological};
ghost use Rattle.hold_graph.specs.inner.Adjacency.{AreRows};
ghost use Rattle.hold_graph.specs.inner.Waiting.{ends_among, waiting, IsReady, GoesOn, IsWorkedOff};

use crate::adjacency::{Adjacency, End, counted};
use crate::cycle::{Cycle, cycle_behind};
use crate::graph::Arc;
use hold_base::{Memory, PinNo, Stop};
use std::alloc::Global;

/// So many pins in an order in which each arc runs forward, or a cycle of the arcs where they have one. By
/// Kahn's algorithm, in time linear in pins and arcs.
pub(crate) fn order_of(
    alloc: Global,
    pins: u32,
    arcs: &[Arc],
    incoming: &Adjacency,
    outgoing: &Adjacency,
) -> Result<Vec<PinNo>, Stop<Cycle>>
    requires few { length arcs.now ≤ arcs_limit }
    requires from { All (λ arc. arc.from.0 < pins) arcs.now }
    requires to { All (λ arc. arc.to.0 < pins) arcs.now }
    requires incoming { AreRows pins (places_into arcs.now) incoming.now }
    requires outgoing { AreRows pins (places_from arcs.now) outgoing.now }
    ensures order { IfOk result (λ order. IsTopological pins arcs.now order.items) }
    ensures no_cycle { IfOk result (λ order. (cycle : List PinNo) → IsCycle arcs.now cycle → ⊥) }
    ensures cycle { IfFault result (λ cycle. IsCycle arcs.now cycle.pins) }
{
    let mut counts = counted(alloc, pins, arcs, End::To)?;
    let order = worked_off(alloc, pins, arcs, outgoing, &mut counts)?;
    match first_left(pins, counts.as_slice()) {
        None => Ok(order),
        Some(pin) => {
            let cycle = cycle_behind(alloc, arcs, incoming, counts.as_slice(), pin)?;
            Err(Stop::Fault(cycle))
        }
    }
}

/// The pins that can be put into an order in which each arc runs forward. The counts tell by pin how many
/// arcs end there; in the end, how many of them begin at a pin that has no place in the order.
fn worked_off(
    alloc: Global,
    pins: u32,
    arcs: &[Arc],
    outgoing: &Adjacency,
    counts: &mut Vec<u32>,
) -> Result<Vec<PinNo>, Memory>
    requires each { length counts.old.items ≡ pins }
    requires to { All (λ arc. arc.to.0 < pins) arcs.now }
    requires outgoing { AreRows pins (places_from arcs.now) outgoing.now }
    requires counted { (pin : ℕ) → pin < pins → slice_index counts.old.items pin ≡ waiting arcs.now [] pin }
    ensures each { length counts.new.items ≡ pins }
    ensures done { IfOk result (λ order. IsWorkedOff arcs.now (length order.items) counts.new.items order.items) }
{
    let mut order = ready(alloc, pins, counts.as_slice())?;
    let mut done = 0;
    while done < order.len() {
        work_off(arcs, outgoing.at(order[done]), counts, &mut order)?;
        done += 1;
    }
    Ok(order)
}

/// The pins whose count is 0.
fn ready(alloc: Global, pins: u32, counts: &[u32]) -> Result<Vec<PinNo>, Memory>
    requires each { length counts.now ≡ pins }
    ensures { IfOk result (λ order. IsReady counts.now order.items) }
{
    let mut order = Vec::with_capacity(alloc, pins as usize)?;
    for pin in 0..pins {
        if counts[pin as usize] == 0 {
            order.push(PinNo(pin))?;
        }
    }
    Ok(order)
}

/// Takes these arcs from the counts of the pins that they end at. A pin whose count falls to 0 goes
/// into the order.
fn work_off(
    arcs: &[Arc],
    leaving: &[u32],
    counts: &mut Vec<u32>,
    order: &mut Vec<PinNo>,
) -> Result<(), Memory>
    requires places { All (λ place. place < length arcs.now) leaving.now }
    requires to { All (λ arc. arc.to.0 < length counts.old.items) arcs.now }
    requires ready { IsReady counts.old.items order.old.items }
    requires enough { (pin : ℕ) → pin < length counts.old.items → ends_among arcs.now leaving.now pin ≤ slice_index counts.old.items pin }
    ensures each { length counts.new.items ≡ length counts.old.items }
    ensures taken { OnOk result ((pin : ℕ) → pin < length counts.old.items →
        slice_index counts.new.items pin + ends_among arcs.now leaving.now pin ≡ slice_index counts.old.items pin) }
    ensures ready { OnOk result (IsReady counts.new.items order.new.items) }
    ensures behind { OnOk result (GoesOn order.old.items order.new.items) }
{
    for place in leaving {
        take_off(counts, order, arcs[*place as usize].to)?;
    }
    Ok(())
}

/// Takes one from the count of the pin, which goes into the order where nothing is left of it.
fn take_off(counts: &mut Vec<u32>, order: &mut Vec<PinNo>, pin: PinNo) -> Result<(), Memory>
    requires ready { IsReady counts.old.items order.old.items }
    requires there { pin.0 < length counts.old.items }
    requires left { 0 < slice_index counts.old.items pin.0 }
    ensures less { counts.new.items ≡ slice_set counts.old.items pin.0 (slice_index counts.old.items pin.0 - 1) }
    ensures ready { OnOk result (IsReady counts.new.items order.new.items) }
    ensures behind { OnOk result (GoesOn order.old.items order.new.items) }
{
    let at = pin.0 as usize;
    counts[at] -= 1;
    if counts[at] == 0 {
        order.push(pin)?;
    }
    Ok(())
}

/// The first pin whose count isn't 0.
fn first_left(pins: u32, counts: &[u32]) -> Option<PinNo>
    requires each { length counts.now ≡ pins }
    ensures none { IfNone result (All (λ count. count ≡ 0) counts.now) }
    ensures there { IfSome result (λ pin. pin.0 < pins) }
    ensures left { IfSome result (λ pin. 0 < slice_index counts.now pin.0) }
{
    for pin in 0..pins {
        if counts[pin as usize] > 0 {
            return Some(PinNo(pin));
        }
    }
    None
}

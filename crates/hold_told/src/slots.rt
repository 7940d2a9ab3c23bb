ghost use Rattle.std.specs.Prelude.{◌≡◌, ◌↔◌, ◌<◌, ℕ, IsTrue, Some, None, length, slice_get, slice_index_or, IfSome};
ghost use Rattle.hold_base.specs.declared.number.PinNo.{PinNo as Pin};
ghost use Rattle.hold_build.specs.Listing.{StandsOnce};
ghost use Rattle.hold_graph.specs.declared.graph.Arc.{Arc as Joint};
ghost use Rattle.hold_told.specs.inner.Told.{IsAdded, IsJoined, NamesPin, later, widened};

use crate::named::Named;
use hold_base::{Interval, PinNo};
use hold_graph::{Arc, Graph};

/// The hull of what was told so far and the span.
fn widened(so_far: Option<Interval>, span: Interval) -> Interval
    ensures { result ≡ widened so_far span }
{
    match so_far {
        None => span,
        Some(hull) => hull.hull(span),
    }
}

/// The later of what was told so far and the time.
fn later(so_far: Option<i64>, time: i64) -> i64
    ensures { result ≡ later so_far time }
{
    match so_far {
        None => time,
        Some(latest) => latest.max(time),
    }
}

/// Whether the arc comes from the pin, along a wire or through a cell.
fn comes_from(arc: &Arc, from: PinNo, wire: bool) -> bool
    ensures { IsTrue result ↔ ((arc.now.from ≡ from) × (arc.now.wire ≡ wire)) }
{
    arc.from == from && arc.wire == wire
}

/// The place of the arc between two pins, along a wire or through a cell.
fn arc_between(graph: &Graph, from: PinNo, to: PinNo, wire: bool) -> Option<u32>
    requires { to.0 < graph.now.pins }
    ensures found { IfSome result (λ k. slice_get graph.now.arcs k ≡ Some (record { from = from; to = to; wire = wire })) }
    ensures none { result ≡ None → (k : ℕ) → slice_get graph.now.arcs k ≡ Some (record { from = from; to = to; wire = wire }) → ⊥ }
{
    let arcs = graph.parts().arcs.as_slice();
    for place in graph.incoming(to) {
        if comes_from(&arcs[*place as usize], from, wire) {
            return Some(*place);
        }
    }
    None
}

/// Joins a span, if there is one, to what was told of the arc from the one pin to the other, if there is such an arc.
pub(crate) fn add_span(
    spans: &mut Vec<Option<Interval>>,
    graph: &Graph,
    from: Named,
    to: Named,
    wire: bool,
    span: Option<Interval>,
)
    requires room { length spans.old.items ≡ length graph.now.arcs }
    requires once { StandsOnce graph.now.arcs }
    requires there { (p : Pin) → NamesPin to p → p.0 < graph.now.pins }
    ensures room { length spans.new.items ≡ length spans.old.items }
    ensures each { (k : ℕ) (arc : Joint) → slice_get graph.now.arcs k ≡ Some arc →
        IsAdded widened (IsJoined from to wire arc) span (slice_index_or spans.old.items k None) (slice_index_or spans.new.items k None) }
{
    let Some(span) = span else {
        return;
    };
    let Named::Pin(from) = from else {
        return;
    };
    let Named::Pin(to) = to else {
        return;
    };
    if let Some(place) = arc_between(graph, from, to, wire) {
        let at = place as usize;
        spans[at] = Some(widened(spans[at], span));
    }
}

/// Joins a span, if there is one and it is a delay from the clock, to what was told of the pin, if there is one.
pub(crate) fn add_delay(
    delays: &mut Vec<Option<Interval>>,
    clocked: bool,
    pin: Named,
    span: Option<Interval>,
)
    requires { (p : Pin) → NamesPin pin p → p.0 < length delays.old.items }
    ensures room { length delays.new.items ≡ length delays.old.items }
    ensures each { (p : Pin) → p.0 < length delays.old.items →
        IsAdded widened (IsTrue clocked × NamesPin pin p) span (slice_index_or delays.old.items p.0 None) (slice_index_or delays.new.items p.0 None) }
{
    if !clocked {
        return;
    }
    let Some(span) = span else {
        return;
    };
    let Named::Pin(pin) = pin else {
        return;
    };
    let at = pin.0 as usize;
    delays[at] = Some(widened(delays[at], span));
}

/// Joins a time, if there is one, to what was told of the pin, if there is one.
pub(crate) fn add_time(times: &mut Vec<Option<i64>>, pin: Named, time: Option<i64>)
    requires { (p : Pin) → NamesPin pin p → p.0 < length times.old.items }
    ensures room { length times.new.items ≡ length times.old.items }
    ensures each { (p : Pin) → p.0 < length times.old.items →
        IsAdded later (NamesPin pin p) time (slice_index_or times.old.items p.0 None) (slice_index_or times.new.items p.0 None) }
{
    let Some(time) = time else {
        return;
    };
    let Named::Pin(pin) = pin else {
        return;
    };
    let at = pin.0 as usize;
    times[at] = Some(later(times[at], time));
}

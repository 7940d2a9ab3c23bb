ghost use Rattle.std.specs.Prelude.{◌≡◌, ◌≢◌, ◌<◌, ◌≤◌, ◌+◌, length, slice_index_or, None, Some, All, Contains, IfOk, IfSome, IfNone, List, ℕ, ℤ};
ghost use Rattle.hold_base.specs.Limits.{chain_limit, time_limit};
ghost use Rattle.hold_base.specs.declared.number.PinNo.{PinNo as Pin};
ghost use Rattle.hold_graph.specs.Adjacency.{places_into};
ghost use Rattle.hold_graph.specs.Cycles.{IsTopological};
ghost use Rattle.hold_graph.specs.Path.{IsCheckedPath, end_pin};
ghost use Rattle.hold_graph.specs.Met.{excess};
ghost use Rattle.hold_graph.specs.Problem.{IsSpan, IsValid, IsValidCorner, IsWithin};
ghost use Rattle.hold_graph.specs.SitePins.{AreSites};
ghost use Rattle.hold_graph.specs.Sites.{buffers_of, AreCountsOf};
ghost use Rattle.hold_timing.specs.Ends.{EndsAt};
ghost use Rattle.hold_timing.specs.Worst.{IsArrival, IsSlackAt};
ghost use Rattle.hold_timing.specs.inner.Pass.{offer, pad_limit, step_limit, sum_limit, AreWithin};
ghost use Rattle.hold_timing.specs.inner.Search.{CameBy, IsWorstTo};

use crate::offer::offer;
use crate::pass::{coming_to, pad};
use hold_base::{Interval, Memory, PinNo, Side};
use hold_graph::{Arc, Problem, Spans};
use std::alloc::Global;

/// The first of these places whose arc brings that time to the pin that it ends at.
fn first_bringing(
    side: Side,
    arcs: &[Arc],
    spans: &[Interval],
    arrivals: &[Option<i64>],
    pad: i64,
    places: &[u32],
    time: i64,
) -> Option<u32>
    requires places { All (λ place. place < length arcs.now) places.now }
    requires each { length spans.now ≡ length arcs.now }
    requires from { All (λ arc. arc.from.0 < length arrivals.now) arcs.now }
    requires spans { All (IsSpan time_limit) spans.now }
    requires arrivals { AreWithin sum_limit arrivals.now }
    requires pad { IsWithin pad_limit pad }
    ensures listed { IfSome result (Contains places.now) }
    ensures brings { IfSome result (λ place. offer side arcs.now spans.now arrivals.now pad place ≡ Some time) }
    ensures none { IfNone result (All (λ place. offer side arcs.now spans.now arrivals.now pad place ≢ Some time) places.now) }
{
    for place in places {
        if offer(side, arcs, spans, arrivals, pad, *place) == Some(time) {
            return Some(*place);
        }
    }
    None
}

/// The first arc by which that time came to a pin. None where no arc brings it, so that the pin has it from its launch, and where
/// there is no time.
fn came_by(
    problem: &Problem,
    spans: &Spans,
    side: Side,
    counts: &[u8],
    arrivals: &[Option<i64>],
    pin: PinNo,
    time: Option<i64>,
) -> Option<u32>
    requires valid { IsValid problem.now }
    requires corner { IsValidCorner problem.now spans.now }
    requires counts { AreCountsOf problem.now counts.now }
    requires most { All (λ count. count ≤ chain_limit) counts.now }
    requires len { length arrivals.now ≡ problem.now.graph.pins }
    requires within { AreWithin sum_limit arrivals.now }
    requires pin { pin.0 < problem.now.graph.pins }
    requires time { (t : ℤ) → time ≡ Some t → IsWithin (sum_limit + step_limit) t }
    ensures listed { (place : ℕ) → result ≡ Some place → Contains (places_into problem.now.graph.arcs pin) place }
    ensures by { (sites : List Pin) → AreSites problem.now.graph sites →
        CameBy side problem.now.graph spans.now (buffers_of (length problem.now.costs) sites counts.now) arrivals.now pin time result }
{
    match time {
        Some(time) => first_bringing(
            side,
            problem.graph.parts().arcs.as_slice(),
            spans.arcs.as_slice(),
            arrivals,
            pad(problem, spans, side, counts, pin),
            problem.graph.incoming(pin),
            time,
        ),
        None => None,
    }
}

/// The path that the arcs give by which times came, from where none brought a time to the capture. By the order, in which each arc
/// runs forward, a proof sees that the way back ends.
fn walk_back(
    alloc: Global,
    problem: &Problem,
    spans: &Spans,
    side: Side,
    counts: &[u8],
    arrivals: &[Option<i64>],
    order: &[PinNo],
    capture: PinNo,
) -> Result<Vec<PinNo>, Memory>
    requires valid { IsValid problem.now }
    requires corner { IsValidCorner problem.now spans.now }
    requires counts { AreCountsOf problem.now counts.now }
    requires most { All (λ count. count ≤ chain_limit) counts.now }
    requires len { length arrivals.now ≡ problem.now.graph.pins }
    requires within { AreWithin sum_limit arrivals.now }
    requires order { IsTopological problem.now.graph.pins problem.now.graph.arcs order.now }
    requires capture { capture.0 < problem.now.graph.pins }
    ensures { IfOk result (λ path. (sites : List Pin) → AreSites problem.now.graph sites →
        ((pin : Pin) → pin.0 < problem.now.graph.pins →
        IsArrival side problem.now spans.now (buffers_of (length problem.now.costs) sites counts.now) pin (slice_index_or arrivals.now pin.0 None)) →
        IsWorstTo side problem.now.graph spans.now (buffers_of (length problem.now.costs) sites counts.now) capture path.items) }
{
    let arcs = problem.graph.parts().arcs.as_slice();
    let mut path = Vec::new(alloc);
    let mut pin = capture;
    let coming = coming_to(problem, spans, side, counts, arrivals, capture);
    let mut by = came_by(problem, spans, side, counts, arrivals, capture, coming);
    while let Some(place) = by {
        path.push(pin)?;
        pin = arcs[place as usize].from;
        let time = arrivals[pin.0 as usize];
        by = came_by(problem, spans, side, counts, arrivals, pin, time);
    }
    path.push(pin)?;
    path.reverse();
    Ok(path)
}

/// A checked path to the capture with the least slack of those that end there, where these are the arrivals of the side. It is
/// found by going back from the capture, arc by arc, by the first arc that brought the time.
pub(crate) fn path_back(
    alloc: Global,
    problem: &Problem,
    spans: &Spans,
    side: Side,
    counts: &[u8],
    arrivals: &[Option<i64>],
    capture: PinNo,
) -> Result<Vec<PinNo>, Memory>
    requires valid { IsValid problem.now }
    requires corner { IsValidCorner problem.now spans.now }
    requires counts { AreCountsOf problem.now counts.now }
    requires most { All (λ count. count ≤ chain_limit) counts.now }
    requires len { length arrivals.now ≡ problem.now.graph.pins }
    requires within { AreWithin sum_limit arrivals.now }
    requires right { (sites : List Pin) → AreSites problem.now.graph sites → (pin : Pin) → pin.0 < problem.now.graph.pins →
        IsArrival side problem.now spans.now (buffers_of (length problem.now.costs) sites counts.now) pin (slice_index_or arrivals.now pin.0 None) }
    requires ends { EndsAt problem.now.graph capture }
    ensures checked { IfOk result (λ path. IsCheckedPath problem.now.graph path.items) }
    ensures ends { IfOk result (λ path. end_pin path.items ≡ capture) }
    ensures least { IfOk result (λ path. (sites : List Pin) → AreSites problem.now.graph sites →
        IsSlackAt side problem.now spans.now (buffers_of (length problem.now.costs) sites counts.now) capture
        (Some (excess side problem.now spans.now (buffers_of (length problem.now.costs) sites counts.now) path.items))) }
{
    // by the lists of the graph a proof learns that the path is one between its pins, and the capture one of them
    let _sites = problem.graph.sites();
    let _parts = problem.graph.parts();
    let order = problem.graph.order();
    walk_back(
        alloc, problem, spans, side, counts, arrivals, order, capture,
    )
}

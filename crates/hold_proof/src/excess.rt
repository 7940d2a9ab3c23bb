ghost use Rattle.std.specs.Prelude.{◌≡◌, ◌==◌, ◌*◌, ◌<◌, ◌≤◌, ◌∷◌, length, ◌+ℤ◌, ◌-ℤ◌, All};
ghost use Rattle.hold_base.specs.Interval.{hull_of};
ghost use Rattle.hold_base.specs.Limits.{bound_pins_limit, launch_limit, time_limit};
ghost use Rattle.hold_graph.specs.Graph.{AreBelow, NamesItsPins};
ghost use Rattle.hold_graph.specs.Problem.{IsSpan, IsValid, IsValidCorner, IsWithin};
ghost use Rattle.hold_graph.specs.Sums.{end_of, greatest_of, items_at, no_buffers, spans_between, steps_sum};
ghost use Rattle.hold_graph.specs.Path.{last_pin, IsCheckedPath};
ghost use Rattle.hold_graph.specs.Met.{excess};
ghost use Rattle.hold_proof.specs.inner.Places.{joined_when};
ghost use Rattle.hold_proof.specs.inner.Places.{ArePlaces, IsPlacesOf};
ghost use Rattle.hold_proof.specs.inner.Changes.{free_limit, sum_limit};

use crate::places::{Places, joined, or_nothing};
use hold_base::{Interval, PinNo, Side};
use hold_graph::{Arc, Graph, Problem, Spans};

/// The end of a span that the side looks at.
fn end_of(side: Side, span: Interval) -> i64
    ensures { result ≡ end_of side span }
{
    match side {
        Side::Early => span.least,
        Side::Late => span.greatest,
    }
}

/// What is joined once an arc with this span that ends at a pin is looked at, if arcs from another pin are sought.
fn joined_from(hull: Option<Interval>, arc: &Arc, span: Interval, from: PinNo) -> Option<Interval>
    ensures { result ≡ joined_when (arc.now.from.0 == from.0) hull span }
{
    if arc.from == from {
        joined(hull, span)
    } else {
        hull
    }
}

/// The hull of the spans of the arcs from one pin to another.
fn step_span(graph: &Graph, spans: &[Interval], from: PinNo, to: PinNo) -> Interval
    requires there { to.0 < graph.now.pins }
    requires each { length spans.now ≡ length graph.now.arcs }
    ensures { result ≡ hull_of (spans_between graph.now.arcs spans.now from to) }
{
    let arcs = graph.parts().arcs.as_slice();
    let mut hull = None;
    for place in graph.incoming(to) {
        let place = *place as usize;
        hull = joined_from(hull, &arcs[place], spans[place], from);
    }
    or_nothing(hull)
}

/// What the steps from a pin on sum up to without buffers, and where they end.
fn steps_from(
    graph: &Graph,
    side: Side,
    spans: &Spans,
    first: PinNo,
    pins: &[PinNo],
) -> (i64, PinNo)
    requires there { AreBelow graph.now.pins pins.now }
    requires each { length spans.now.arcs ≡ length graph.now.arcs }
    requires spans { All (IsSpan time_limit) spans.now.arcs }
    requires few { length pins.now ≤ bound_pins_limit }
    ensures sum { result.0 ≡ steps_sum side graph.now.arcs spans.now no_buffers first pins.now }
    ensures size { IsWithin (length pins.now * time_limit) result.0 }
    ensures end { result.1 ≡ last_pin first pins.now }
{
    let mut sum = 0;
    let mut from = first;
    for to in pins {
        sum += end_of(side, step_span(graph, spans.arcs.as_slice(), from, *to));
        from = *to;
    }
    (sum, from)
}

/// How far a path with this early sum and this end is from missing its hold check.
fn early_left(captures: &Places, spans: &Spans, sum: i64, end: PinNo) -> i64
    requires captures { ArePlaces captures.now }
    requires there { end.0 < length captures.now.first.items }
    requires capture_each { length spans.now.capture ≡ length captures.now.listed.items }
    requires hold_each { length spans.now.hold ≡ length captures.now.listed.items }
    requires capture { All (IsSpan time_limit) spans.now.capture }
    requires hold { All (IsWithin time_limit) spans.now.hold }
    requires sum { IsWithin sum_limit sum }
    ensures value { result ≡ (sum -ℤ (hull_of (items_at captures.now.listed.items spans.now.capture end)).greatest)
        -ℤ greatest_of (items_at captures.now.listed.items spans.now.hold end) }
    ensures size { IsWithin free_limit result }
{
    let arrival = captures.hull_at(spans.capture.as_slice(), end);
    let hold = captures.greatest_at(spans.hold.as_slice(), end);
    sum - arrival.greatest - hold
}

/// How far a path with this late sum and this end is from missing its setup check.
fn late_left(captures: &Places, spans: &Spans, period: i64, sum: i64, end: PinNo) -> i64
    requires captures { ArePlaces captures.now }
    requires there { end.0 < length captures.now.first.items }
    requires capture_each { length spans.now.capture ≡ length captures.now.listed.items }
    requires setup_each { length spans.now.setup ≡ length captures.now.listed.items }
    requires capture { All (IsSpan time_limit) spans.now.capture }
    requires setup { All (IsWithin time_limit) spans.now.setup }
    requires period { IsWithin time_limit period }
    requires sum { IsWithin sum_limit sum }
    ensures value { result ≡ ((period +ℤ (hull_of (items_at captures.now.listed.items spans.now.capture end)).least)
        -ℤ greatest_of (items_at captures.now.listed.items spans.now.setup end)) -ℤ sum }
    ensures size { IsWithin free_limit result }
{
    let arrival = captures.hull_at(spans.capture.as_slice(), end);
    let setup = captures.greatest_at(spans.setup.as_slice(), end);
    period + arrival.least - setup - sum
}

/// What a path without buffers sums up to, and where it ends.
fn free_sum(
    graph: &Graph,
    launches: &Places,
    spans: &Spans,
    side: Side,
    first: PinNo,
    pins: &[PinNo],
) -> (i64, PinNo)
    requires launches { ArePlaces launches.now }
    requires first { first.0 < length launches.now.first.items }
    requires there { AreBelow graph.now.pins pins.now }
    requires launch_each { length spans.now.launch ≡ length launches.now.listed.items }
    requires arcs_each { length spans.now.arcs ≡ length graph.now.arcs }
    requires launch { All (IsSpan launch_limit) spans.now.launch }
    requires arcs { All (IsSpan time_limit) spans.now.arcs }
    requires few { length pins.now ≤ bound_pins_limit }
    ensures sum { result.0 ≡ end_of side (hull_of (items_at launches.now.listed.items spans.now.launch first))
        +ℤ steps_sum side graph.now.arcs spans.now no_buffers first pins.now }
    ensures size { IsWithin sum_limit result.0 }
    ensures end { result.1 ≡ last_pin first pins.now }
{
    let launch = launches.hull_at(spans.launch.as_slice(), first);
    let (steps, end) = steps_from(graph, side, spans, first, pins);
    (end_of(side, launch) + steps, end)
}

/// The excess of a listed path where no buffer stands, from the places of the graph's launches and captures.
pub(crate) fn free_excess(
    problem: &Problem,
    launches: &Places,
    captures: &Places,
    spans: &Spans,
    side: Side,
    pins: &[PinNo],
) -> i64
    requires valid { IsValid problem.now }
    requires names { NamesItsPins problem.now.graph }
    requires corner { IsValidCorner problem.now spans.now }
    requires launches { IsPlacesOf problem.now.graph.pins problem.now.graph.launches launches.now }
    requires captures { IsPlacesOf problem.now.graph.pins problem.now.graph.captures captures.now }
    requires checked { IsCheckedPath problem.now.graph pins.now }
    requires few { length pins.now ≤ bound_pins_limit }
    ensures excess { result ≡ excess side problem.now spans.now no_buffers pins.now }
    ensures size { IsWithin free_limit result }
{
    let [first, rest @ ..] = pins else {
        return 0;
    };
    let (sum, end) = free_sum(&problem.graph, launches, spans, side, *first, rest);
    match side {
        Side::Early => early_left(captures, spans, sum, end),
        Side::Late => late_left(captures, spans, problem.period, sum, end),
    }
}

ghost use Rattle.std.specs.Prelude.{◌≡◌, ◌<◌, ◌↔◌, IsTrue, length, IfOk, All};
ghost use Rattle.hold_graph.specs.Graph.{AreBelow};
ghost use Rattle.hold_graph.specs.Cycles.{AreDifferent};
ghost use Rattle.hold_graph.specs.inner.Marks.{AreExact, AreFlags, IsLedTo, LeadsTo};
ghost use Rattle.hold_uses.specs.inner.Marks.{AnyMarked, AreMarked, ComesTo, StandsAhead, far, places_to};

use hold_base::{Memory, PinNo};
use hold_graph::{Arc, Graph};
use std::alloc::Global;

/// Which way marks spread: along the arcs, or against them.
#[derive(Clone, Copy, Debug)]
pub(crate) enum Way {
    Forward,
    Back,
}

/// The pin that a mark comes from along the arc.
fn far_pin(way: Way, arc: &Arc) -> PinNo
    ensures { result ≡ far way arc.now }
{
    match way {
        Way::Forward => arc.from,
        Way::Back => arc.to,
    }
}

/// The places of the arcs along which marks come to the pin.
fn places_to(graph: &Graph, way: Way, pin: PinNo) -> &[u32]
    requires { pin.0 < graph.now.pins }
    ensures { result.now ≡ places_to way graph.now.arcs pin }
{
    match way {
        Way::Forward => graph.incoming(pin),
        Way::Back => graph.outgoing(pin),
    }
}

/// By pin, whether it is listed.
fn flags_of(alloc: Global, pins: u32, listed: &[PinNo]) -> Result<Vec<bool>, Memory>
    requires { AreBelow pins listed.now }
    ensures { IfOk result (λ flags. AreFlags pins listed.now flags.items) }
{
    let mut flags = vec![in alloc; false; pins as usize]?;
    for pin in listed {
        flags[pin.0 as usize] = true;
    }
    Ok(flags)
}

/// Whether one of the arcs at these places comes from a marked pin.
fn any_marked(marks: &[bool], way: Way, arcs: &[Arc], places: &[u32]) -> bool
    requires places { All (λ place. place < length arcs.now) places.now }
    requires ends { All (λ arc. (far way arc).0 < length marks.now) arcs.now }
    ensures { IsTrue result ↔ AnyMarked way arcs.now marks.now places.now }
{
    for place in places {
        if marks[far_pin(way, &arcs[*place as usize]).0 as usize] {
            return true;
        }
    }
    false
}

/// Whether a mark comes to the pin along some arc.
pub(crate) fn comes_to(graph: &Graph, way: Way, marks: &[bool], pin: PinNo) -> bool
    requires pin { pin.0 < graph.now.pins }
    requires each { length marks.now ≡ graph.now.pins }
    ensures { IsTrue result ↔ ComesTo way graph.now.arcs marks.now pin }
{
    let arcs = graph.parts().arcs.as_slice();
    any_marked(marks, way, arcs, places_to(graph, way, pin))
}

/// By pin, whether it is reached from the listed ones, where each pin that marks come from stands before those that they come to.
fn spread(
    alloc: Global,
    graph: &Graph,
    way: Way,
    order: &[PinNo],
    listed: &[PinNo],
) -> Result<Vec<bool>, Memory>
    requires listed { AreBelow graph.now.pins listed.now }
    requires below { AreBelow graph.now.pins order.now }
    requires different { AreDifferent order.now }
    requires ahead { StandsAhead way graph.now.arcs order.now }
    ensures count { IfOk result (λ marks. length marks.items ≡ graph.now.pins) }
    ensures marked { IfOk result (λ marks. AreMarked way graph.now.arcs listed.now order.now (length order.now) marks.items) }
{
    let mut marks = flags_of(alloc, graph.parts().pins, listed)?;
    for pin in order {
        if comes_to(graph, way, marks.as_slice(), *pin) {
            marks[pin.0 as usize] = true;
        }
    }
    Ok(marks)
}

/// By pin, whether some walk leads from a launch to it.
pub(crate) fn launched(alloc: Global, graph: &Graph) -> Result<Vec<bool>, Memory>
    ensures { IfOk result (λ marks. AreExact graph.now.pins (IsLedTo graph.now.arcs graph.now.launches) marks.items) }
{
    let launches = graph.parts().launches.as_slice();
    spread(alloc, graph, Way::Forward, graph.order(), launches)
}

/// By pin, whether some walk leads from it to a capture.
pub(crate) fn captured(alloc: Global, graph: &Graph) -> Result<Vec<bool>, Memory>
    ensures { IfOk result (λ marks. AreExact graph.now.pins (LeadsTo graph.now.arcs graph.now.captures) marks.items) }
{
    let captures = graph.parts().captures.as_slice();
    let mut back = Vec::from_slice(alloc, graph.order())?;
    back.reverse();
    spread(alloc, graph, Way::Back, back.as_slice(), captures)
}

ghost use Rattle.std.specs.Prelude.{◌≡◌, ◌↔◌, ◌<◌, IfOk, IsTrue, false, length, slice_index_or};
ghost use Rattle.hold_graph.specs.Graph.{AreBelow};
ghost use Rattle.hold_graph.specs.inner.Marks.{AreExact};
ghost use Rattle.hold_uses.specs.Uses.{IsCheckedCapture, IsCheckedLaunch, TellsPins, TellsSteps};
ghost use Rattle.hold_uses.specs.inner.Marks.{ComesTo, IsListedAnd};

use crate::marks::{Way, captured, comes_to, launched};
use hold_base::{Memory, PinNo};
use hold_graph::{Arc, Graph};
use std::alloc::Global;

/// By pin, whether it is listed and a mark comes to it.
fn listed_and_reached(
    alloc: Global,
    graph: &Graph,
    way: Way,
    listed: &[PinNo],
    marks: &[bool],
) -> Result<Vec<bool>, Memory>
    requires below { AreBelow graph.now.pins listed.now }
    requires each { length marks.now ≡ graph.now.pins }
    ensures { IfOk result (λ flags. AreExact graph.now.pins (IsListedAnd (ComesTo way graph.now.arcs marks.now) listed.now) flags.items) }
{
    let mut flags = vec![in alloc; false; graph.parts().pins as usize]?;
    for pin in listed {
        if comes_to(graph, way, marks, *pin) {
            flags[pin.0 as usize] = true;
        }
    }
    Ok(flags)
}

/// By pin, whether some checked path begins there.
pub fn used_launches(alloc: Global, graph: &Graph) -> Result<Vec<bool>, Memory>
    ensures { IfOk result (λ used. TellsPins graph.now.pins (IsCheckedLaunch graph.now) used.items) }
{
    let leads = captured(alloc, graph)?;
    let launches = graph.parts().launches.as_slice();
    listed_and_reached(alloc, graph, Way::Back, launches, leads.as_slice())
}

/// By pin, whether some checked path ends there.
pub fn used_captures(alloc: Global, graph: &Graph) -> Result<Vec<bool>, Memory>
    ensures { IfOk result (λ used. TellsPins graph.now.pins (IsCheckedCapture graph.now) used.items) }
{
    let led = launched(alloc, graph)?;
    let captures = graph.parts().captures.as_slice();
    listed_and_reached(alloc, graph, Way::Forward, captures, led.as_slice())
}

/// Whether a mark of the first sort stands at the pin that the arc comes from, and one of the second at the pin that it leads to.
fn is_between(led: &[bool], leads: &[bool], arc: &Arc) -> bool
    requires from { arc.now.from.0 < length led.now }
    requires to { arc.now.to.0 < length leads.now }
    ensures { IsTrue result ↔ (IsTrue (slice_index_or led.now arc.now.from.0 false) × IsTrue (slice_index_or leads.now arc.now.to.0 false)) }
{
    led[arc.from.0 as usize] && leads[arc.to.0 as usize]
}

/// By arc, whether some checked path has its step.
pub fn used_steps(alloc: Global, graph: &Graph) -> Result<Vec<bool>, Memory>
    ensures { IfOk result (λ used. TellsSteps graph.now used.items) }
{
    let led = launched(alloc, graph)?;
    let leads = captured(alloc, graph)?;
    let arcs = graph.parts().arcs.as_slice();
    let mut used = Vec::with_capacity(alloc, arcs.len())?;
    for arc in arcs {
        used.push(is_between(led.as_slice(), leads.as_slice(), arc))?;
    }
    Ok(used)
}

ghost use Rattle.std.specs.Prelude.{◌≡◌, ℕ, ◌<◌, ◌↔◌, ◌&&◌, false, IsTrue, length, IfOk, All, Some, slice_get, slice_index_or};
ghost use Rattle.hold_base.specs.declared.number.PinNo.{PinNo as Pin};
ghost use Rattle.hold_graph.specs.Graph.{AreBelow, NamesItsPins};
ghost use Rattle.hold_graph.specs.Adjacency.{places_into, places_from};
ghost use Rattle.hold_graph.specs.Cycles.{IsTopological};
ghost use Rattle.hold_graph.specs.SitePins.{IsSite, AreSites};
ghost use Rattle.hold_graph.specs.inner.Adjacency.{AreRows};
ghost use Rattle.hold_graph.specs.inner.Marks.{AreExact, LeadsTo, IsLedTo};
ghost use Rattle.hold_graph.specs.inner.Sites.{any_led_wire, is_open, AreSiteMarks, IsSiteTable};

use crate::adjacency::{Adjacency, End};
use crate::graph::{Arc, Parts};
use crate::marks::{flags_of, reversed, spread};
use hold_base::{Memory, PinNo, SiteNo};
use std::alloc::Global;

/// What makes a pin a site, each told by pin.
#[derive(Drop)]
pub(crate) struct SiteMarks {
    /// Some walk leads from a launch to the pin.
    pub launched: Vec<bool>,
    /// Some walk leads from the pin to a capture.
    pub captured: Vec<bool>,
    /// Some walk leads from the pin to a clock pin.
    pub clocked: Vec<bool>,
    /// Nothing may be put in front of the pin.
    pub kept: Vec<bool>,
}

/// By pin, whether some walk leads from one of the sources to it.
fn led_to(
    alloc: Global,
    parts: &Parts,
    incoming: &Adjacency,
    order: &[PinNo],
    sources: &[PinNo],
) -> Result<Vec<bool>, Memory>
    requires numbers { NamesItsPins parts.now }
    requires rows { AreRows parts.now.pins (places_into parts.now.arcs) incoming.now }
    requires order { IsTopological parts.now.pins parts.now.arcs order.now }
    requires sources { AreBelow parts.now.pins sources.now }
    ensures { IfOk result (λ marks. AreExact parts.now.pins (IsLedTo parts.now.arcs sources.now) marks.items) }
{
    let seeds = flags_of(alloc, parts.pins, sources)?;
    let arcs = parts.arcs.as_slice();
    spread(alloc, order, arcs, incoming, End::From, seeds.as_slice())
}

/// By pin, whether some walk leads from it to one of the targets.
fn leads_to(
    alloc: Global,
    parts: &Parts,
    outgoing: &Adjacency,
    order: &[PinNo],
    targets: &[PinNo],
) -> Result<Vec<bool>, Memory>
    requires numbers { NamesItsPins parts.now }
    requires rows { AreRows parts.now.pins (places_from parts.now.arcs) outgoing.now }
    requires order { IsTopological parts.now.pins parts.now.arcs order.now }
    requires targets { AreBelow parts.now.pins targets.now }
    ensures { IfOk result (λ marks. AreExact parts.now.pins (LeadsTo parts.now.arcs targets.now) marks.items) }
{
    let seeds = flags_of(alloc, parts.pins, targets)?;
    let back = reversed(alloc, order)?;
    let arcs = parts.arcs.as_slice();
    spread(
        alloc,
        back.as_slice(),
        arcs,
        outgoing,
        End::To,
        seeds.as_slice(),
    )
}

/// What makes each pin of the parts a site.
fn marks_of(
    alloc: Global,
    parts: &Parts,
    incoming: &Adjacency,
    outgoing: &Adjacency,
    order: &[PinNo],
) -> Result<SiteMarks, Memory>
    requires numbers { NamesItsPins parts.now }
    requires into { AreRows parts.now.pins (places_into parts.now.arcs) incoming.now }
    requires from { AreRows parts.now.pins (places_from parts.now.arcs) outgoing.now }
    requires order { IsTopological parts.now.pins parts.now.arcs order.now }
    ensures { IfOk result (AreSiteMarks parts.now) }
{
    Ok(SiteMarks {
        launched: led_to(alloc, parts, incoming, order, parts.launches.as_slice())?,
        captured: leads_to(alloc, parts, outgoing, order, parts.captures.as_slice())?,
        clocked: leads_to(alloc, parts, outgoing, order, parts.clocks.as_slice())?,
        kept: flags_of(alloc, parts.pins, parts.keeps.as_slice())?,
    })
}

/// Whether the arc is a wire that begins at a marked pin.
fn is_led_wire(launched: &[bool], arc: &Arc) -> bool
    requires { arc.now.from.0 < length launched.now }
    ensures { result ≡ (arc.now.wire && slice_index_or launched.now arc.now.from.0 false) }
{
    arc.wire && launched[arc.from.0 as usize]
}

/// Whether some arc at these places is a wire that begins at a marked pin.
fn any_led_wire(launched: &[bool], arcs: &[Arc], places: &[u32]) -> bool
    requires places { All (λ place. place < length arcs.now) places.now }
    requires from { All (λ arc. arc.from.0 < length launched.now) arcs.now }
    ensures { result ≡ any_led_wire launched.now arcs.now places.now }
{
    for place in places {
        if is_led_wire(launched, &arcs[*place as usize]) {
            return true;
        }
    }
    false
}

/// Whether the pin leads to a capture and to no clock pin, and is not kept.
fn is_open(marks: &SiteMarks, pin: PinNo) -> bool
    requires captured { pin.0 < length marks.now.captured.items }
    requires clocked { pin.0 < length marks.now.clocked.items }
    requires kept { pin.0 < length marks.now.kept.items }
    ensures { result ≡ is_open marks.now pin }
{
    let at = pin.0 as usize;
    marks.captured[at] && !marks.clocked[at] && !marks.kept[at]
}

/// Whether the pin is a site.
fn is_site(parts: &Parts, incoming: &Adjacency, marks: &SiteMarks, pin: PinNo) -> bool
    requires numbers { NamesItsPins parts.now }
    requires into { AreRows parts.now.pins (places_into parts.now.arcs) incoming.now }
    requires marks { AreSiteMarks parts.now marks.now }
    requires pin { pin.0 < parts.now.pins }
    ensures { IsTrue result ↔ IsSite parts.now pin }
{
    if !is_open(marks, pin) {
        return false;
    }
    any_led_wire(
        marks.launched.as_slice(),
        parts.arcs.as_slice(),
        incoming.at(pin),
    )
}

/// The sites of the parts, in the order of pins.
pub(crate) fn sites_of(
    alloc: Global,
    parts: &Parts,
    incoming: &Adjacency,
    outgoing: &Adjacency,
    order: &[PinNo],
) -> Result<Vec<PinNo>, Memory>
    requires numbers { NamesItsPins parts.now }
    requires into { AreRows parts.now.pins (places_into parts.now.arcs) incoming.now }
    requires from { AreRows parts.now.pins (places_from parts.now.arcs) outgoing.now }
    requires order { IsTopological parts.now.pins parts.now.arcs order.now }
    ensures { IfOk result (λ sites. AreSites parts.now sites.items) }
{
    let marks = marks_of(alloc, parts, incoming, outgoing, order)?;
    let mut sites = Vec::new(alloc);
    for pin in 0..parts.pins {
        if is_site(parts, incoming, &marks, PinNo(pin)) {
            sites.push(PinNo(pin))?;
        }
    }
    Ok(sites)
}

/// By pin, its place among the sites, none of a pin that is no site.
pub(crate) fn site_table(
    alloc: Global,
    pins: u32,
    sites: &[PinNo],
) -> Result<Vec<Option<SiteNo>>, Memory>
    requires below { AreBelow pins sites.now }
    requires rising { (j k : ℕ) (a b : Pin) → j < k → slice_get sites.now j ≡ Some a → slice_get sites.now k ≡ Some b → a.0 < b.0 }
    ensures count { IfOk result (λ table. length table.items ≡ pins) }
    ensures tells { IfOk result (λ table. IsSiteTable sites.now table.items) }
{
    let mut table = vec![in alloc; None; pins as usize]?;
    for (place, pin) in sites.iter().enumerate() {
        table[pin.0 as usize] = Some(SiteNo(place as u32));
    }
    Ok(table)
}

ghost use Rattle.std.specs.Prelude.{◌≡◌, ◌≤◌, ◌^◌, ℕ, List, Option, None, IfOk, length, map, slice_index_or};
ghost use Rattle.std.specs.Option.{option_to_list};
ghost use Rattle.hold_plain.specs.declared.pin_use.PinUse.{PinUse};
ghost use Rattle.hold_plain.specs.Keys.{net_of, driven, fed};
ghost use Rattle.hold_plain.specs.inner.Keys.{HoldsPlaces, ArePlaces};
ghost use Rattle.hold_plain.specs.Problem.{driver_of, arc_if, arcs_into, arcs_from, steps_from};

use crate::pin_use::{PinRole, PinUse};
use crate::places::place_at;
use crate::times::step_span;
use hold_base::{Interval, Memory, PinNo};
use hold_graph::Arc;
use hold_netlist::Source;
use std::alloc::Global;

/// The place of the pin that drives the net of a source, by a table of drivers.
fn driver_of(drivers: &[Option<u32>], source: Source) -> Option<u32>
    ensures { (keys : List (Option ℕ)) → HoldsPlaces (length drivers.now) keys drivers.now →
        result ≡ driver_of keys (net_of source) }
{
    match source {
        Source::Net(net) => place_at(drivers, net.0),
        Source::Zero | Source::One | Source::Empty => None,
    }
}

/// An arc between the pins of two places, if the first is known.
fn arc_if(wire: bool, from: Option<u32>, to: u32) -> Option<Arc>
    ensures { option_to_list result ≡ arc_if wire from to }
{
    match from {
        Some(place) => Some(Arc {
            from: PinNo(place),
            to: PinNo(to),
            wire,
        }),
        None => None,
    }
}

/// The arc that ends at the pin of a place, by the tables of a list of pins.
fn arc_into(
    drivers: &[Option<u32>],
    feeders: &[Option<u32>],
    place: u32,
    pin: &PinUse,
) -> Option<Arc>
    ensures { (uses : List PinUse) →
        ArePlaces (length drivers.now) (length feeders.now) uses drivers.now feeders.now →
        option_to_list result ≡ arcs_into (map driven uses) (map fed uses) place pin.now }
{
    match pin.role {
        PinRole::Input | PinRole::Clock | PinRole::Data | PinRole::OutPort => {
            arc_if(true, driver_of(drivers, pin.source), place)
        }
        PinRole::Output => arc_if(false, place_at(feeders, pin.inst), place),
        PinRole::Launch | PinRole::InPort | PinRole::Stray => None,
    }
}

/// The arcs into the pins, in the order of pins.
pub(crate) fn arcs_of(
    alloc: Global,
    uses: &[PinUse],
    drivers: &[Option<u32>],
    feeders: &[Option<u32>],
) -> Result<Vec<Arc>, Memory>
    requires places { ArePlaces (length drivers.now) (length feeders.now) uses.now drivers.now feeders.now }
    requires count { length uses.now ≤ 2 ^ 20 }
    ensures { IfOk result (λ arcs. arcs.items ≡ arcs_from (map driven uses.now) (map fed uses.now) 0 uses.now) }
{
    let mut arcs = Vec::new(alloc);
    for (place, pin) in uses.iter().enumerate() {
        if let Some(arc) = arc_into(drivers, feeders, place as u32, pin) {
            arcs.push(arc)?;
        }
    }
    Ok(arcs)
}

/// What the arcs into the pins add, in fs, in the order of `arcs_of`.
pub(crate) fn steps_of(
    alloc: Global,
    uses: &[PinUse],
    drivers: &[Option<u32>],
    feeders: &[Option<u32>],
) -> Result<Vec<Interval>, Memory>
    requires places { ArePlaces (length drivers.now) (length feeders.now) uses.now drivers.now feeders.now }
    requires count { length uses.now ≤ 2 ^ 20 }
    ensures { IfOk result (λ steps. steps.items ≡ steps_from (map driven uses.now) (map fed uses.now) 0 uses.now) }
{
    let mut steps = Vec::new(alloc);
    for (place, pin) in uses.iter().enumerate() {
        if arc_into(drivers, feeders, place as u32, pin).is_some() {
            steps.push(step_span(pin))?;
        }
    }
    Ok(steps)
}

//! The lists of timing graphs, as tests write them down.

use hold_base::PinNo;
use hold_graph::{Arc, Parts};

/// What a graph is made of, in any order. An arc is its two pins and whether it leads along a wire.
#[derive(Clone, Copy)]
pub(crate) struct Lists {
    pub pins: u32,
    pub arcs: &'static [(u32, u32, bool)],
    pub launches: &'static [u32],
    pub captures: &'static [u32],
    pub clocks: &'static [u32],
    pub keeps: &'static [u32],
}

/// Nothing at all.
pub(crate) const NONE: Lists = Lists {
    pins: 0,
    arcs: &[],
    launches: &[],
    captures: &[],
    clocks: &[],
    keeps: &[],
};

/// Whether exactly these pins are listed, each once.
fn are_pins(listed: &[PinNo], pins: &[u32]) -> bool {
    listed.len() == pins.len() && pins.iter().all(|pin| listed.contains(&PinNo(*pin)))
}

/// Whether exactly these arcs are listed, each once.
fn are_arcs(listed: &[Arc], arcs: &[(u32, u32, bool)]) -> bool {
    listed.len() == arcs.len()
        && arcs.iter().all(|(from, to, wire)| {
            listed.contains(&Arc {
                from: PinNo(*from),
                to: PinNo(*to),
                wire: *wire,
            })
        })
}

/// Whether the parts have exactly these lists.
pub(crate) fn are_listed(parts: &Parts, lists: Lists) -> bool {
    parts.pins == lists.pins
        && are_arcs(parts.arcs.as_slice(), lists.arcs)
        && are_pins(parts.launches.as_slice(), lists.launches)
        && are_pins(parts.captures.as_slice(), lists.captures)
        && are_pins(parts.clocks.as_slice(), lists.clocks)
        && are_pins(parts.keeps.as_slice(), lists.keeps)
}

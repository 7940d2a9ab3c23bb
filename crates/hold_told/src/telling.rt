ghost use Rattle.std.specs.Prelude.{◌≡◌, ℕ, IfOk, OnOk, Err};
ghost use Rattle.std.specs.List.{AllByRecursion};
ghost use Rattle.hold_base.specs.Answers.{Answers, IfFault};
ghost use Rattle.hold_build.specs.Listing.{StandsOnce};
ghost use Rattle.hold_netlist.specs.Pins.{pins_of};
ghost use Rattle.hold_told.specs.Entries.{IsPlaced, place_of};
ghost use Rattle.hold_told.specs.Told.{AreTold, IsFirstStray};
ghost use Rattle.hold_told.specs.inner.Told.{IsUntold};

use crate::joining::join;
use crate::names::Names;
use crate::places::entry_place;
use crate::stray::Stray;
use crate::told::Told;
use hold_base::{Memory, Stop};
use hold_graph::Graph;
use hold_roles::Bound;
use hold_sdf::Entry;
use std::alloc::Global;

/// Nothing told yet, with room for what may be told of a graph.
fn untold(alloc: Global, graph: &Graph) -> Result<Told, Memory>
    ensures { IfOk result (IsUntold graph.now) }
{
    let parts = graph.parts();
    let pins = parts.pins as usize;
    Ok(Told {
        spans: vec![in alloc; None; parts.arcs.as_slice().len()]?,
        delays: vec![in alloc; None; pins]?,
        setups: vec![in alloc; None; pins]?,
        holds: vec![in alloc; None; pins]?,
    })
}

/// The place in its text at which an entry stands.
fn text_place(entry: &Entry) -> u64
    ensures { result ≡ place_of entry.now }
{
    match entry {
        Entry::Cell { at, .. } => *at,
        Entry::Wire { at, .. } => *at,
        Entry::Check { at, .. } => *at,
    }
}

/// What the entries of a corner's SDF text tell of the arcs and pins of a netlist's graph, in fs; or the first entry that is stray.
pub fn tell(
    alloc: Global,
    bound: &Bound,
    graph: &Graph,
    entries: &[Entry],
) -> Result<Told, Stop<Stray>>
    requires pins { graph.now.pins ≡ pins_of bound.now.netlist }
    requires once { StandsOnce graph.now.arcs }
    ensures told { IfOk result (AreTold bound.now graph.now entries.now) }
    ensures placed { OnOk result (AllByRecursion (IsPlaced bound.now) entries.now) }
    ensures stray { IfFault result (λ stray. IsFirstStray bound.now entries.now stray.at) }
    ensures accepted { AllByRecursion (IsPlaced bound.now) entries.now → IfFault result (λ stray. ⊥) }
    ensures refused { (at : ℕ) → IsFirstStray bound.now entries.now at → Answers result (Err (record { at = at })) }
{
    let names = Names::of(alloc, bound.netlist())?;
    let mut told = untold(alloc, graph)?;
    for entry in entries {
        let Some(place) = entry_place(&names, bound, entry) else {
            let at = text_place(entry);
            return Err(Stop::Fault(Stray { at }));
        };
        join(&mut told, graph, place);
    }
    Ok(told)
}

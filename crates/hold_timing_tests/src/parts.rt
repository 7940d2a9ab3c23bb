//! The graph of a sketch.

ghost use Rattle.std.specs.Prelude.{◌≡◌, ◌<◌, IfOk, All, length};
ghost use Rattle.hold_graph.specs.Graph.{AreBelow, NamesItsPins};

use crate::problem::Unfit;
use crate::sketch::Sketch;
use hold_base::{List, PinNo, Stop};
use hold_graph::{Arc, Parts};
use std::alloc::Global;

/// The pins of these numbers.
fn pins_of(alloc: Global, pins: u32, numbers: &[u32]) -> Result<List<PinNo>, Stop<Unfit>>
    ensures { IfOk result (AreBelow pins) }
{
    let mut listed = Vec::new(alloc);
    for number in numbers {
        if *number >= pins {
            return Err(Stop::Fault(Unfit::Pin));
        }
        listed.push(PinNo(*number))?;
    }
    Ok(List::from_vec(listed))
}

/// The arcs between these pins.
fn arcs_of(alloc: Global, pins: u32, arcs: &[(u32, u32, bool)]) -> Result<List<Arc>, Stop<Unfit>>
    ensures from { IfOk result (All (λ arc. arc.from.0 < pins)) }
    ensures to { IfOk result (All (λ arc. arc.to.0 < pins)) }
    ensures each { IfOk result (λ made. length made ≡ length arcs.now) }
{
    let mut made = Vec::new(alloc);
    for (from, to, wire) in arcs {
        if *from >= pins || *to >= pins {
            return Err(Stop::Fault(Unfit::Pin));
        }
        made.push(Arc {
            from: PinNo(*from),
            to: PinNo(*to),
            wire: *wire,
        })?;
    }
    Ok(List::from_vec(made))
}

/// The parts of the graph.
pub(crate) fn parts_of(alloc: Global, sketch: Sketch<'_>) -> Result<Parts, Stop<Unfit>>
    ensures numbers { IfOk result NamesItsPins }
    ensures pins { IfOk result (λ parts. parts.pins ≡ sketch.entry.pins) }
    ensures arcs { IfOk result (λ parts. length parts.arcs ≡ length sketch.entry.arcs.now) }
{
    Ok(Parts {
        pins: sketch.pins,
        arcs: arcs_of(alloc, sketch.pins, sketch.arcs)?,
        launches: pins_of(alloc, sketch.pins, sketch.launches)?,
        captures: pins_of(alloc, sketch.pins, sketch.captures)?,
        clocks: List::from_vec(Vec::new(alloc)),
        keeps: List::from_vec(Vec::new(alloc)),
    })
}

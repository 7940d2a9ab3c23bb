ghost use Rattle.std.specs.Prelude.{◌<◌, ◌≤◌, IfOk, IfSome, All, length};
ghost use Rattle.hold_base.specs.Limits.{arcs_limit};
ghost use Rattle.hold_graph.specs.Graph.{AreBelow, NamesItsPins};

use hold_base::{List, Memory, PinNo};
use hold_graph::{Arc, Parts};
use std::alloc::Global;

/// A graph as a test writes it down: an arc is its two pins and whether it is a wire.
#[derive(Clone, Copy)]
pub struct Shape<'a> {
    pub pins: u32,
    pub arcs: &'a [(u32, u32, bool)],
    pub launches: &'a [u32],
    pub captures: &'a [u32],
    pub clocks: &'a [u32],
    pub keeps: &'a [u32],
}

/// The pins of these numbers that are below `pins`.
fn pins_of(alloc: Global, pins: u32, numbers: &[u32]) -> Result<List<PinNo>, Memory>
    ensures { IfOk result (AreBelow pins) }
{
    let mut listed = Vec::new(alloc);
    for number in numbers {
        if *number < pins {
            listed.push(PinNo(*number))?;
        }
    }
    Ok(List::from_vec(listed))
}

/// The arcs between pins that are below `pins`.
fn arcs_of(alloc: Global, pins: u32, arcs: &[(u32, u32, bool)]) -> Result<List<Arc>, Memory>
    requires { length arcs.now ≤ arcs_limit }
    ensures from { IfOk result (All (λ arc. arc.from.0 < pins)) }
    ensures to { IfOk result (All (λ arc. arc.to.0 < pins)) }
    ensures few { IfOk result (λ made. length made ≤ arcs_limit) }
{
    let mut made = Vec::new(alloc);
    for (from, to, wire) in arcs {
        if *from < pins && *to < pins {
            made.push(Arc {
                from: PinNo(*from),
                to: PinNo(*to),
                wire: *wire,
            })?;
        }
    }
    Ok(List::from_vec(made))
}

/// The parts of a shape. What names a pin that isn't there is left out.
pub fn parts_of(alloc: Global, shape: Shape<'_>) -> Result<Parts, Memory>
    requires { length shape.arcs.now ≤ arcs_limit }
    ensures numbers { IfOk result NamesItsPins }
    ensures few { IfOk result (λ parts. length parts.arcs ≤ arcs_limit) }
{
    Ok(Parts {
        pins: shape.pins,
        arcs: arcs_of(alloc, shape.pins, shape.arcs)?,
        launches: pins_of(alloc, shape.pins, shape.launches)?,
        captures: pins_of(alloc, shape.pins, shape.captures)?,
        clocks: pins_of(alloc, shape.pins, shape.clocks)?,
        keeps: pins_of(alloc, shape.pins, shape.keeps)?,
    })
}

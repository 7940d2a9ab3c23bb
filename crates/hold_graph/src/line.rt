ghost use Rattle.std.specs.Prelude.{◌≡◌, ◌<◌, ◌≤◌, length, IfOk, All};
ghost use Rattle.hold_base.specs.Limits.{arcs_limit};
ghost use Rattle.hold_graph.specs.Graph.{AreBelow, EndsOnce, NamesItsPins, Rises};
ghost use Rattle.hold_graph.specs.Cycles.{AreDifferent};
ghost use Rattle.hold_graph.specs.inner.Order.{AreRanks, IsInto};

use crate::graph::{Arc, Graph, Parts};
use hold_base::{Memory, PinNo, Stop};
use std::alloc::Global;

/// The arcs of a graph in which at most one arc ends at each pin, with what the pass over them reads.
#[derive(Clone, Copy)]
pub(crate) struct Ordered<'a> {
    pub pins: u32,
    pub arcs: &'a [Arc],
    /// By pin, its place in the order.
    pub ranks: &'a [u32],
    /// The pins in an order in which each arc runs forward.
    pub order: &'a [PinNo],
    /// By pin, the place of the arc that ends there.
    pub into: &'a [Option<usize>],
}

impl Graph {
    /// A graph whose arcs run from lower ranks to higher ones, so that it has no cycle.
    pub fn line(alloc: Global, parts: Parts, ranks: Vec<u32>) -> Result<Graph, Memory>
        requires numbers { NamesItsPins parts }
        requires few { length parts.arcs ≤ arcs_limit }
        requires rising { Rises parts.arcs ranks.items }
        ensures { IfOk result (λ graph. graph ≡ parts) }
    {
        match Graph::make(alloc, parts) {
            Ok(graph) => Ok(graph),
            Err(Stop::Memory) => Err(Memory),
            Err(Stop::Fault(_)) => unreachable!(),
        }
    }
}

/// By pin, its place in the order.
pub(crate) fn ranks_of(alloc: Global, pins: u32, order: &[PinNo]) -> Result<Vec<u32>, Memory>
    requires few { length order.now ≡ pins }
    requires below { AreBelow pins order.now }
    requires different { AreDifferent order.now }
    ensures len { IfOk result (λ ranks. length ranks.items ≡ pins) }
    ensures ranks { IfOk result (λ ranks. AreRanks order.now ranks.items) }
{
    let mut ranks = vec![in alloc; 0u32; pins as usize]?;
    for (place, pin) in order.iter().enumerate() {
        ranks[pin.0 as usize] = place as u32;
    }
    Ok(ranks)
}

/// By pin, the place of the arc that ends there, none where no arc does.
pub(crate) fn places_into(
    alloc: Global,
    pins: u32,
    arcs: &[Arc],
) -> Result<Vec<Option<usize>>, Memory>
    requires once { EndsOnce arcs.now }
    requires below { All (λ arc. arc.to.0 < pins) arcs.now }
    ensures len { IfOk result (λ into. length into.items ≡ pins) }
    ensures places { IfOk result (λ into. IsInto arcs.now into.items) }
{
    let mut into = vec![in alloc; None; pins as usize]?;
    for (place, arc) in arcs.iter().enumerate() {
        into[arc.to.0 as usize] = Some(place);
    }
    Ok(into)
}

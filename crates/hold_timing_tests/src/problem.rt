//! The problem of a sketch.

ghost use Rattle.std.specs.Prelude.{◌≡◌, ◌≤◌, ◌≤ℤ◌, IfOk, IsTrue, All, length, pos};
ghost use Rattle.hold_base.specs.Limits.{arcs_limit, bound_pins_limit, corners_limit, cost_limit, kinds_limit, time_limit};
ghost use Rattle.hold_graph.specs.Graph.{NamesItsPins};
ghost use Rattle.hold_graph.specs.Problem.{IsValid};
ghost use Rattle.hold_timing_tests.specs.Sketch.{IsCornerOver};

use crate::corner::corner_of;
use crate::parts::parts_of;
use crate::sketch::{Corner, Sketch};
use hold_base::{List, Memory, Stop, limits};
use hold_graph::{Graph, Parts, Problem, Spans};
use std::alloc::Global;

/// Why a sketch is no problem.
#[derive(Clone, Copy, Debug, PartialEq, Eq)]
pub enum Unfit {
    /// It names a pin that isn't there.
    Pin,
    /// Its arcs have a cycle.
    Cycle,
    /// It passes a limit of problems.
    Limit,
}

/// Whether the numbers of a sketch are within the limits of problems.
fn fits_limits(sketch: Sketch<'_>) -> bool
    ensures pins { IsTrue result → sketch.entry.pins ≤ bound_pins_limit }
    ensures arcs { IsTrue result → length sketch.entry.arcs.now ≤ arcs_limit }
    ensures kinds { IsTrue result → sketch.entry.kinds ≤ kinds_limit }
    ensures some_corner { IsTrue result → 1 ≤ length sketch.entry.corners.now }
    ensures corners { IsTrue result → length sketch.entry.corners.now ≤ corners_limit }
    ensures period_least { IsTrue result → pos 1 ≤ℤ sketch.entry.period }
    ensures period_most { IsTrue result → sketch.entry.period ≤ℤ pos time_limit }
{
    let corners = sketch.corners.len();
    sketch.pins <= 1048576
        && sketch.arcs.len() <= 4194304
        && sketch.kinds <= 8
        && 1 <= corners
        && corners <= 8
        && 1 <= sketch.period
        && sketch.period <= limits::TIME
}

fn graph_of(alloc: Global, parts: Parts) -> Result<Graph, Stop<Unfit>>
    requires numbers { NamesItsPins parts }
    requires few { length parts.arcs ≤ arcs_limit }
    ensures { IfOk result (λ graph. graph ≡ parts) }
{
    match Graph::make(alloc, parts) {
        Ok(graph) => Ok(graph),
        Err(Stop::Memory) => Err(Stop::Memory),
        Err(Stop::Fault(_)) => Err(Stop::Fault(Unfit::Cycle)),
    }
}

/// The cost of each kind.
fn costs_of(alloc: Global, kinds: usize) -> Result<List<u64>, Memory>
    requires { kinds ≤ kinds_limit }
    ensures each { IfOk result (λ costs. length costs ≡ kinds) }
    ensures least { IfOk result (All (λ cost. 1 ≤ cost)) }
    ensures most { IfOk result (All (λ cost. cost ≤ cost_limit)) }
{
    let mut costs = Vec::new(alloc);
    for kind in 0..kinds {
        costs.push(kind as u64 + 1)?;
    }
    Ok(List::from_vec(costs))
}

fn corners_of(
    alloc: Global,
    parts: &Parts,
    kinds: usize,
    corners: &[Corner<'_>],
) -> Result<List<Spans>, Memory>
    ensures each { IfOk result (λ all. length all ≡ length corners.now) }
    ensures fit { IfOk result (All (IsCornerOver parts.now kinds)) }
{
    let mut all = Vec::new(alloc);
    for corner in corners {
        all.push(corner_of(alloc, parts, kinds, *corner)?)?;
    }
    Ok(List::from_vec(all))
}

/// The problem of a sketch, which is valid.
pub fn problem_of(alloc: Global, sketch: Sketch<'_>) -> Result<Problem, Stop<Unfit>>
    ensures { IfOk result IsValid }
{
    if !fits_limits(sketch) {
        return Err(Stop::Fault(Unfit::Limit));
    }
    let graph = graph_of(alloc, parts_of(alloc, sketch)?)?;
    let costs = costs_of(alloc, sketch.kinds)?;
    let corners = corners_of(alloc, graph.parts(), sketch.kinds, sketch.corners)?;
    Ok(Problem {
        graph,
        period: sketch.period,
        max_chain: 16,
        costs,
        corners,
    })
}

ghost use Rattle.std.specs.Prelude.{◌≡◌, ◌≤◌, ◌∷◌, [], IfOk, length};
ghost use Rattle.hold_base.specs.Limits.{arcs_limit, bound_pins_limit, cost_limit};
ghost use Rattle.hold_graph.specs.Problem.{IsValid};
ghost use Rattle.hold_graph_tests.specs.Zero.{zero_spans};

use hold_base::{Interval, List, Memory};
use hold_graph::{Graph, Parts, Problem, Spans};
use std::alloc::Global;

/// Times of a corner in which everything takes no time.
fn zero_spans(alloc: Global, parts: &Parts, kinds: usize) -> Result<Spans, Memory>
    ensures { IfOk result (λ spans. spans ≡ zero_spans parts.now kinds) }
{
    let zero = Interval {
        least: 0,
        greatest: 0,
    };
    let captures = parts.captures.as_slice().len();
    Ok(Spans {
        arcs: List::from_vec(vec![in alloc; zero; parts.arcs.as_slice().len()]?),
        launch: List::from_vec(vec![in alloc; zero; parts.launches.as_slice().len()]?),
        capture: List::from_vec(vec![in alloc; zero; captures]?),
        setup: List::from_vec(vec![in alloc; 0i64; captures]?),
        hold: List::from_vec(vec![in alloc; 0i64; captures]?),
        kinds: List::from_vec(vec![in alloc; zero; kinds]?),
    })
}

/// A problem over the graph: two kinds of these costs, at most four buffers at a site, and one corner in which everything takes no
/// time.
pub fn problem_of(alloc: Global, graph: Graph, first: u64, second: u64) -> Result<Problem, Memory>
    requires pins { graph.pins ≤ bound_pins_limit }
    requires arcs { length graph.arcs ≤ arcs_limit }
    requires first_least { 1 ≤ first }
    requires first_most { first ≤ cost_limit }
    requires second_least { 1 ≤ second }
    requires second_most { second ≤ cost_limit }
    ensures valid { IfOk result IsValid }
    ensures costs { IfOk result (λ problem. problem.costs ≡ first ∷ second ∷ []) }
{
    let spans = zero_spans(alloc, graph.parts(), 2)?;
    Ok(Problem {
        graph,
        period: 1000,
        max_chain: 4,
        costs: List::from_vec(Vec::from_array(alloc, [first, second])?),
        corners: List::from_vec(Vec::from_array(alloc, [spans])?),
    })
}

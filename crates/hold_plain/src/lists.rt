ghost use Rattle.std.specs.Prelude.{◌≡◌, ◌≤◌, ◌≤ℤ◌, ◌^◌, [], ◌∷◌, All, IfOk, length, pos};
ghost use Rattle.hold_graph.specs.Graph.{EndsOnce};
ghost use Rattle.hold_graph.specs.Problem.{IsValid};
ghost use Rattle.hold_base.specs.Limits.{time_limit};
ghost use Rattle.hold_plain.specs.inner.Keys.{ArePlaces};
ghost use Rattle.hold_plain.specs.inner.Limits.{IsTimed};
ghost use Rattle.hold_plain.specs.Problem.{parts_of, problem_with, spans_of};
ghost use Rattle.hold_plain.specs.Served.{IsServedUses};

use crate::arcs::{arcs_of, steps_of};
use crate::pin_use::PinUse;
use crate::ranks::ranks_of;
use crate::registers::{RegisterPin, capture_spans, check_times, launch_spans, pins_of};
use hold_base::{List, Memory, Side};
use hold_graph::{Graph, Parts, Problem, Spans};
use std::alloc::Global;

/// The graph of a list of pins.
fn parts_of(
    alloc: Global,
    uses: &[PinUse],
    drivers: &[Option<u32>],
    feeders: &[Option<u32>],
) -> Result<Parts, Memory>
    requires places { ArePlaces (length drivers.now) (length feeders.now) uses.now drivers.now feeders.now }
    requires count { length uses.now ≤ 2 ^ 20 }
    ensures { IfOk result (λ parts. parts ≡ parts_of uses.now) }
{
    let arcs = arcs_of(alloc, uses, drivers, feeders)?;
    let launches = pins_of(alloc, RegisterPin::Output, uses)?;
    let captures = pins_of(alloc, RegisterPin::Data, uses)?;
    let clocks = pins_of(alloc, RegisterPin::Clock, uses)?;
    Ok(Parts {
        pins: uses.len() as u32,
        arcs: List::from_vec(arcs),
        launches: List::from_vec(launches),
        captures: List::from_vec(captures),
        clocks: List::from_vec(clocks),
        keeps: List::from_vec(Vec::new(alloc)),
    })
}

/// The times of a list of pins, in fs.
fn spans_of(
    alloc: Global,
    uses: &[PinUse],
    drivers: &[Option<u32>],
    feeders: &[Option<u32>],
) -> Result<Spans, Memory>
    requires places { ArePlaces (length drivers.now) (length feeders.now) uses.now drivers.now feeders.now }
    requires count { length uses.now ≤ 2 ^ 20 }
    requires timed { All IsTimed uses.now }
    ensures { IfOk result (λ spans. spans ≡ spans_of uses.now) }
{
    let arcs = steps_of(alloc, uses, drivers, feeders)?;
    let launch = launch_spans(alloc, uses)?;
    let capture = capture_spans(alloc, uses)?;
    let setup = check_times(alloc, Side::Late, uses)?;
    let hold = check_times(alloc, Side::Early, uses)?;
    Ok(Spans {
        arcs: List::from_vec(arcs),
        launch: List::from_vec(launch),
        capture: List::from_vec(capture),
        setup: List::from_vec(setup),
        hold: List::from_vec(hold),
        kinds: List::from_vec(Vec::new(alloc)),
    })
}

/// The times of the one corner that there is.
fn one_corner(alloc: Global, spans: Spans) -> Result<List<Spans>, Memory>
    ensures { IfOk result (λ corners. corners ≡ spans ∷ []) }
{
    let mut corners = Vec::with_capacity(alloc, 1)?;
    corners.push(spans)?;
    Ok(List::from_vec(corners))
}

/// The timing problem of a list of pins that is served, by its tables of places; the period is in fs. It
/// has one corner, and no buffer may be put.
pub(crate) fn problem_with(
    alloc: Global,
    period: i64,
    uses: &[PinUse],
    drivers: &[Option<u32>],
    feeders: &[Option<u32>],
) -> Result<Problem, Memory>
    requires served { IsServedUses uses.now }
    requires places { ArePlaces (length drivers.now) (length feeders.now) uses.now drivers.now feeders.now }
    requires timed { All IsTimed uses.now }
    requires low { pos 1 ≤ℤ period }
    requires high { period ≤ℤ pos time_limit }
    requires insts { All (λ u. u.inst ≤ 2 ^ 18) uses.now }
    ensures is { IfOk result (λ problem. problem ≡ problem_with period uses.now) }
    ensures valid { IfOk result (λ problem. IsValid problem) }
    ensures once { IfOk result (λ problem. EndsOnce problem.graph.arcs) }
{
    let parts = parts_of(alloc, uses, drivers, feeders)?;
    let ranks = ranks_of(alloc, uses)?;
    let graph = Graph::line(alloc, parts, ranks)?;
    let spans = spans_of(alloc, uses, drivers, feeders)?;
    let corners = one_corner(alloc, spans)?;
    Ok(Problem {
        graph,
        period,
        max_chain: 0,
        costs: List::from_vec(Vec::new(alloc)),
        corners,
    })
}

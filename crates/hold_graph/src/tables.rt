ghost use Rattle.hold_graph.specs.inner.Tables.{AreSized, AreTablesOf};
ghost use Rattle.hold_graph.specs.inner.Ordered.{IsOrderedOf};
ghost use Rattle.hold_graph.specs.Problem.{IsValid, IsValidCorner};
ghost use Rattle.std.specs.Prelude.{◌≡◌, IfOk};
ghost use Rattle.hold_graph.specs.inner.Arrival.{checks_of};

use crate::arrival::arrivals;
use crate::line::Ordered;
use crate::problem::{Problem, Spans};
use crate::side::{negated, opposite, weights};
use crate::table::least_by_pin;
use hold_base::{List, Memory, Side};
use std::alloc::Global;

/// What the sums of one side of one corner are read from. All but the first go by pin.
#[derive(Drop)]
pub(crate) struct Tables {
    /// By arc, what it adds.
    pub steps: Vec<i64>,
    /// What a walk has that begins at the pin.
    pub starts: Vec<Option<i64>>,
    /// The least sum of a walk to the pin.
    pub best: Vec<Option<i64>>,
    /// What the clock takes away from a path that ends at the pin.
    pub ends: Vec<Option<i64>>,
    /// What the check takes away from it.
    pub checks: Vec<Option<i64>>,
}

/// The times that the check of a side takes away.
fn checks(side: Side, spans: &Spans) -> &List<i64>
    ensures { result.now ≡ checks_of side spans.now }
{
    match side {
        Side::Early => &spans.hold,
        Side::Late => &spans.setup,
    }
}

/// The tables of one side of a corner.
pub(crate) fn tables_of(
    alloc: Global,
    problem: &Problem,
    line: &Ordered<'_>,
    spans: &Spans,
    side: Side,
) -> Result<Tables, Memory>
    requires valid { IsValid problem.now }
    requires line { IsOrderedOf problem.now.graph line.now }
    requires corner { IsValidCorner problem.now spans.now }
    ensures sized { IfOk result (λ tables. AreSized line.now tables) }
    ensures tables { IfOk result (λ tables. AreTablesOf side problem.now.graph spans.now line.now tables) }
{
    let parts = problem.graph.parts();
    let steps = weights(alloc, side, spans.arcs.as_slice())?;
    let launch = weights(alloc, side, spans.launch.as_slice())?;
    let starts = least_by_pin(
        alloc,
        parts.pins,
        parts.launches.as_slice(),
        launch.as_slice(),
    )?;
    let best = arrivals(alloc, line, steps.as_slice(), starts.as_slice())?;
    let capture = weights(alloc, opposite(side), spans.capture.as_slice())?;
    let ends = least_by_pin(
        alloc,
        parts.pins,
        parts.captures.as_slice(),
        capture.as_slice(),
    )?;
    let check = negated(alloc, checks(side, spans).as_slice())?;
    let checks = least_by_pin(
        alloc,
        parts.pins,
        parts.captures.as_slice(),
        check.as_slice(),
    )?;
    Ok(Tables {
        steps,
        starts,
        best,
        ends,
        checks,
    })
}

ghost use Rattle.std.specs.Prelude.{IfOk, IfSome, IfNone};
ghost use Rattle.hold_graph.specs.Graph.{EndsOnce};
ghost use Rattle.hold_graph.specs.Problem.{IsValid, IsValidCorner};
ghost use Rattle.hold_graph.specs.Sums.{no_buffers};
ghost use Rattle.hold_graph.specs.Met.{IsMet, Misses};
ghost use Rattle.hold_graph.specs.inner.Arrival.{IsMetAt, IsShort};
ghost use Rattle.hold_graph.specs.inner.Ordered.{IsOrderedOf};

use crate::line::{Ordered, places_into, ranks_of};
use crate::problem::{Listed, Problem, Spans};
use crate::short::{base, first_short};
use crate::tables::tables_of;
use crate::walk::path_to;
use hold_base::{CornerNo, List, Memory, PinNo, Side};
use std::alloc::Global;

/// A checked path that misses the side's check of this corner, and by how much.
fn short_path(
    alloc: Global,
    problem: &Problem,
    line: &Ordered<'_>,
    spans: &Spans,
    side: Side,
) -> Result<Option<(Vec<PinNo>, i64)>, Memory>
    requires valid { IsValid problem.now }
    requires line { IsOrderedOf problem.now.graph line.now }
    requires corner { IsValidCorner problem.now spans.now }
    ensures met { IfOk result (λ found. IfNone found (IsMetAt side problem.now spans.now)) }
    ensures missed { IfOk result (λ found. IfSome found (λ miss. IsShort side problem.now spans.now miss.0.items miss.1)) }
{
    let tables = tables_of(alloc, problem, line, spans, side)?;
    let captures = problem.graph.parts().captures.as_slice();
    match first_short(line, &tables, base(side, problem.period), captures) {
        None => Ok(None),
        Some((capture, short)) => {
            let starts = tables.starts.as_slice();
            let path = path_to(alloc, line, starts, tables.best.as_slice(), capture)?;
            Ok(Some((path, short)))
        }
    }
}

/// The same at both sides of a corner, the early one first.
fn short_in_corner(
    alloc: Global,
    problem: &Problem,
    line: &Ordered<'_>,
    spans: &Spans,
) -> Result<Option<(Side, Vec<PinNo>, i64)>, Memory>
    requires valid { IsValid problem.now }
    requires line { IsOrderedOf problem.now.graph line.now }
    requires corner { IsValidCorner problem.now spans.now }
    ensures early { IfOk result (λ found. IfNone found (IsMetAt Side.Early problem.now spans.now)) }
    ensures late { IfOk result (λ found. IfNone found (IsMetAt Side.Late problem.now spans.now)) }
    ensures missed { IfOk result (λ found. IfSome found (λ miss. IsShort miss.0 problem.now spans.now miss.1.items miss.2)) }
{
    if let Some((path, short)) = short_path(alloc, problem, line, spans, Side::Early)? {
        return Ok(Some((Side::Early, path, short)));
    }
    match short_path(alloc, problem, line, spans, Side::Late)? {
        Some((path, short)) => Ok(Some((Side::Late, path, short))),
        None => Ok(None),
    }
}

/// The same in the first corner in which one misses.
fn short_in_problem(
    alloc: Global,
    problem: &Problem,
    line: &Ordered<'_>,
) -> Result<Option<(Listed, i64)>, Memory>
    requires valid { IsValid problem.now }
    requires line { IsOrderedOf problem.now.graph line.now }
    ensures met { IfOk result (λ found. IfNone found (IsMet problem.now no_buffers)) }
    ensures missed { IfOk result (λ found. IfSome found (λ miss. Misses problem.now no_buffers miss.0 miss.1)) }
{
    for (number, spans) in problem.corners.as_slice().iter().enumerate() {
        if let Some((side, pins, short)) = short_in_corner(alloc, problem, line, spans)? {
            let listed = Listed {
                side,
                corner: CornerNo(number as u8),
                pins: List::from_vec(pins),
            };
            return Ok(Some((listed, short)));
        }
    }
    Ok(None)
}

/// A checked path that misses a check where no buffer is put in, and by how much, in fs. None comes where
/// every checked path meets both its checks in every corner. Corners and sides are asked in their order.
pub fn worst_line(alloc: Global, problem: &Problem) -> Result<Option<(Listed, i64)>, Memory>
    requires valid { IsValid problem.now }
    requires once { EndsOnce problem.now.graph.arcs }
    ensures met { IfOk result (λ found. IfNone found (IsMet problem.now no_buffers)) }
    ensures missed { IfOk result (λ found. IfSome found (λ miss. Misses problem.now no_buffers miss.0 miss.1)) }
{
    let parts = problem.graph.parts();
    let arcs = parts.arcs.as_slice();
    let order = problem.graph.order();
    let ranks = ranks_of(alloc, parts.pins, order)?;
    let into = places_into(alloc, parts.pins, arcs)?;
    let line = Ordered {
        pins: parts.pins,
        arcs,
        ranks: ranks.as_slice(),
        order,
        into: into.as_slice(),
    };
    short_in_problem(alloc, problem, &line)
}

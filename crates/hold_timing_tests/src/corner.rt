//! The times of a corner of a sketch.

ghost use Rattle.std.specs.Prelude.{◌≡◌, IfOk, All, length, ◌≤ℤ◌};
ghost use Rattle.hold_base.specs.Limits.{time_limit};
ghost use Rattle.hold_graph.specs.Problem.{IsSpan, IsWithin};
ghost use Rattle.hold_timing_tests.specs.Sketch.{IsCornerOver};

use crate::sketch::Corner;
use hold_base::{Interval, List, Memory};
use hold_graph::{Parts, Spans};
use std::alloc::Global;

/// A time, which counts as no less than `floor`.
fn raised(time: i32, floor: i32) -> i64
    ensures within { IsWithin time_limit result }
    ensures floor { floor ≤ℤ result }
{
    if time < floor {
        i64::from(floor)
    } else {
        i64::from(time)
    }
}

/// The span of these ends, of which none counts as less than `floor`.
fn span(ends: (i32, i32), floor: i32) -> Interval
    ensures span { IsSpan time_limit result }
    ensures floor { floor ≤ℤ result.least }
{
    let one = raised(ends.0, floor);
    let other = raised(ends.1, floor);
    if one <= other {
        Interval {
            least: one,
            greatest: other,
        }
    } else {
        Interval {
            least: other,
            greatest: one,
        }
    }
}

/// So many spans.
fn spans_of(
    alloc: Global,
    listed: &[(i32, i32)],
    count: usize,
    floor: i32,
) -> Result<List<Interval>, Memory>
    ensures each { IfOk result (λ spans. length spans ≡ count) }
    ensures spans { IfOk result (All (IsSpan time_limit)) }
    ensures floor { IfOk result (All (λ span. floor ≤ℤ span.least)) }
{
    let mut spans = Vec::new(alloc);
    for place in 0..count {
        let ends = listed.get(place).copied().unwrap_or((0, 0));
        spans.push(span(ends, floor))?;
    }
    Ok(List::from_vec(spans))
}

/// So many times.
fn times_of(alloc: Global, listed: &[i32], count: usize) -> Result<List<i64>, Memory>
    ensures each { IfOk result (λ times. length times ≡ count) }
    ensures within { IfOk result (All (IsWithin time_limit)) }
{
    let mut times = Vec::new(alloc);
    for place in 0..count {
        times.push(i64::from(listed.get(place).copied().unwrap_or(0)))?;
    }
    Ok(List::from_vec(times))
}

/// The times of the corner, for a graph of these parts and so many kinds.
pub(crate) fn corner_of(
    alloc: Global,
    parts: &Parts,
    kinds: usize,
    corner: Corner<'_>,
) -> Result<Spans, Memory>
    ensures { IfOk result (IsCornerOver parts.now kinds) }
{
    let arcs = parts.arcs.as_slice().len();
    let launches = parts.launches.as_slice().len();
    let captures = parts.captures.as_slice().len();
    Ok(Spans {
        arcs: spans_of(alloc, corner.arcs, arcs, i32::MIN)?,
        launch: spans_of(alloc, corner.launch, launches, i32::MIN)?,
        capture: spans_of(alloc, corner.capture, captures, i32::MIN)?,
        setup: times_of(alloc, corner.setup, captures)?,
        hold: times_of(alloc, corner.hold, captures)?,
        kinds: spans_of(alloc, corner.kinds, kinds, 0)?,
    })
}

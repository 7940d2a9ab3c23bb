ghost use Rattle.std.specs.Prelude.{◌≡◌, ◌<◌, length, map, None, Some, Contains, IfOk, slice_index_or, All, pos, ◌≤ℤ◌};
ghost use Rattle.hold_base.specs.Limits.{time_limit};
ghost use Rattle.hold_base.specs.declared.number.PinNo.{PinNo as Pin};
ghost use Rattle.hold_graph.specs.Met.{capture_at};
ghost use Rattle.hold_graph.specs.Problem.{IsValid, IsValidCorner, IsWithin};
ghost use Rattle.hold_graph.specs.Sums.{end_of};
ghost use Rattle.hold_timing.specs.Worst.{required_at};
ghost use Rattle.hold_timing.specs.inner.Pass.{required_limit, AreWithin};
ghost use Rattle.hold_timing.specs.inner.Required.{asked, check_at, opposite, or_zero};

use crate::spread::{no_times, spread_spans, spread_times};
use hold_base::{List, Memory, PinNo, Side};
use hold_graph::{Problem, Spans};
use std::alloc::Global;

/// The other side.
fn opposite(side: Side) -> Side
    ensures { result ≡ opposite side }
{
    match side {
        Side::Early => Side::Late,
        Side::Late => Side::Early,
    }
}

/// By pin, when the clock comes to a capture, at the end that the side's check looks at.
fn clocks(
    alloc: Global,
    problem: &Problem,
    spans: &Spans,
    side: Side,
) -> Result<Vec<Option<i64>>, Memory>
    requires corner { IsValidCorner problem.now spans.now }
    ensures len { IfOk result (λ table. length table.items ≡ problem.now.graph.pins) }
    ensures each { IfOk result (λ table. (pin : Pin) → Contains problem.now.graph.captures pin →
        slice_index_or table.items pin.0 None ≡ Some (end_of (opposite side) (capture_at problem.now.graph spans.now pin))) }
    ensures within { IfOk result (λ table. AreWithin time_limit table.items) }
{
    let parts = problem.graph.parts();
    let mut table = no_times(alloc, parts.pins)?;
    spread_spans(
        &mut table,
        opposite(side),
        parts.captures.as_slice(),
        spans.capture.as_slice(),
    );
    Ok(table)
}

/// The times of the side's check, by the place of a capture.
fn check_times(side: Side, spans: &Spans) -> &List<i64>
    ensures early { side ≡ Side.Early → result.now ≡ spans.now.hold }
    ensures late { side ≡ Side.Late → result.now ≡ spans.now.setup }
{
    match side {
        Side::Early => &spans.hold,
        Side::Late => &spans.setup,
    }
}

/// By pin, the greatest time of the side's check at a capture.
fn checks(
    alloc: Global,
    problem: &Problem,
    spans: &Spans,
    side: Side,
) -> Result<Vec<Option<i64>>, Memory>
    requires corner { IsValidCorner problem.now spans.now }
    ensures len { IfOk result (λ table. length table.items ≡ problem.now.graph.pins) }
    ensures each { IfOk result (λ table. (pin : Pin) → Contains problem.now.graph.captures pin →
        slice_index_or table.items pin.0 None ≡ Some (check_at side problem.now.graph spans.now pin)) }
    ensures within { IfOk result (λ table. AreWithin time_limit table.items) }
{
    let parts = problem.graph.parts();
    let mut table = no_times(alloc, parts.pins)?;
    spread_times(
        &mut table,
        Side::Late,
        parts.captures.as_slice(),
        check_times(side, spans).as_slice(),
    );
    Ok(table)
}

/// The time in the table at a pin, 0 where there is none.
fn time_at(table: &[Option<i64>], pin: PinNo) -> i64
    requires there { pin.0 < length table.now }
    requires within { AreWithin time_limit table.now }
    ensures value { result ≡ or_zero (slice_index_or table.now pin.0 None) }
    ensures within { IsWithin time_limit result }
{
    match table[pin.0 as usize] {
        Some(time) => time,
        None => 0,
    }
}

/// The time that the side's check asks for, of when the clock comes and of what the check takes.
fn asked(side: Side, period: i64, clock: i64, check: i64) -> i64
    requires period_least { pos 1 ≤ℤ period }
    requires period_most { period ≤ℤ pos time_limit }
    requires clock { IsWithin time_limit clock }
    requires check { IsWithin time_limit check }
    ensures value { result ≡ asked side period clock check }
    ensures within { IsWithin required_limit result }
{
    match side {
        Side::Early => clock + check,
        Side::Late => period + clock - check,
    }
}

/// By the place of a capture, the time that the side's check asks of the paths that end there.
pub(crate) fn required_times(
    alloc: Global,
    problem: &Problem,
    spans: &Spans,
    side: Side,
) -> Result<Vec<i64>, Memory>
    requires valid { IsValid problem.now }
    requires corner { IsValidCorner problem.now spans.now }
    ensures each { IfOk result (λ times. times.items ≡ map (required_at side problem.now spans.now) problem.now.graph.captures) }
    ensures within { IfOk result (λ times. All (IsWithin required_limit) times.items) }
{
    let captures = problem.graph.parts().captures.as_slice();
    let clocks = clocks(alloc, problem, spans, side)?;
    let checks = checks(alloc, problem, spans, side)?;
    let mut required = Vec::with_capacity(alloc, captures.len())?;
    for capture in captures {
        let clock = time_at(clocks.as_slice(), *capture);
        let check = time_at(checks.as_slice(), *capture);
        required.push(asked(side, problem.period, clock, check))?;
    }
    Ok(required)
}

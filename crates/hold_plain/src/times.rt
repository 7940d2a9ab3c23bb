ghost use Rattle.std.specs.Prelude.{◌≡◌, ◌+ℤ◌};
ghost use Rattle.hold_plain.specs.inner.Limits.{IsTimed};
ghost use Rattle.hold_plain.specs.Problem.{clock_span, hold_of, known_or, launch_span, no_check, setup_of, step_span, sum_of, zero_span};
ghost use Rattle.hold_graph.specs.Problem.{IsSpan, IsWithin};
ghost use Rattle.hold_base.specs.Limits.{time_limit};

use crate::cell::Check;
use crate::pin_use::{PinRole, PinUse};
use hold_base::Interval;

/// The span of what takes no time, or isn't known.
const ZERO_SPAN: Interval = Interval {
    least: 0,
    greatest: 0,
};

/// The span, 0 to 0 where there is none.
fn known_or_zero(span: Option<Interval>) -> Interval
    ensures { result ≡ known_or zero_span span }
{
    match span {
        Some(span) => span,
        None => ZERO_SPAN,
    }
}

/// What the arc into a pin adds, in fs: a cell arc its delay, a wire nothing.
pub(crate) fn step_span(pin: &PinUse) -> Interval
    ensures { result ≡ step_span pin.now }
{
    match pin.role {
        PinRole::Output => known_or_zero(pin.delay),
        _ => ZERO_SPAN,
    }
}

/// When the clock arrives at a pin's register, in fs.
pub(crate) fn clock_span(pin: &PinUse) -> Interval
    ensures { result ≡ clock_span pin.now }
{
    known_or_zero(pin.arrival)
}

/// The sum of two times, in fs.
fn added(a: i64, b: i64) -> i64
    requires first { IsWithin time_limit a }
    requires second { IsWithin time_limit b }
    ensures { result ≡ a +ℤ b }
{
    a + b
}

/// The sum of two spans, in fs, end by end.
fn sum_of(a: Interval, b: Interval) -> Interval
    requires first { IsSpan time_limit a }
    requires second { IsSpan time_limit b }
    ensures { result ≡ sum_of a b }
{
    Interval {
        least: added(a.least, b.least),
        greatest: added(a.greatest, b.greatest),
    }
}

/// When a register's output changes, in fs: its clock arrival and its delay from the clock.
#[tactic(auto, using(crate::proofs::SpanFacts::clock_span_within, crate::proofs::SpanFacts::delay_within))]
pub(crate) fn launch_span(pin: &PinUse) -> Interval
    requires { IsTimed pin.now }
    ensures { result ≡ launch_span pin.now }
{
    sum_of(clock_span(pin), known_or_zero(pin.delay))
}

/// The check of a pin, 0 where there is none.
fn known_check(pin: &PinUse) -> Check
    ensures { result ≡ known_or no_check pin.now.check }
{
    match pin.check {
        Some(check) => check,
        None => Check { setup: 0, hold: 0 },
    }
}

/// How long a data pin holds still before the clock, in fs.
pub(crate) fn setup_of(pin: &PinUse) -> i64
    ensures { result ≡ setup_of pin.now }
{
    known_check(pin).setup
}

/// How long a data pin holds still after the clock, in fs.
pub(crate) fn hold_of(pin: &PinUse) -> i64
    ensures { result ≡ hold_of pin.now }
{
    known_check(pin).hold
}

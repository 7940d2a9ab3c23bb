ghost use Rattle.std.specs.Prelude.{◌≡◌, IfOk, map, neg_ℤ, All};
ghost use Rattle.hold_graph.specs.Problem.{IsSpan, IsWithin};
ghost use Rattle.hold_base.specs.Limits.{launch_limit, time_limit};
ghost use Rattle.hold_graph.specs.inner.Arrival.{opposite, weight};

use hold_base::{Interval, Memory, Side};
use std::alloc::Global;

/// The other side.
pub(crate) fn opposite(side: Side) -> Side
    ensures { result ≡ opposite side }
{
    match side {
        Side::Early => Side::Late,
        Side::Late => Side::Early,
    }
}

/// The end of a span that the side looks at, negated at the late side: there the greatest sum is sought,
/// which is the least of the negated sums.
fn weight(side: Side, span: Interval) -> i64
    requires { IsSpan launch_limit span }
    ensures { result ≡ weight side span }
{
    match side {
        Side::Early => span.least,
        Side::Late => -span.greatest,
    }
}

/// The weights of spans, in their order.
pub(crate) fn weights(alloc: Global, side: Side, spans: &[Interval]) -> Result<Vec<i64>, Memory>
    requires { All (IsSpan launch_limit) spans.now }
    ensures { IfOk result (λ made. made.items ≡ map (weight side) spans.now) }
{
    let mut made = Vec::with_capacity(alloc, spans.len())?;
    for span in spans {
        made.push(weight(side, *span))?;
    }
    Ok(made)
}

/// What a time adds that is to be taken away.
fn negation(time: i64) -> i64
    requires { IsWithin time_limit time }
    ensures { result ≡ neg_ℤ time }
{
    -time
}

/// The times, each negated, in their order.
pub(crate) fn negated(alloc: Global, times: &[i64]) -> Result<Vec<i64>, Memory>
    requires { All (IsWithin time_limit) times.now }
    ensures { IfOk result (λ made. made.items ≡ map neg_ℤ times.now) }
{
    let mut made = Vec::with_capacity(alloc, times.len())?;
    for time in times {
        made.push(negation(*time))?;
    }
    Ok(made)
}

ghost use Rattle.std.specs.Prelude.{◌≡◌};
ghost use Rattle.hold_graph.specs.Sums.{end_of};
ghost use Rattle.hold_timing.specs.inner.Pass.{worse, worse_of};

use hold_base::{Interval, Side};

/// The end of a span that the side looks at.
pub(crate) fn end_of(side: Side, span: Interval) -> i64
    ensures { result ≡ end_of side span }
{
    match side {
        Side::Early => span.least,
        Side::Late => span.greatest,
    }
}

/// The worse of two times: early the lesser, late the greater.
fn worse_of(side: Side, a: i64, b: i64) -> i64
    ensures { result ≡ worse_of side a b }
{
    match side {
        Side::Early => a.min(b),
        Side::Late => a.max(b),
    }
}

/// The worse of two times, either of which may be missing.
pub(crate) fn worse(side: Side, a: Option<i64>, b: Option<i64>) -> Option<i64>
    ensures { result ≡ worse side a b }
{
    match (a, b) {
        (None, _) => b,
        (Some(x), None) => Some(x),
        (Some(x), Some(y)) => Some(worse_of(side, x, y)),
    }
}

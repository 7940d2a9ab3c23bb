ghost use Rattle.std.specs.Prelude.{◌≡◌, ◌<◌, ◌≤◌, ◌+◌, length, slice_index_or, None, All, List};
ghost use Rattle.hold_base.specs.Limits.{chain_limit};
ghost use Rattle.hold_base.specs.declared.number.PinNo.{PinNo as Pin};
ghost use Rattle.hold_graph.specs.Problem.{IsValid, IsValidCorner, IsWithin};
ghost use Rattle.hold_graph.specs.SitePins.{AreSites};
ghost use Rattle.hold_graph.specs.Sites.{buffers_of, AreCountsOf};
ghost use Rattle.hold_timing.specs.Worst.{required_at, IsArrival, IsSlackAt};
ghost use Rattle.hold_timing.specs.inner.Pass.{required_limit, slack_of, step_limit, sum_limit, AreWithin};

use crate::pass::coming_to;
use hold_base::{PinNo, Side};
use hold_graph::{Problem, Spans};

/// What is left between the time that comes and the time that the check asks for, below 0 where the check is missed.
fn slack(side: Side, coming: i64, required: i64) -> i64
    requires coming { IsWithin (sum_limit + step_limit) coming }
    requires required { IsWithin required_limit required }
    ensures { result ≡ slack_of side coming required }
{
    match side {
        Side::Early => coming - required,
        Side::Late => required - coming,
    }
}

/// The least slack of the checked paths that end at a capture, where these are the arrivals of the side.
pub(crate) fn slack_at(
    problem: &Problem,
    spans: &Spans,
    side: Side,
    counts: &[u8],
    arrivals: &[Option<i64>],
    required: i64,
    capture: PinNo,
) -> Option<i64>
    requires valid { IsValid problem.now }
    requires corner { IsValidCorner problem.now spans.now }
    requires counts { AreCountsOf problem.now counts.now }
    requires most { All (λ count. count ≤ chain_limit) counts.now }
    requires len { length arrivals.now ≡ problem.now.graph.pins }
    requires within { AreWithin sum_limit arrivals.now }
    requires capture { capture.0 < problem.now.graph.pins }
    requires required { required ≡ required_at side problem.now spans.now capture }
    requires near { IsWithin required_limit required }
    ensures { (sites : List Pin) → AreSites problem.now.graph sites →
        ((pin : Pin) → pin.0 < problem.now.graph.pins →
        IsArrival side problem.now spans.now (buffers_of (length problem.now.costs) sites counts.now) pin (slice_index_or arrivals.now pin.0 None)) →
        IsSlackAt side problem.now spans.now (buffers_of (length problem.now.costs) sites counts.now) capture result }
{
    // by the lists of the graph a proof learns that each arc begins at a pin with an arrival
    let _parts = problem.graph.parts();
    match coming_to(problem, spans, side, counts, arrivals, capture) {
        Some(coming) => Some(slack(side, coming, required)),
        None => None,
    }
}

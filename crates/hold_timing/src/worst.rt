ghost use Rattle.std.specs.Prelude.{◌≡◌, ◌<◌, ◌≤◌, length, map, slice_index_or, None, All, List};
ghost use Rattle.hold_base.specs.Limits.{chain_limit};
ghost use Rattle.hold_base.specs.declared.number.PinNo.{PinNo as Pin};
ghost use Rattle.hold_graph.specs.Problem.{IsValid, IsValidCorner, IsWithin};
ghost use Rattle.hold_graph.specs.SitePins.{AreSites};
ghost use Rattle.hold_graph.specs.Sites.{buffers_of, AreCountsOf};
ghost use Rattle.hold_timing.specs.Ends.{IsWorstEnd};
ghost use Rattle.hold_timing.specs.Worst.{required_at, IsArrival};
ghost use Rattle.hold_timing.specs.inner.Pass.{required_limit, sum_limit, AreWithin};

use crate::end::{End, end_at, worse_end};
use crate::slack::slack_at;
use hold_base::Side;
use hold_graph::{Problem, Spans};

/// The worst end of the checked paths of one side of a corner, where these are its arrivals and the times that its checks ask.
pub(crate) fn worst_end(
    problem: &Problem,
    spans: &Spans,
    side: Side,
    counts: &[u8],
    arrivals: &[Option<i64>],
    required: &[i64],
) -> Option<End>
    requires valid { IsValid problem.now }
    requires corner { IsValidCorner problem.now spans.now }
    requires counts { AreCountsOf problem.now counts.now }
    requires most { All (λ count. count ≤ chain_limit) counts.now }
    requires len { length arrivals.now ≡ problem.now.graph.pins }
    requires within { AreWithin sum_limit arrivals.now }
    requires asked { required.now ≡ map (required_at side problem.now spans.now) problem.now.graph.captures }
    requires near { All (IsWithin required_limit) required.now }
    ensures { (sites : List Pin) → AreSites problem.now.graph sites →
        ((pin : Pin) → pin.0 < problem.now.graph.pins →
        IsArrival side problem.now spans.now (buffers_of (length problem.now.costs) sites counts.now) pin (slice_index_or arrivals.now pin.0 None)) →
        IsWorstEnd side problem.now spans.now (buffers_of (length problem.now.costs) sites counts.now) result }
{
    let captures = problem.graph.parts().captures.as_slice();
    let mut worst = None;
    for (place, capture) in captures.iter().enumerate() {
        let slack = slack_at(
            problem,
            spans,
            side,
            counts,
            arrivals,
            required[place],
            *capture,
        );
        worst = worse_end(worst, end_at(*capture, slack));
    }
    worst
}

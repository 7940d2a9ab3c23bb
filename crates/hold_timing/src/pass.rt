ghost use Rattle.std.specs.Prelude.{◌≡◌, ◌<◌, ◌≤◌, length, slice_index_or, None, Some, All, ℕ, ℤ, ◌+◌, List};
ghost use Rattle.hold_base.specs.Limits.{chain_limit};
ghost use Rattle.hold_base.specs.declared.number.PinNo.{PinNo as Pin};
ghost use Rattle.hold_graph.specs.Problem.{IsValid, IsValidCorner, IsWithin};
ghost use Rattle.hold_graph.specs.SitePins.{AreSites};
ghost use Rattle.hold_graph.specs.Sites.{buffers_of, AreCountsOf};
ghost use Rattle.hold_graph.specs.Sums.{added_from};
ghost use Rattle.hold_timing.specs.Worst.{IsArrival};
ghost use Rattle.hold_timing.specs.inner.Pass.{coming, pad_limit, step_limit, sum_limit, AreWithin, IsStart};

use crate::added::added;
use crate::offer::coming;
use crate::spread::spread_spans;
use crate::worse::worse;
use hold_base::{PinNo, Side};
use hold_graph::{Problem, Spans};

/// What the buffers in front of a pin add.
pub(crate) fn pad(problem: &Problem, spans: &Spans, side: Side, counts: &[u8], pin: PinNo) -> i64
    requires valid { IsValid problem.now }
    requires corner { IsValidCorner problem.now spans.now }
    requires counts { AreCountsOf problem.now counts.now }
    requires most { All (λ count. count ≤ chain_limit) counts.now }
    ensures value { (sites : List Pin) → AreSites problem.now.graph sites →
        result ≡ added_from side 0 spans.now.kinds (buffers_of (length problem.now.costs) sites counts.now pin) }
    ensures within { IsWithin pad_limit result }
{
    // by the list of sites a proof learns that each site has its counts
    let _sites = problem.graph.sites();
    added(
        side,
        spans.kinds.as_slice(),
        counts,
        problem.graph.site_of(pin),
    )
}

/// The worst time that the arcs into a pin bring to it, where these are the arrivals at the pins before it.
pub(crate) fn coming_to(
    problem: &Problem,
    spans: &Spans,
    side: Side,
    counts: &[u8],
    arrivals: &[Option<i64>],
    pin: PinNo,
) -> Option<i64>
    requires valid { IsValid problem.now }
    requires corner { IsValidCorner problem.now spans.now }
    requires counts { AreCountsOf problem.now counts.now }
    requires most { All (λ count. count ≤ chain_limit) counts.now }
    requires len { length arrivals.now ≡ problem.now.graph.pins }
    requires within { AreWithin sum_limit arrivals.now }
    requires pin { pin.0 < problem.now.graph.pins }
    ensures within { (limit : ℕ) → AreWithin limit arrivals.now → (time : ℤ) → result ≡ Some time → IsWithin (limit + step_limit) time }
    ensures value { (sites : List Pin) → AreSites problem.now.graph sites →
        result ≡ coming side problem.now.graph spans.now (buffers_of (length problem.now.costs) sites counts.now) arrivals.now pin }
{
    coming(
        side,
        problem.graph.parts().arcs.as_slice(),
        spans.arcs.as_slice(),
        arrivals,
        pad(problem, spans, side, counts, pin),
        problem.graph.incoming(pin),
    )
}

/// Takes all times away.
pub(crate) fn clear(arrivals: &mut Vec<Option<i64>>)
    ensures len { length arrivals.new.items ≡ length arrivals.old.items }
    ensures none { (place : ℕ) → slice_index_or arrivals.new.items place None ≡ None }
{
    for place in 0..arrivals.len() {
        arrivals[place] = None;
    }
}

/// From what each pin has by itself to the arrivals at all pins: pin by pin, each after those from which an arc leads to it.
fn run(arrivals: &mut Vec<Option<i64>>, problem: &Problem, spans: &Spans, side: Side, counts: &[u8])
    requires valid { IsValid problem.now }
    requires corner { IsValidCorner problem.now spans.now }
    requires counts { AreCountsOf problem.now counts.now }
    requires most { All (λ count. count ≤ chain_limit) counts.now }
    requires len { length arrivals.old.items ≡ problem.now.graph.pins }
    requires within { AreWithin step_limit arrivals.old.items }
    requires starts { (pin : Pin) → pin.0 < problem.now.graph.pins →
        IsStart side problem.now.graph spans.now pin (slice_index_or arrivals.old.items pin.0 None) }
    ensures len { length arrivals.new.items ≡ problem.now.graph.pins }
    ensures within { AreWithin sum_limit arrivals.new.items }
    ensures right { (sites : List Pin) → AreSites problem.now.graph sites → (pin : Pin) → pin.0 < problem.now.graph.pins →
        IsArrival side problem.now spans.now (buffers_of (length problem.now.costs) sites counts.now) pin
        (slice_index_or arrivals.new.items pin.0 None) }
{
    let order = problem.graph.order();
    for pin in order {
        let at = pin.0 as usize;
        let coming = coming_to(problem, spans, side, counts, arrivals.as_slice(), *pin);
        arrivals[at] = worse(side, arrivals[at], coming);
    }
}

/// Puts the arrivals of one side of a corner in the place of whatever stood there.
pub(crate) fn settle(
    arrivals: &mut Vec<Option<i64>>,
    problem: &Problem,
    spans: &Spans,
    side: Side,
    counts: &[u8],
)
    requires valid { IsValid problem.now }
    requires corner { IsValidCorner problem.now spans.now }
    requires counts { AreCountsOf problem.now counts.now }
    requires most { All (λ count. count ≤ chain_limit) counts.now }
    requires len { length arrivals.old.items ≡ problem.now.graph.pins }
    ensures len { length arrivals.new.items ≡ problem.now.graph.pins }
    ensures within { AreWithin sum_limit arrivals.new.items }
    ensures right { (sites : List Pin) → AreSites problem.now.graph sites → (pin : Pin) → pin.0 < problem.now.graph.pins →
        IsArrival side problem.now spans.now (buffers_of (length problem.now.costs) sites counts.now) pin
        (slice_index_or arrivals.new.items pin.0 None) }
{
    clear(arrivals);
    let launches = problem.graph.parts().launches.as_slice();
    spread_spans(arrivals, side, launches, spans.launch.as_slice());
    run(arrivals, problem, spans, side, counts);
}

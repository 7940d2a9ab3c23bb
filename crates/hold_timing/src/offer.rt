ghost use Rattle.std.specs.Prelude.{◌≡◌, ◌<◌, length, None, Some, All, ◌+ℤ◌};
ghost use Rattle.hold_base.specs.Limits.{time_limit};
ghost use Rattle.hold_graph.specs.Problem.{IsSpan, IsWithin};
ghost use Rattle.hold_graph.specs.Sums.{end_of};
ghost use Rattle.hold_timing.specs.inner.Pass.{extended, offer, offers_from, pad_limit, step_limit, sum_limit, AreWithin};

use crate::worse::{end_of, worse};
use hold_base::{Interval, Side};
use hold_graph::Arc;

/// A time with one more step, none where there is none.
fn extended(time: Option<i64>, step: i64) -> Option<i64>
    requires time { (t : _) → time ≡ Some t → IsWithin sum_limit t }
    requires step { IsWithin step_limit step }
    ensures { result ≡ extended time step }
{
    match time {
        Some(time) => Some(time + step),
        None => None,
    }
}

/// What one arc adds, with what is added at the pin that it ends at.
fn step(side: Side, span: Interval, pad: i64) -> i64
    requires span { IsSpan time_limit span }
    requires pad { IsWithin pad_limit pad }
    ensures value { result ≡ end_of side span +ℤ pad }
    ensures within { IsWithin step_limit result }
{
    end_of(side, span) + pad
}

/// What the arc at that place brings to the pin that it ends at, where the pin itself adds `pad`.
pub(crate) fn offer(
    side: Side,
    arcs: &[Arc],
    spans: &[Interval],
    arrivals: &[Option<i64>],
    pad: i64,
    place: u32,
) -> Option<i64>
    requires place { place < length arcs.now }
    requires each { length spans.now ≡ length arcs.now }
    requires from { All (λ arc. arc.from.0 < length arrivals.now) arcs.now }
    requires spans { All (IsSpan time_limit) spans.now }
    requires arrivals { AreWithin sum_limit arrivals.now }
    requires pad { IsWithin pad_limit pad }
    ensures { result ≡ offer side arcs.now spans.now arrivals.now pad place }
{
    let place = place as usize;
    extended(
        arrivals[arcs[place].from.0 as usize],
        step(side, spans[place], pad),
    )
}

/// The worst of what the arcs at these places bring to the pin that they end at.
pub(crate) fn coming(
    side: Side,
    arcs: &[Arc],
    spans: &[Interval],
    arrivals: &[Option<i64>],
    pad: i64,
    places: &[u32],
) -> Option<i64>
    requires places { All (λ place. place < length arcs.now) places.now }
    requires each { length spans.now ≡ length arcs.now }
    requires from { All (λ arc. arc.from.0 < length arrivals.now) arcs.now }
    requires spans { All (IsSpan time_limit) spans.now }
    requires arrivals { AreWithin sum_limit arrivals.now }
    requires pad { IsWithin pad_limit pad }
    ensures { result ≡ offers_from side arcs.now spans.now arrivals.now pad None places.now }
{
    let mut worst = None;
    for place in places {
        worst = worse(side, worst, offer(side, arcs, spans, arrivals, pad, *place));
    }
    worst
}

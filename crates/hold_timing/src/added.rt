ghost use Rattle.std.specs.Prelude.{◌≡◌, ◌+◌, ◌*◌, ◌≤◌, length, slice_index, option_map, Some, All, pos, ◌*ℤ◌};
ghost use Rattle.hold_base.specs.Limits.{chain_limit, kinds_limit, time_limit};
ghost use Rattle.hold_graph.specs.Problem.{IsSpan, IsWithin};
ghost use Rattle.hold_graph.specs.Sites.{count_at};
ghost use Rattle.hold_graph.specs.Sums.{added_from, end_of};
ghost use Rattle.hold_timing.specs.inner.Pass.{pad_limit};

use crate::worse::end_of;
use hold_base::{Interval, Side, SiteNo};

/// What so many buffers add.
fn scaled(side: Side, span: Interval, count: u8) -> i64
    requires count { count ≤ chain_limit }
    requires span { IsSpan time_limit span }
    ensures value { result ≡ pos count *ℤ end_of side span }
    ensures within { IsWithin (chain_limit * time_limit) result }
{
    i64::from(count) * end_of(side, span)
}

/// What the buffers add whose counts stand from this place on, one count a kind.
fn added_from(side: Side, kinds: &[Interval], counts: &[u8], first: usize) -> i64
    requires few { length kinds.now ≤ kinds_limit }
    requires there { first + length kinds.now ≤ length counts.now }
    requires kinds { All (IsSpan time_limit) kinds.now }
    requires counts { All (λ count. count ≤ chain_limit) counts.now }
    ensures value { result ≡ added_from side 0 kinds.now (λ kind. slice_index counts.now (first + kind)) }
    ensures within { IsWithin pad_limit result }
{
    let mut sum = 0;
    for (kind, span) in kinds.iter().enumerate() {
        sum += scaled(side, *span, counts[first + kind]);
    }
    sum
}

/// What the buffers of a site add, nothing where a pin is no site.
pub(crate) fn added(side: Side, kinds: &[Interval], counts: &[u8], site: Option<SiteNo>) -> i64
    requires few { length kinds.now ≤ kinds_limit }
    requires there { (s : _) → site ≡ Some s → s.0 * length kinds.now + length kinds.now ≤ length counts.now }
    requires kinds { All (IsSpan time_limit) kinds.now }
    requires counts { All (λ count. count ≤ chain_limit) counts.now }
    ensures value { result ≡ added_from side 0 kinds.now (count_at (length kinds.now) counts.now (option_map (λ s. s.0) site)) }
    ensures within { IsWithin pad_limit result }
{
    match site {
        Some(site) => added_from(side, kinds, counts, site.0 as usize * kinds.len()),
        None => 0,
    }
}

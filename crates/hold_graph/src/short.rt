ghost use Rattle.std.specs.Prelude.{◌≡◌, ◌+◌, ◌<◌, IfSome, IfNone, Some, All, Contains, pos, neg_ℤ, ◌+ℤ◌, ◌<ℤ◌, ◌≤ℤ◌, ◌^◌};
ghost use Rattle.hold_graph.specs.Graph.{AreBelow};
ghost use Rattle.hold_graph.specs.Problem.{IsWithin};
ghost use Rattle.hold_base.specs.Limits.{launch_limit, time_limit};
ghost use Rattle.hold_graph.specs.inner.Arrival.{base_of, left, left_by, sum_limit, IsEnough};
ghost use Rattle.hold_graph.specs.inner.Ordered.{IsInOrder};
ghost use Rattle.hold_graph.specs.inner.Tables.{AreSized};

use crate::arrival::offer;
use crate::line::Ordered;
use crate::tables::Tables;
use hold_base::{PinNo, Side};

/// What the side adds to every path: at the late side the period, in fs.
pub(crate) fn base(side: Side, period: i64) -> i64
    ensures { result ≡ base_of side period }
{
    match side {
        Side::Early => 0,
        Side::Late => period,
    }
}

/// The sum of the four.
fn total(coming: i64, end: i64, check: i64, base: i64) -> i64
    requires coming { IsWithin (sum_limit + launch_limit) coming }
    requires end { IsWithin launch_limit end }
    requires check { IsWithin launch_limit check }
    requires base { IsWithin time_limit base }
    ensures { result ≡ ((coming +ℤ end) +ℤ check) +ℤ base }
{
    coming + end + check + base
}

/// What is left at a capture, none where nothing comes there.
fn left(coming: Option<i64>, end: Option<i64>, check: Option<i64>, base: i64) -> Option<i64>
    requires coming { (s : _) → coming ≡ Some s → IsWithin (sum_limit + launch_limit) s }
    requires end { (s : _) → end ≡ Some s → IsWithin launch_limit s }
    requires check { (s : _) → check ≡ Some s → IsWithin launch_limit s }
    requires base { IsWithin time_limit base }
    ensures { result ≡ left coming end check base }
{
    match (coming, end, check) {
        (Some(coming), Some(end), Some(check)) => Some(total(coming, end, check, base)),
        _ => None,
    }
}

/// How much is missing, none where nothing is.
fn missing(rest: Option<i64>) -> Option<i64>
    requires { (s : _) → rest ≡ Some s → IsWithin (2 ^ 57) s }
    ensures none { IfNone result (IsEnough rest) }
    ensures some { IfSome result (λ short. (rest ≡ Some (neg_ℤ short)) × (pos 0 <ℤ short)) }
{
    match rest {
        Some(rest) if rest < 0 => Some(-rest),
        _ => None,
    }
}

/// How much is missing at a capture by these tables, none where nothing is.
fn missing_at(line: &Ordered<'_>, tables: &Tables, base: i64, capture: PinNo) -> Option<i64>
    requires line { IsInOrder line.now }
    requires tables { AreSized line.now tables.now }
    requires capture { capture.0 < line.now.pins }
    requires base { IsWithin time_limit base }
    ensures none { IfNone result (IsEnough (left_by line.now.arcs.now tables.now.steps.items base line.now.into.now
        tables.now.best.items tables.now.ends.items tables.now.checks.items capture)) }
    ensures some { IfSome result (λ short. (left_by line.now.arcs.now tables.now.steps.items base line.now.into.now
        tables.now.best.items tables.now.ends.items tables.now.checks.items capture ≡ Some (neg_ℤ short)) × (pos 0 <ℤ short)) }
{
    let at = capture.0 as usize;
    let coming = offer(
        line.arcs,
        tables.steps.as_slice(),
        tables.best.as_slice(),
        line.into[at],
    );
    missing(left(coming, tables.ends[at], tables.checks[at], base))
}

/// The first of these captures at which something is missing, and how much.
pub(crate) fn first_short(
    line: &Ordered<'_>,
    tables: &Tables,
    base: i64,
    captures: &[PinNo],
) -> Option<(PinNo, i64)>
    requires line { IsInOrder line.now }
    requires tables { AreSized line.now tables.now }
    requires captures { AreBelow line.now.pins captures.now }
    requires base { IsWithin time_limit base }
    ensures none { IfNone result (All (λ capture. IsEnough (left_by line.now.arcs.now tables.now.steps.items base line.now.into.now
        tables.now.best.items tables.now.ends.items tables.now.checks.items capture)) captures.now) }
    ensures listed { IfSome result (λ found. Contains captures.now found.0) }
    ensures some { IfSome result (λ found. (left_by line.now.arcs.now tables.now.steps.items base line.now.into.now
        tables.now.best.items tables.now.ends.items tables.now.checks.items found.0 ≡ Some (neg_ℤ found.1)) × (pos 0 <ℤ found.1)) }
{
    for capture in captures {
        if let Some(short) = missing_at(line, tables, base, *capture) {
            return Some((*capture, short));
        }
    }
    None
}

//! Times and spans of a job, in fs. There is one corner, so a list of them has one item.
ghost use Rattle.std.specs.Prelude.{◌≡◌, option_map};
ghost use Rattle.toml.specs.View.{view, table_view, array_view};
ghost use Rattle.hold_cli.specs.JobFormTimes.{is_time, time_of, is_in_order, span_between, span_in_pair, span_of, span_at, span_if_any, time_at, period_at};

use crate::job_form::value::{array_at, integer_at, only_item, value_at};
use hold_base::{Interval, limits};
use toml::value::Array;
use toml::{Table, Value};

/// The time that a value is, if it is a whole number in its range.
fn time_of(value: &Value) -> Option<i64>
    ensures { result ≡ time_of (view value.now) }
{
    match value.as_integer() {
        Some(time) if -limits::TIME <= time && time <= limits::TIME => Some(time),
        _ => None,
    }
}

/// The span between two times, if they are times in order.
#[tactic(auto, unfolding(crate::specs::JobFormTimes::span_between))]
fn span_between(first: &Value, second: &Value) -> Option<Interval>
    ensures { result ≡ span_between (view first.now) (view second.now) }
{
    let Some(least) = time_of(first) else {
        return None;
    };
    let Some(greatest) = time_of(second) else {
        return None;
    };
    if least <= greatest {
        Some(Interval { least, greatest })
    } else {
        None
    }
}

/// The span that a list gives, if it is a pair of times in order.
#[tactic(auto, using(crate::proofs::JobFormLemmas::pair_of_two, crate::proofs::JobFormLemmas::pair_of_other))]
fn span_in_pair(pair: &Array) -> Option<Interval>
    ensures { result ≡ span_in_pair (array_view pair.now) }
{
    match pair.as_slice() {
        [first, second] => span_between(first, second),
        _ => None,
    }
}

/// The span that a list of spans gives.
#[tactic(auto, unfolding(crate::specs::JobFormTimes::span_of))]
fn span_of(value: &Value) -> Option<Interval>
    ensures { result ≡ span_of (view value.now) }
{
    let Some(spans) = value.as_array() else {
        return None;
    };
    let Some(only) = only_item(spans) else {
        return None;
    };
    match only.as_array() {
        Some(pair) => span_in_pair(pair),
        None => None,
    }
}

/// The span in the list of spans at a key.
pub fn span_at(table: &Table, key: &str) -> Option<Interval>
    ensures { result ≡ span_at key.now (table_view table.now) }
{
    match value_at(table, key) {
        Some(value) => span_of(value),
        None => None,
    }
}

/// The same where the key may be missing: then the answer is that there is no span.
pub fn span_if_any(table: &Table, key: &str) -> Option<Option<Interval>>
    ensures { result ≡ span_if_any key.now (table_view table.now) }
{
    match value_at(table, key) {
        Some(value) => match span_of(value) {
            Some(span) => Some(Some(span)),
            None => None,
        },
        None => Some(None),
    }
}

/// The time in the list of values at a key.
#[tactic(auto, unfolding(crate::specs::JobFormTimes::time_at))]
pub fn time_at(table: &Table, key: &str) -> Option<i64>
    ensures { result ≡ time_at key.now (table_view table.now) }
{
    let Some(values) = array_at(table, key) else {
        return None;
    };
    match only_item(values) {
        Some(only) => time_of(only),
        None => None,
    }
}

/// The period of the clock, if it is in its range.
pub fn period_at(table: &Table) -> Option<i64>
    ensures { result ≡ period_at (table_view table.now) }
{
    match integer_at(table, "period") {
        Some(period) if 1 <= period && period <= limits::TIME => Some(period),
        _ => None,
    }
}

//! Whole numbers and times of a job. Times are in fs.
ghost use Rattle.std.specs.Prelude.{◌≡◌, neg_ℤ, pos};
ghost use Rattle.toml.specs.View.{view, array_view};
ghost use Rattle.hold_base.specs.Answers.{Answers};
ghost use Rattle.hold_base.specs.Limits.{time_limit};
ghost use Rattle.hold_job.specs.Numbers.{number, time, span, span_between, span_of_two};

use crate::fault::JobFault;
use crate::form::{Form, not_its_kind, out_of_range};
use crate::list::EveryWithin;
use crate::path::told_from;
use hold_base::{Interval, Stop, limits};
use std::alloc::Global;
use toml::Value;
use toml::value::Array;

/// A whole number in its range.
#[derive(Clone, Copy)]
pub struct Number {
    pub least: u64,
    pub most: u64,
}

impl Form for Number {
    type Given = u64;

    ghost form = { λ f. number f.least f.most };

    fn read(&self, alloc: Global, value: &Value) -> Result<u64, Stop<JobFault>> {
        let Some(number) = value.as_integer() else {
            return Err(not_its_kind(alloc));
        };
        match u64::try_from(number) {
            Ok(number) if self.least <= number && number <= self.most => Ok(number),
            _ => Err(out_of_range(alloc)),
        }
    }
}

/// A time that is at least so much.
#[derive(Clone, Copy)]
pub struct Time {
    pub least: i64,
}

/// Any time.
pub const ANY_TIME: Time = Time {
    least: -limits::TIME,
};

impl Form for Time {
    type Given = i64;

    ghost form = { λ f. time f.least };

    fn read(&self, alloc: Global, value: &Value) -> Result<i64, Stop<JobFault>> {
        match value.as_integer() {
            Some(time) if self.least <= time && time <= limits::TIME => Ok(time),
            Some(_) => Err(out_of_range(alloc)),
            None => Err(not_its_kind(alloc)),
        }
    }
}

/// The times from one to another, of which the first is at least so much.
#[derive(Clone, Copy)]
pub struct Span {
    pub least: i64,
}

/// The times between two values.
#[tactic(auto, unfolding(crate::specs::Numbers::span_between))]
fn span_between(
    alloc: Global,
    least: i64,
    first: &Value,
    second: &Value,
) -> Result<Interval, Stop<JobFault>>
    ensures { Answers result (span_between least (view first.now) (view second.now)) }
{
    let low = match (Time { least }).read(alloc, first) {
        Ok(low) => low,
        Err(stop) => return Err(told_from(alloc, b"0", stop)),
    };
    let high = match ANY_TIME.read(alloc, second) {
        Ok(high) => high,
        Err(stop) => return Err(told_from(alloc, b"1", stop)),
    };
    if low <= high {
        Ok(Interval {
            least: low,
            greatest: high,
        })
    } else {
        Err(out_of_range(alloc))
    }
}

/// The times between the two values of a pair.
#[tactic(auto, using(crate::proofs::Items::span_of_other))]
fn span_of_two(alloc: Global, least: i64, ends: &Array) -> Result<Interval, Stop<JobFault>>
    ensures { Answers result (span_of_two least (array_view ends.now)) }
{
    match ends.as_slice() {
        [first, second] => span_between(alloc, least, first, second),
        _ => Err(out_of_range(alloc)),
    }
}

impl Form for Span {
    type Given = Interval;

    ghost form = { λ f. span f.least };

    fn read(&self, alloc: Global, value: &Value) -> Result<Interval, Stop<JobFault>> {
        match value.as_array() {
            Some(ends) => span_of_two(alloc, self.least, ends),
            None => Err(not_its_kind(alloc)),
        }
    }
}

/// A list of one span for each of so many corners, whose first times are at least so much.
pub fn spans(least: i64, corners: usize) -> EveryWithin<Span>
    ensures { result ≡ record { least = corners; most = corners; form = record { least = least } } }
{
    EveryWithin {
        least: corners,
        most: corners,
        form: Span { least },
    }
}

/// A list of one time for each of so many corners.
pub fn values(corners: usize) -> EveryWithin<Time>
    ensures { result ≡ record { least = corners; most = corners; form = record { least = neg_ℤ (pos time_limit) } } }
{
    EveryWithin {
        least: corners,
        most: corners,
        form: ANY_TIME,
    }
}

//! Tests of the public calls of `hold_timing`, and problems that a test writes down by hand.
#![tactic(auto)]

mod corner;
#[cfg(test)]
mod counts;
#[cfg(test)]
mod ends;
#[cfg(test)]
mod examples;
mod parts;
#[cfg(test)]
mod paths;
mod problem;
mod sketch;

pub use problem::{Unfit, problem_of};
pub use sketch::{Corner, Sketch};

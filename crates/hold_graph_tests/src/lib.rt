//! Tests of the public calls of `hold_graph`.
#![tactic(auto)]

#[cfg(test)]
mod checked;
mod counted;
#[cfg(test)]
mod counts;
#[cfg(test)]
mod graphs;
mod parts;
mod problems;
#[cfg(test)]
mod random;
#[cfg(test)]
mod walked;

pub use counted::{count_of, counts_with};
pub use parts::{Shape, parts_of};
pub use problems::problem_of;

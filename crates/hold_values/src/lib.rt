//! The values of a corner, by what its SDF entries tell and by the job: the span of each arc, and of each register the delay from its
//! clock, its setup, its hold and its clock arrival.
#![tactic(auto)]

mod clock;
mod defaults;
mod given;
mod keys;
mod lists;
mod making;
mod pin;
mod types;
mod value;

pub use making::values;
pub use value::Values;

//! The whole femtoseconds on both sides of a decimal number, as delay files write it: `-1.25e3` of some unit.
//! The value is taken exactly, whatever the number of its digits; it is read in time linear in its length, without memory.
#![tactic(auto)]

mod number;
mod numeral;
mod rounding;
mod scale;

pub use number::{NumberFault, to_fs};
pub use scale::Scale;

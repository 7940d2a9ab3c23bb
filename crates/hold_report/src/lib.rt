//! The report of a timing problem: a table of how much time is left, or missing, at each check of each corner.
#![tactic(auto)]

mod bare_end;
mod columns;
mod report;
mod row;

pub use report::table;

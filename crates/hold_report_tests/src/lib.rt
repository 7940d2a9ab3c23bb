//! Tests of the public calls of `hold_report`.
#![tactic(auto)]

#[cfg(test)]
mod columns;
#[cfg(test)]
mod rows;
#[cfg(test)]
mod said;

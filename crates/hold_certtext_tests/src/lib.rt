//! Tests of the public calls of `hold_certtext`: certificates and plans that are read and written back, and where a text is
//! refused.
#![tactic(auto)]

#[cfg(test)]
mod certificates;
#[cfg(test)]
mod faults;
#[cfg(test)]
mod plans;

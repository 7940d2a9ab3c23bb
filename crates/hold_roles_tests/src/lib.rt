//! Tests of the public calls of `hold_roles`: libraries, and which netlists are bound to one, with the roots of their net bits.
#![tactic(auto)]

#[cfg(test)]
mod answer;
#[cfg(test)]
mod bound;
#[cfg(test)]
mod faults;
#[cfg(test)]
mod library;
#[cfg(test)]
mod limits;
#[cfg(test)]
mod roots;

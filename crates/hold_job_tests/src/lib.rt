//! Tests of the public call of `hold_job`: which texts give which job, and which fault each other text is refused for.
#![tactic(auto)]

#[cfg(test)]
mod answer;
#[cfg(test)]
mod doubles;
#[cfg(test)]
mod example;
#[cfg(test)]
mod faults;
#[cfg(test)]
mod lengths;
#[cfg(test)]
mod types;

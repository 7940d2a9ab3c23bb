//! Tests of the public calls of `hold_sdf`: which texts are read, as which entries, and which are refused, with their first fault.
#![tactic(auto)]

#[cfg(test)]
mod answer;
#[cfg(test)]
mod cells;
#[cfg(test)]
mod checks;
#[cfg(test)]
mod cuts;
#[cfg(test)]
mod file;
#[cfg(test)]
mod headers;
#[cfg(test)]
mod names;
#[cfg(test)]
mod paths;

//! Tests of the public calls of `hold_build`: the timing graphs of netlists and jobs, and why there is none.
#![tactic(auto)]

#[cfg(test)]
mod aliases;
#[cfg(test)]
mod answer;
#[cfg(test)]
mod cells;
#[cfg(test)]
mod cycles;
#[cfg(test)]
mod entries;
#[cfg(test)]
mod limit;
#[cfg(test)]
mod lists;
#[cfg(test)]
mod sites;

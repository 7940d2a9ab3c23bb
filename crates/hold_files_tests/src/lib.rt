//! Tests of the public calls of `hold_files`, over files in memory and over the real disk.
#![tactic(auto)]

#[cfg(test)]
mod host;
#[cfg(test)]
mod memory;

//! Padding: the netlist into which buffers are put in front of single pins, as counts ask for.
#![tactic(auto)]

mod copies;
mod fresh;
mod grown;
mod new_names;
mod number;
mod padding;
mod puts;
mod sources;

pub use padding::pad;

//! Writes a netlist as Verilog: its one canonical text.
#![tactic(auto)]

mod bits;
mod canonical;
mod insts;
mod lines;
mod module;
mod name;
mod range;

pub use canonical::write;

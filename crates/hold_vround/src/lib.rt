//! What a proof may know of a netlist's canonical text: that it reads as the netlist.
#![tactic(auto)]

mod reads_back;

pub use reads_back::know_reads_back;

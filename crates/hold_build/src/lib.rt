//! The timing graph of a netlist whose cells have roles, and of a job: its arcs, where paths begin and end, the clock pins and the
//! pins that are kept.
#![tactic(auto)]

mod arcs;
mod building;
mod cell_arcs;
mod counts;
mod entries;
mod fault;
mod lists;
mod names;
mod pin_tables;
mod register_pins;
mod sinks;
mod sort;
mod type_pins;
mod wire_arcs;

pub use building::build;
pub use fault::BuildFault;
pub use lists::parts;

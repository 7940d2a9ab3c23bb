//! Reads structural Verilog text: as the netlist that it declares, or as the first fault that it is refused for.
#![tactic(auto)]

mod assign_list;
mod barred;
mod barred_names;
mod bit_faults;
mod declared;
mod double_names;
mod fault;
mod idents;
mod index;
mod inst_list;
mod layout;
mod lines;
mod measured;
mod mentions;
mod name_faults;
mod net_ranges;
mod netlist;
mod nets;
mod number_table;
mod one_reading;
mod parts;
mod pin_faults;
mod port_faults;
mod ports;
mod range_places;
mod range_table;
mod ranged_nets;
mod ranges;
mod reading;
mod refusals;
mod selection;
mod soonest;
mod tables;
mod wire_list;
mod wires;

pub use fault::VerilogFault;
pub use one_reading::know_one_reading;
pub use reading::read;

//! The netlist: a flat module of ports, wires, instances and assignments of single bits; what makes it
//! valid; and its canonical Verilog text, as definitions that every reader and writer speaks of.
#![tactic(auto)]

mod copy;
mod doubles;
mod fault;
mod inst;
mod keyword;
mod kind;
mod limits;
mod name_table;
mod names_seed;
mod netlist;
mod numbering;
mod pin_text;
mod same;
mod seed;
mod wire;

pub use fault::NetFault;
pub use inst::{Assign, Inst, Pin, Source};
pub use keyword::is_keyword;
pub use kind::Kind;
pub use name_table::NameTable;
pub use netlist::Netlist;
pub use pin_text::put_index;
pub use seed::Seed;
pub use wire::{Direction, Port, Wire};

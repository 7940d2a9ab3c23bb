//! The timing problem of a plain netlist: scalar wires, no assignment, and combinational instances into which
//! at most one connected input leads. Which netlists have one, and the lists that it is made of.
#![tactic(auto)]

mod arcs;
mod cell;
mod delays;
mod keys;
mod known;
mod lists;
mod pin_tests;
mod pin_use;
mod places;
mod ranks;
mod registers;
mod roles;
mod seeds;
mod served;
mod served_insts;
mod tables;
mod times;
mod timing;
mod uses;
mod whole;

pub use cell::{Cell, CellArc, CellCheck, Check, Role};
pub use timing::{Clock, Timing};
pub use whole::problem;

//! Cells with their roles, and netlists whose instances are such cells: what drives each net bit, and where a net bit has its
//! root. What it is for such a netlist to be solved, and for two of them to mean the same, is defined here too.
#![tactic(auto)]

mod binding;
mod bound;
mod cells;
mod drivers;
mod fault;
mod library;
mod limits;
mod marks;
mod pins;
mod role;
mod roots;
mod row;

pub use binding::bind;
pub use bound::Bound;
pub use fault::{LibraryFault, RoleFault};
pub use library::Library;
pub use role::{CellType, Role};
pub use roots::Root;
pub use row::Row;

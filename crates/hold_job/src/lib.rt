//! The job file: which files to read and to write, the corners, the types of cells and what is known of their times, the
//! kinds of buffers, and what the user asks of the search.
#![tactic(auto)]

mod arcs;
mod cell_times;
mod cell_types;
mod corner;
mod corners;
mod doubles;
mod ends;
mod entries;
mod fault;
mod files;
mod form;
mod inst_times;
mod job;
mod keys;
mod kinds;
mod limits;
mod list;
mod listed_type;
mod listing;
mod name_set;
mod number;
mod path;
mod pins;
mod reader;
mod settings;
mod text;

pub use cell_times::{TypeArc, TypeCheck};
pub use corner::Corner;
pub use fault::JobFault;
pub use inst_times::{Clock, Keep};
pub use job::Job;
pub use listed_type::ListedType;
pub use reader::read;

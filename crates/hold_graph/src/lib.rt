//! The timing graph: pins and arcs, the tables of delays that belong to them, the paths that are
//! checked, and the sums along a path.
#![tactic(auto)]

mod adjacency;
mod arrival;
mod boxed;
mod checked;
mod costs;
mod counts;
mod cycle;
mod graph;
mod line;
mod marks;
mod problem;
mod short;
mod side;
mod site;
mod table;
mod tables;
mod topological;
mod walk;
mod worst;

pub use boxed::Boxed;
pub use costs::cost;
pub use counts::Counts;
pub use cycle::Cycle;
pub use graph::{Arc, Graph, Parts};
pub use problem::{Listed, Problem, Spans};
pub use worst::worst_line;

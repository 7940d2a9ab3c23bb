use hold_base::{Name, What};
use hold_graph::Cycle;
use thiserror::Error;

/// Why a bound netlist and a job have no timing graph.
#[derive(Debug, Drop, Error)]
pub enum BuildFault {
    /// The entry of the job at this path, as `clock.0`, names no register or no connection of the netlist.
    #[error("an entry of the job names nothing in the netlist")]
    Unknown(Name),
    /// A count passes its limit.
    #[error("the graph is too large")]
    Limit(What),
    /// The arcs have this cycle.
    #[error("the arcs have a cycle")]
    Cycle(Cycle),
}

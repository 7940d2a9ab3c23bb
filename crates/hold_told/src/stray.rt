use thiserror::Error;

/// The entry at this place in bytes of its SDF text stands in the wrong cell, or names nothing of the netlist.
#[derive(Debug, Drop, Error)]
#[error("an SDF entry names nothing in the netlist")]
pub struct Stray {
    pub at: u64,
}

use hold_base::{List, Name};

/// What the instances of a type do.
#[derive(Clone, Copy, Debug, PartialEq, Eq)]
pub enum Role {
    /// The outputs follow the inputs.
    Comb,
    /// The outputs change with the clock.
    Register,
    /// Nothing is known of what the outputs do.
    Opaque,
}

/// A type of cells.
#[derive(Clone, Debug, Drop)]
pub struct CellType {
    pub name: Name,
    pub role: Role,
    /// The inputs, of a register its data pins.
    pub inputs: List<Name>,
    /// A register's clock pin.
    pub clock: Option<Name>,
    /// A register's inputs that aren't checked, as resets.
    pub quiet: List<Name>,
    pub outputs: List<Name>,
}

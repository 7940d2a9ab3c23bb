use hold_base::{Interval, List, Name};

/// What the instances of a cell do.
#[derive(Clone, Copy, Debug, PartialEq, Eq)]
pub enum Role {
    /// The outputs follow the inputs.
    Comb,
    /// The outputs change with the clock.
    Register,
}

/// A delay through a cell: from an input to an output, or from the clock to an output.
#[derive(Clone, Debug, Drop, PartialEq, Eq)]
pub struct CellArc {
    pub from: Name,
    pub to: Name,
    /// In fs.
    pub span: Interval,
}

/// How long a data pin holds still before and after the clock, in fs; either may be below 0.
#[derive(Clone, Copy, Debug, PartialEq, Eq)]
pub struct Check {
    pub setup: i64,
    pub hold: i64,
}

/// The check of a data pin.
#[derive(Clone, Debug, Drop, PartialEq, Eq)]
pub struct CellCheck {
    pub pin: Name,
    pub check: Check,
}

/// A cell of the library.
#[derive(Clone, Debug, Drop)]
pub struct Cell {
    pub name: Name,
    pub role: Role,
    /// The inputs, of a register its data pins.
    pub inputs: List<Name>,
    /// A register's clock pin; a combinational cell has none.
    pub clock: Option<Name>,
    pub outputs: List<Name>,
    pub arcs: List<CellArc>,
    /// A register's checks.
    pub checks: List<CellCheck>,
}

use hold_base::{Interval, List, Name};

/// The delay through every cell of a type from one pin to another, in each corner, in fs.
#[derive(Clone, Debug, Drop)]
pub struct TypeArc {
    /// The type's name.
    pub kind: Name,
    /// An input of a combinational type, or the clock of a register.
    pub from: Name,
    /// An output.
    pub to: Name,
    pub spans: List<Interval>,
}

/// What a register's type asks of the times at a data pin, in each corner, in fs.
#[derive(Clone, Debug, Drop)]
pub struct TypeCheck {
    /// The type's name.
    pub kind: Name,
    /// A data pin.
    pub pin: Name,
    pub setup: List<i64>,
    pub hold: List<i64>,
}

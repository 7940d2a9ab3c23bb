use crate::cell::Cell;
use hold_base::{Interval, List, Name};

/// When the clock arrives at one register.
#[derive(Clone, Debug, Drop, PartialEq, Eq)]
pub struct Clock {
    pub inst: Name,
    /// In fs.
    pub arrival: Interval,
}

/// What is known of time in the one corner: the clock and the cells.
#[derive(Clone, Debug, Drop)]
pub struct Timing {
    /// The clock period, in fs.
    pub period: i64,
    /// When the clock arrives at a register that has no entry in `clocks`, in fs.
    pub arrival: Option<Interval>,
    pub cells: List<Cell>,
    pub clocks: List<Clock>,
}

use hold_base::{Interval, Name};

/// What an SDF text says of one arc, wire or check. Names have their backslashes taken away. `at` is the place in
/// bytes of the opening parenthesis of its IOPATH, INTERCONNECT, SETUP, HOLD or SETUPHOLD; `inst` is the instance of
/// its cell, None where that is the design itself.
#[derive(Clone, Debug, Drop)]
pub enum Entry {
    /// The delay through a cell from one pin to another.
    Cell {
        at: u64,
        inst: Option<Name>,
        from: Name,
        to: Name,
        /// The hull of its numbers, in fs; None where it has none.
        span: Option<Interval>,
    },
    /// The delay of a wire from one pin to another.
    Wire {
        at: u64,
        inst: Option<Name>,
        from: PinPath,
        to: PinPath,
        /// The hull of its numbers, in fs; None where it has none.
        span: Option<Interval>,
    },
    /// A setup or hold time of a data pin against a clock pin, or both.
    Check {
        at: u64,
        inst: Option<Name>,
        pin: Name,
        clock: Name,
        /// The ceiling of its greatest number, in fs; None where it has none.
        setup: Option<i64>,
        /// The same of its hold time.
        hold: Option<i64>,
    },
}

/// A pin of an instance; without an instance it is a port, or a bit of one.
#[derive(Clone, Debug, Drop)]
pub struct PinPath {
    pub inst: Option<Name>,
    pub pin: Name,
}

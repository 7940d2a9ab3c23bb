use crate::cell::Check;
use hold_base::Interval;
use hold_netlist::Source;

/// What a pin is to the timing of its netlist.
#[derive(Clone, Copy, Debug, PartialEq, Eq)]
pub(crate) enum PinRole {
    /// An input of a combinational instance.
    Input,
    /// An output of a combinational instance.
    Output,
    /// The clock pin of a register.
    Clock,
    /// A data pin of a register.
    Data,
    /// An output of a register.
    Launch,
    /// A bit of an input port, which drives its net.
    InPort,
    /// A bit of an output port, which reads its net.
    OutPort,
    /// No pin of its cell, or of an instance whose cell isn't known.
    Stray,
}

/// A pin of the netlist, with all that the timing knows of it.
#[derive(Clone, Copy, Debug, PartialEq, Eq)]
pub(crate) struct PinUse {
    pub role: PinRole,
    /// The number of its instance; 0 at a port.
    pub inst: u32,
    /// What it is tied to; a port bit is tied to its own net.
    pub source: Source,
    /// The delay of the cell arc that ends here, or from the clock to here, in fs.
    pub delay: Option<Interval>,
    /// The check of a data pin.
    pub check: Option<Check>,
    /// When the clock arrives at its instance, in fs.
    pub arrival: Option<Interval>,
}

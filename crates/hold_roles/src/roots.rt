use hold_base::PinNo;

/// Where a net bit has its value from, through assignments.
#[derive(Clone, Copy, Debug, PartialEq, Eq)]
pub enum Root {
    /// An output of an instance or a bit of an input port.
    Pin(PinNo),
    /// The constant `1'b0`.
    Zero,
    /// The constant `1'b1`.
    One,
    /// Nothing drives it.
    Nothing,
}

use hold_base::{Name, What};
use thiserror::Error;

/// Why parts make no netlist.
#[derive(Debug, Drop, Error)]
pub enum NetFault {
    /// Two wires or instances share this name, or one instance names this pin twice.
    #[error("a name stands twice")]
    DoubleName(Name),
    /// A count passes its limit.
    #[error("the netlist is too large")]
    Limit(What),
}

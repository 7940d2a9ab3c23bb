use hold_base::{Name, What};
use thiserror::Error;

/// Why types make no library.
#[derive(Debug, Drop, Error)]
pub enum LibraryFault {
    /// The type of this number has an earlier one's name.
    #[error("two types share a name")]
    Double(u32),
}

/// Why a netlist can't be bound to the types of a library.
#[derive(Debug, Drop, Error)]
pub enum RoleFault {
    /// A count passes its limit.
    #[error("the netlist is too large")]
    Limit(What),
    /// This type of an instance isn't in the library.
    #[error("a type isn't in the library")]
    NoRole(Name),
    /// The instance's type has no such pin, or the pin is an output and tied to a constant.
    #[error("a pin isn't one of its type, or an output is tied to a constant")]
    BadPin { inst: Name, pin: Name },
    /// This net bit has two drivers.
    #[error("a net bit has two drivers")]
    DoubleDriver(Name),
    /// Following assignments from this net bit comes back to it.
    #[error("assignments run in a ring")]
    AssignRing(Name),
}

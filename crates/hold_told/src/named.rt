ghost use Rattle.std.specs.Prelude.{◌↔◌, IsTrue};
ghost use Rattle.hold_told.specs.inner.Told.{IsNothing};

use hold_base::PinNo;

/// What a name of an entry names.
#[derive(Clone, Copy, Debug)]
pub(crate) enum Named {
    /// Nothing of the netlist.
    Nothing,
    /// A pin of the instance's type that the instance doesn't have written.
    Unwritten,
    Pin(PinNo),
}

/// Whether a name names nothing.
pub(crate) fn is_nothing(named: Named) -> bool
    ensures { IsTrue result ↔ IsNothing named }
{
    match named {
        Named::Nothing => true,
        Named::Unwritten => false,
        Named::Pin(_) => false,
    }
}

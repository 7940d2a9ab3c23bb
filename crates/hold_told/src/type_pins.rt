ghost use Rattle.std.specs.Prelude.{◌≡◌};
ghost use Rattle.hold_netlist.specs.Names.{is_among};
ghost use Rattle.hold_roles.specs.TypePins.{is_clock};
ghost use Rattle.hold_told.specs.inner.Names.{is_pin};

use hold_base::{List, Name};
use hold_roles::CellType;

/// Whether the name is one of these.
fn is_listed(names: &List<Name>, name: &Name) -> bool
    ensures { result ≡ is_among name.now names.now }
{
    for listed in names.as_slice() {
        if name.bytes() == listed.bytes() {
            return true;
        }
    }
    false
}

/// Whether the type's clock pin has that name.
pub(crate) fn is_clock(cell: &CellType, name: &Name) -> bool
    ensures { result ≡ is_clock cell.now.clock name.now }
{
    match &cell.clock {
        Some(clock) => name.bytes() == clock.bytes(),
        None => false,
    }
}

/// Whether the type has a pin of that name.
pub(crate) fn has_pin(cell: &CellType, name: &Name) -> bool
    ensures { result ≡ is_pin cell.now name.now }
{
    is_clock(cell, name)
        || is_listed(&cell.inputs, name)
        || is_listed(&cell.quiet, name)
        || is_listed(&cell.outputs, name)
}

ghost use Rattle.std.specs.Prelude.{◌≡◌};
ghost use Rattle.hold_netlist.specs.Names.{is_among};
ghost use Rattle.hold_roles.specs.TypePins.{is_clock, is_input_pin, is_output_pin};
ghost use Rattle.hold_build.specs.Pins.{is_clock_pin, is_data_pin};

use hold_base::{List, Name};
use hold_roles::CellType;

/// Whether the name is one of these.
fn is_listed(names: &List<Name>, name: &Name) -> bool
    ensures { result ≡ is_among name.now names.now }
{
    for listed in names.as_slice() {
        if name.bytes() == listed.bytes() {
            return true;
        }
    }
    false
}

/// Whether the type's clock pin has that name.
pub(crate) fn is_clock_pin(cell: &CellType, name: &Name) -> bool
    ensures { result ≡ is_clock_pin cell.now name.now }
{
    match &cell.clock {
        Some(clock) => name.bytes() == clock.bytes(),
        None => false,
    }
}

/// Whether the type has an input of that name, a register a data pin.
pub(crate) fn is_data_pin(cell: &CellType, name: &Name) -> bool
    ensures { result ≡ is_data_pin cell.now name.now }
{
    is_listed(&cell.inputs, name)
}

/// Whether the type has an input-side pin of that name.
pub(crate) fn is_input_pin(cell: &CellType, name: &Name) -> bool
    ensures { result ≡ is_input_pin cell.now name.now }
{
    is_data_pin(cell, name) || is_clock_pin(cell, name) || is_listed(&cell.quiet, name)
}

/// Whether the type has an output of that name.
pub(crate) fn is_output_pin(cell: &CellType, name: &Name) -> bool
    ensures { result ≡ is_output_pin cell.now name.now }
{
    is_listed(&cell.outputs, name)
}

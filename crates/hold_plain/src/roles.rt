ghost use Rattle.std.specs.Prelude.{◌≡◌};
ghost use Rattle.std.specs.Option.{option_copied};
ghost use Rattle.hold_netlist.specs.Names.{is_among};
ghost use Rattle.hold_plain.specs.Cells.{is_clock, role_in};
ghost use Rattle.hold_plain.specs.PinUses.{fed_name, is_fed, is_input, is_tied};

use crate::cell::{Cell, Role};
use crate::pin_use::PinRole;
use hold_base::Name;
use hold_netlist::{Pin, Source};

fn is_among(name: &Name, names: &[Name]) -> bool
    ensures { result ≡ is_among name.now names.now }
{
    for other in names {
        if name.bytes() == other.bytes() {
            return true;
        }
    }
    false
}

fn is_clock(clock: &Option<Name>, name: &Name) -> bool
    ensures { result ≡ is_clock clock.now name.now }
{
    match clock {
        Some(clock) => name.bytes() == clock.bytes(),
        None => false,
    }
}

/// What a connection of that name is at an instance of the cell.
pub(crate) fn role_in(cell: &Cell, name: &Name) -> PinRole
    ensures { result ≡ role_in cell.now name.now }
{
    let is_input = is_among(name, cell.inputs.as_slice());
    let is_output = is_among(name, cell.outputs.as_slice());
    match cell.role {
        Role::Comb if is_input => PinRole::Input,
        Role::Comb if is_output => PinRole::Output,
        Role::Comb => PinRole::Stray,
        Role::Register if is_clock(&cell.clock, name) => PinRole::Clock,
        Role::Register if is_input => PinRole::Data,
        Role::Register if is_output => PinRole::Launch,
        Role::Register => PinRole::Stray,
    }
}

fn is_input(role: PinRole) -> bool
    ensures { result ≡ is_input role }
{
    matches!(role, PinRole::Input)
}

fn is_tied(source: Source) -> bool
    ensures { result ≡ is_tied source }
{
    !matches!(source, Source::Empty)
}

/// Whether the connection is an input of a combinational instance that is tied to a net or to a constant.
fn is_fed(cell: &Cell, pin: &Pin) -> bool
    ensures { result ≡ is_fed cell.now pin.now }
{
    is_input(role_in(cell, &pin.name)) && is_tied(pin.source)
}

/// The name of the first such connection.
pub(crate) fn fed_name<'a>(cell: &Cell, pins: &'a [Pin]) -> Option<&'a Name>
    ensures { option_copied result ≡ fed_name cell.now pins.now }
{
    for pin in pins {
        if is_fed(cell, pin) {
            return Some(&pin.name);
        }
    }
    None
}

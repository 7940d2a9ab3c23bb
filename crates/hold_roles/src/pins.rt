ghost use Rattle.std.specs.Prelude.{◌≡◌};
ghost use Rattle.hold_base.specs.Answers.{Answers, unless};
ghost use Rattle.hold_netlist.specs.Names.{is_among};
ghost use Rattle.hold_roles.specs.Faults.{first_bad_in, first_bad_pin, is_bad_pin};
ghost use Rattle.hold_roles.specs.TypePins.{is_clock, is_constant, is_input_pin, is_output_pin};

use crate::fault::RoleFault;
use crate::library::Library;
use crate::role::CellType;
use hold_base::{List, Name, Stop};
use hold_netlist::{Inst, Pin, Source};

/// Whether the name is one of these.
fn is_listed(names: &List<Name>, name: &Name) -> bool
    ensures { result ≡ is_among name.now names.now }
{
    for listed in names.as_slice() {
        if name.bytes() == listed.bytes() {
            return true;
        }
    }
    false
}

/// Whether the name is that of the clock pin.
fn is_clock(clock: &Option<Name>, name: &Name) -> bool
    ensures { result ≡ is_clock clock.now name.now }
{
    match clock {
        Some(clock) => name.bytes() == clock.bytes(),
        None => false,
    }
}

/// Whether the type has an input-side pin of that name.
fn is_input_pin(cell: &CellType, name: &Name) -> bool
    ensures { result ≡ is_input_pin cell.now name.now }
{
    is_listed(&cell.inputs, name) || is_clock(&cell.clock, name) || is_listed(&cell.quiet, name)
}

/// Whether the type has an output of that name.
pub(crate) fn is_output_pin(cell: &CellType, name: &Name) -> bool
    ensures { result ≡ is_output_pin cell.now name.now }
{
    is_listed(&cell.outputs, name)
}

fn is_constant(source: Source) -> bool
    ensures { result ≡ is_constant source }
{
    matches!(source, Source::Zero | Source::One)
}

/// Whether the type has no such pin, or it is an output that is tied to a constant.
fn is_bad_pin(cell: &CellType, pin: &Pin) -> bool
    ensures { result ≡ is_bad_pin cell.now pin.now }
{
    let is_output = is_output_pin(cell, &pin.name);
    !(is_input_pin(cell, &pin.name) || is_output) || (is_output && is_constant(pin.source))
}

/// Tests that each of these connections, of the instance of that name, is right for the type.
fn test_connections(cell: &CellType, inst: &Name, pins: &[Pin]) -> Result<(), Stop<RoleFault>>
    ensures { Answers result (unless (first_bad_in cell.now inst.now pins.now) tt) }
{
    for pin in pins {
        if is_bad_pin(cell, pin) {
            return Err(Stop::Fault(RoleFault::BadPin {
                inst: inst.clone()?,
                pin: pin.name.clone()?,
            }));
        }
    }
    Ok(())
}

/// Tests that each connection of these instances is right for the instance's type.
pub(crate) fn test_pins(library: &Library, insts: &[Inst]) -> Result<(), Stop<RoleFault>>
    ensures { Answers result (unless (first_bad_pin library.now insts.now) tt) }
{
    for inst in insts {
        if let Some(cell) = library.find(inst.kind.bytes()) {
            test_connections(cell, &inst.name, inst.pins.as_slice())?;
        }
    }
    Ok(())
}

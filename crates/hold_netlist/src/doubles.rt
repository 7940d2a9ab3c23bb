ghost use Rattle.std.specs.Prelude.{◌≡◌, ◌++◌, ◌∷◌, [], Some, None, OnOk, if◌then◌else◌};
ghost use Rattle.hold_base.specs.Answers.{Answers, unless};
ghost use Rattle.hold_netlist.specs.Design.{design};
ghost use Rattle.hold_netlist.specs.Doubles.{first_repeat, first_double_in_insts, first_double_name};
ghost use Rattle.hold_netlist.specs.Faults.{double_fault};
ghost use Rattle.hold_netlist.specs.Names.{is_among, wire_names, pin_names};
ghost use Rattle.hold_netlist.specs.inner.NameTable.{names_of};

use crate::fault::NetFault;
use crate::inst::{Inst, Pin};
use crate::name_table::NameTable;
use crate::names_seed::names_seed;
use crate::seed::Seed;
use crate::wire::Wire;
use hold_base::{Name, Stop};
use std::alloc::Global;

/// Puts a name among those seen, which it must be new to. The numbers in the table mean nothing.
fn see(alloc: Global, seen: &mut NameTable, name: &Name) -> Result<(), Stop<NetFault>>
    ensures fault { Answers result (unless (double_fault (if is_among name.now (names_of seen.old) then Some name.now else None)) tt) }
    ensures added { OnOk result (names_of seen.new ≡ names_of seen.old ++ name.now ∷ []) }
{
    if seen.add(alloc, name.bytes(), 0)? {
        return Ok(());
    }
    let double = Name::from_bytes(alloc, name.bytes())?;
    Err(Stop::Fault(NetFault::DoubleName(double)))
}

/// Sees the names of the wires in order.
fn see_wires(alloc: Global, seen: &mut NameTable, wires: &[Wire]) -> Result<(), Stop<NetFault>>
    ensures fault { Answers result (unless (double_fault (first_repeat (names_of seen.old) (wire_names wires.now))) tt) }
    ensures added { OnOk result (names_of seen.new ≡ names_of seen.old ++ wire_names wires.now) }
{
    for wire in wires {
        see(alloc, seen, &wire.name)?;
    }
    Ok(())
}

/// Tests that no connection of an instance names an earlier one's pin.
fn see_pins(alloc: Global, seed: Seed, pins: &[Pin]) -> Result<(), Stop<NetFault>>
    ensures { Answers result (unless (double_fault (first_repeat [] (pin_names pins.now))) tt) }
{
    let mut seen = NameTable::new(alloc, seed);
    for pin in pins {
        see(alloc, &mut seen, &pin.name)?;
    }
    Ok(())
}

/// Sees the names of the instances in order, and each one's pins on their own.
fn see_insts(
    alloc: Global,
    seed: Seed,
    seen: &mut NameTable,
    insts: &[Inst],
) -> Result<(), Stop<NetFault>>
    ensures { Answers result (unless (double_fault (first_double_in_insts (names_of seen.old) insts.now)) tt) }
{
    for inst in insts {
        see(alloc, seen, &inst.name)?;
        see_pins(alloc, seed, inst.pins.as_slice())?;
    }
    Ok(())
}

/// Tests that no two wires or instances share a name and that no instance names a pin twice.
pub(crate) fn test_names(
    alloc: Global,
    wires: &[Wire],
    insts: &[Inst],
) -> Result<(), Stop<NetFault>>
    ensures { Answers result (unless (double_fault (first_double_name (design [] [] wires.now insts.now []))) tt) }
{
    let seed = names_seed(wires, insts);
    let mut seen = NameTable::new(alloc, seed);
    see_wires(alloc, &mut seen, wires)?;
    see_insts(alloc, seed, &mut seen, insts)
}

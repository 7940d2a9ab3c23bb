ghost use Rattle.std.specs.Prelude.{◌≡◌, ◌↔◌, All, IfOk, IsTrue};
ghost use Rattle.hold_plain.specs.Served.{IsRegister, IsServedInst};
ghost use Rattle.hold_plain.specs.inner.Tables.{is_register, AreTables, TellsRegisters};

use crate::cell::Role;
use crate::seeds::insts_seed;
use crate::tables::{Tables, put};
use crate::timing::Timing;
use hold_base::Memory;
use hold_netlist::{Inst, NameTable, Netlist};
use std::alloc::Global;

/// Whether the instance has a known cell, and its arrival where it is a register.
fn serves_inst(tables: &Tables, timing: &Timing, inst: &Inst) -> bool
    requires { AreTables timing.now tables.now.cells tables.now.clocks }
    ensures { IsTrue result ↔ IsServedInst timing.now inst.now }
{
    let Some(cell) = tables.cell(timing, &inst.kind) else {
        return false;
    };
    match cell.role {
        Role::Comb => true,
        Role::Register => tables.arrival(timing, &inst.name).is_some(),
    }
}

/// Whether each instance has a known cell, and its arrival where it is a register.
pub(crate) fn serves_insts(tables: &Tables, timing: &Timing, netlist: &Netlist) -> bool
    requires { AreTables timing.now tables.now.cells tables.now.clocks }
    ensures { IsTrue result ↔ All (IsServedInst timing.now) netlist.now.insts }
{
    netlist
        .insts()
        .iter()
        .all(|inst| serves_inst(tables, timing, inst))
}

/// Whether the instance is a register.
fn is_register(tables: &Tables, timing: &Timing, inst: &Inst) -> bool
    requires { AreTables timing.now tables.now.cells tables.now.clocks }
    ensures { result ≡ is_register timing.now inst.now }
{
    match tables.cell(timing, &inst.kind) {
        Some(cell) => matches!(cell.role, Role::Register),
        None => false,
    }
}

/// The names of the instances that are registers. The numbers in the table mean nothing.
fn registers(
    alloc: Global,
    tables: &Tables,
    timing: &Timing,
    insts: &[Inst],
) -> Result<NameTable, Memory>
    requires { AreTables timing.now tables.now.cells tables.now.clocks }
    ensures { IfOk result (λ table. TellsRegisters timing.now insts.now table) }
{
    let mut table = NameTable::new(alloc, insts_seed(insts));
    for inst in insts {
        if is_register(tables, timing, inst) {
            put(alloc, &mut table, &inst.name, 0)?;
        }
    }
    Ok(table)
}

/// Whether each clock entry names a register.
pub(crate) fn serves_clocks(
    alloc: Global,
    tables: &Tables,
    timing: &Timing,
    netlist: &Netlist,
) -> Result<bool, Memory>
    requires { AreTables timing.now tables.now.cells tables.now.clocks }
    ensures { IfOk result (λ served. IsTrue served ↔
        All (λ clock. IsRegister timing.now netlist.now.insts clock.inst) timing.now.clocks) }
{
    let registers = registers(alloc, tables, timing, netlist.insts())?;
    let served = timing
        .clocks
        .as_slice()
        .iter()
        .all(|clock| registers.find(clock.inst.bytes()).is_some());
    Ok(served)
}

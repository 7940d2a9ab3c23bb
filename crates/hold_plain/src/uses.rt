ghost use Rattle.std.specs.Prelude.{◌≡◌, ◌≤◌, ◌++◌, map, length, All, IfOk, OnOk};
ghost use Rattle.std.specs.Option.{option_copied};
ghost use Rattle.hold_plain.specs.inner.Limits.{IsTimed};
ghost use Rattle.hold_plain.specs.Limits.{KeepsLimits};
ghost use Rattle.hold_plain.specs.PinUses.{cell_uses, fed_name, inst_uses, insts_uses, port_role, port_use, ports_uses, stray_use, use_of, uses_of};
ghost use Rattle.hold_plain.specs.Served.{IsScalar};
ghost use Rattle.hold_plain.specs.inner.Served.{IsUseWithin};
ghost use Rattle.hold_plain.specs.inner.Tables.{AreTables};

use crate::cell::Cell;
use crate::delays::{check_at, delay_to};
use crate::pin_use::{PinRole, PinUse};
use crate::roles::{fed_name, role_in};
use crate::tables::Tables;
use crate::timing::Timing;
use hold_base::{Interval, Memory, Name, NetNo};
use hold_netlist::{Direction, Inst, Netlist, Pin, Port, Source};
use std::alloc::Global;

/// What a connection of the instance of that number is. `fed` is the connected input of the instance.
fn use_of(
    cell: &Cell,
    arrival: Option<Interval>,
    inst: u32,
    fed: Option<&Name>,
    pin: &Pin,
) -> PinUse
    ensures { result ≡ use_of cell.now arrival inst (option_copied fed.entry) pin.now }
{
    let role = role_in(cell, &pin.name);
    PinUse {
        role,
        inst,
        source: pin.source,
        delay: delay_to(cell, fed, &pin.name, role),
        check: check_at(cell, &pin.name, role),
        arrival,
    }
}

/// The same, where the cell isn't known.
fn stray_use(inst: u32, pin: &Pin) -> PinUse
    ensures { result ≡ stray_use inst pin.now }
{
    PinUse {
        role: PinRole::Stray,
        inst,
        source: pin.source,
        delay: None,
        check: None,
        arrival: None,
    }
}

/// Appends what the connections of an instance of the cell are.
fn put_known(
    uses: &mut Vec<PinUse>,
    cell: &Cell,
    arrival: Option<Interval>,
    inst: u32,
    pins: &[Pin],
) -> Result<(), Memory>
    ensures { OnOk result (uses.new.items ≡ uses.old.items ++ map (use_of cell.now arrival inst (fed_name cell.now pins.now)) pins.now) }
{
    let fed = fed_name(cell, pins);
    for pin in pins {
        uses.push(use_of(cell, arrival, inst, fed, pin))?;
    }
    Ok(())
}

/// The same, where the cell isn't known.
fn put_stray(uses: &mut Vec<PinUse>, inst: u32, pins: &[Pin]) -> Result<(), Memory>
    ensures { OnOk result (uses.new.items ≡ uses.old.items ++ map (stray_use inst) pins.now) }
{
    for pin in pins {
        uses.push(stray_use(inst, pin))?;
    }
    Ok(())
}

/// Appends what the connections of the instance of that number are.
fn put_inst(
    uses: &mut Vec<PinUse>,
    tables: &Tables,
    timing: &Timing,
    number: u32,
    inst: &Inst,
) -> Result<(), Memory>
    requires { AreTables timing.now tables.now.cells tables.now.clocks }
    ensures { OnOk result (uses.new.items ≡ uses.old.items ++ inst_uses timing.now number inst.now) }
{
    let pins = inst.pins.as_slice();
    match tables.cell(timing, &inst.kind) {
        Some(cell) => {
            let arrival = tables.arrival(timing, &inst.name);
            put_known(uses, cell, arrival, number, pins)
        }
        None => put_stray(uses, number, pins),
    }
}

/// Appends what the connections of these instances are, the first of which has number 0.
fn put_insts(
    uses: &mut Vec<PinUse>,
    tables: &Tables,
    timing: &Timing,
    insts: &[Inst],
) -> Result<(), Memory>
    requires tables { AreTables timing.now tables.now.cells tables.now.clocks }
    requires few { length insts.now ≤ 33554432 }
    ensures { OnOk result (uses.new.items ≡ uses.old.items ++ insts_uses timing.now 0 insts.now) }
{
    for (number, inst) in insts.iter().enumerate() {
        put_inst(uses, tables, timing, number as u32, inst)?;
    }
    Ok(())
}

fn port_role(direction: Direction) -> PinRole
    ensures { result ≡ port_role direction }
{
    match direction {
        Direction::Input => PinRole::InPort,
        Direction::Output => PinRole::OutPort,
    }
}

/// What the bit of a scalar port is, whose net has that number.
fn port_use(net: u32, port: &Port) -> PinUse
    ensures { result ≡ port_use net port.now }
{
    PinUse {
        role: port_role(port.direction),
        inst: 0,
        source: Source::Net(NetNo(net)),
        delay: None,
        check: None,
        arrival: None,
    }
}

/// Appends what these ports are, the first of which has net 0.
fn put_ports(uses: &mut Vec<PinUse>, ports: &[Port]) -> Result<(), Memory>
    requires { length ports.now ≤ 33554432 }
    ensures { OnOk result (uses.new.items ≡ uses.old.items ++ ports_uses 0 ports.now) }
{
    for (net, port) in ports.iter().enumerate() {
        uses.push(port_use(net as u32, port))?;
    }
    Ok(())
}

/// What each pin of the netlist is: the connections in the order of instances, then the ports.
pub(crate) fn uses_of(
    alloc: Global,
    tables: &Tables,
    timing: &Timing,
    netlist: &Netlist,
) -> Result<Vec<PinUse>, Memory>
    requires { AreTables timing.now tables.now.cells tables.now.clocks }
    ensures is { IfOk result (λ uses. uses.items ≡ uses_of timing.now netlist.now) }
    ensures timed { KeepsLimits timing.now → IfOk result (λ uses. All IsTimed uses.items) }
    ensures within { IsScalar netlist.now → IfOk result (λ uses.
        All (IsUseWithin (length netlist.now.wires) (length netlist.now.insts)) uses.items) }
{
    netlist.know_valid();
    let mut uses = Vec::new(alloc);
    put_insts(&mut uses, tables, timing, netlist.insts())?;
    put_ports(&mut uses, netlist.ports())?;
    Ok(uses)
}

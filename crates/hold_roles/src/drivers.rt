ghost use Rattle.std.specs.Prelude.{◌≡◌, ◌+◌, ◌^◌, ◌≤◌, ◌<◌, ◌↔◌, length, map, flat_map, slice_get, Some, IfOk, IfSome, IfNone, IsTrue};
ghost use Rattle.std.specs.List.{AllByRecursion, range_with_len};
ghost use Rattle.hold_base.specs.Limits.{pins_limit};
ghost use Rattle.hold_netlist.specs.Bits.{bits_of};
ghost use Rattle.hold_netlist.specs.Pins.{connection_count};
ghost use Rattle.hold_netlist.specs.WellFormed.{IsWrittenAssign, IsWrittenInst, IsWrittenPin};
ghost use Rattle.hold_roles.specs.declared.drivers.Slot.{Slot};
ghost use Rattle.hold_roles.specs.Drivers.{assign_drive, bit_drive, cell_drives, direction_drives, drivers, drives, inst_drives, pin_drive, pin_drives, port_drives};
ghost use Rattle.hold_roles.specs.Types.{type_named};
ghost use Rattle.hold_roles.specs.Faults.{HasNone, IsFirst};
ghost use Rattle.hold_roles.specs.inner.Slots.{slot_with, with_drive, with_drives, HoldsDrivers};

use crate::library::Library;
use crate::limits::{bit_count, connection_count, width};
use crate::pins::is_output_pin;
use crate::role::CellType;
use hold_base::{Memory, NetNo, PinNo};
use hold_netlist::{Assign, Direction, Inst, Netlist, Pin, Port, Source, Wire};
use std::alloc::Global;

/// What drives a net bit.
#[derive(Clone, Copy, Debug)]
pub(crate) enum Driver {
    /// An output of an instance or a bit of an input port.
    Pin(PinNo),
    /// The net bit that it is assigned from.
    Net(NetNo),
    /// The constant `1'b0`, that it is assigned from.
    Zero,
    /// The constant `1'b1`, that it is assigned from.
    One,
}

/// What drives a net bit, as far as it was looked for.
#[derive(Clone, Copy, Debug)]
pub(crate) enum Slot {
    /// Nothing.
    Free,
    /// This alone.
    Only(Driver),
    /// Two drivers or more.
    Several,
}

/// The slot with one driver more.
fn slot_with(slot: Slot, driver: Driver) -> Slot
    ensures { result ≡ slot_with slot driver }
{
    match slot {
        Slot::Free => Slot::Only(driver),
        Slot::Only(_) | Slot::Several => Slot::Several,
    }
}

/// Puts a driver into the slot of its net bit.
fn put(slots: &mut [Slot], net: NetNo, driver: Driver)
    requires { net.0 < length slots.old }
    ensures { slots.new ≡ with_drive slots.old (net.0, driver) }
{
    let place = net.0 as usize;
    slots[place] = slot_with(slots[place], driver);
}

/// Puts what a connection of that number, of an instance of the type, drives.
fn put_pin(slots: &mut [Slot], cell: &CellType, number: u32, pin: &Pin)
    requires { IsWrittenPin (length slots.old) pin.now }
    ensures { slots.new ≡ with_drives slots.old (pin_drive cell.now number pin.now) }
{
    if is_output_pin(cell, &pin.name) {
        if let Source::Net(net) = pin.source {
            put(slots, net, Driver::Pin(PinNo(number)));
        }
    }
}

/// Puts what these connections drive, the first of which has that number.
fn put_pins(slots: &mut [Slot], cell: &CellType, first: u32, pins: &[Pin])
    requires written { AllByRecursion (IsWrittenPin (length slots.old)) pins.now }
    requires few { first + length pins.now ≤ pins_limit }
    ensures { slots.new ≡ with_drives slots.old (pin_drives cell.now first pins.now) }
{
    for (place, pin) in pins.iter().enumerate() {
        put_pin(slots, cell, first + place as u32, pin);
    }
}

/// Puts what the connections of an instance drive, the first of which has that number.
fn put_inst(slots: &mut [Slot], library: &Library, first: u32, inst: &Inst)
    requires written { IsWrittenInst (length slots.old) inst.now }
    requires few { first + length inst.now.pins ≤ pins_limit }
    ensures { slots.new ≡ with_drives slots.old (cell_drives (type_named inst.now.kind library.now) first inst.now.pins) }
{
    if let Some(cell) = library.find(inst.kind.bytes()) {
        put_pins(slots, cell, first, inst.pins.as_slice());
    }
}

/// Puts what the connections of these instances drive.
fn put_insts(slots: &mut [Slot], library: &Library, insts: &[Inst])
    requires written { AllByRecursion (IsWrittenInst (length slots.old)) insts.now }
    requires few { connection_count insts.now ≤ pins_limit }
    ensures { slots.new ≡ with_drives slots.old (inst_drives library.now 0 insts.now) }
{
    let mut first = 0;
    for inst in insts {
        put_inst(slots, library, first, inst);
        first += inst.pins.as_slice().len() as u32;
    }
}

/// Puts what the bits of an input port drive. Its first bit is net bit `from`, and pin `first` would be net bit 0.
fn put_port_bits(slots: &mut [Slot], first: u32, from: u32, width: u32)
    requires within { from + width ≤ length slots.old }
    requires few { first + (from + width) < 2 ^ 32 }
    ensures { slots.new ≡ with_drives slots.old (map (bit_drive first) (range_with_len from width)) }
{
    for n in 0..width {
        put(
            slots,
            NetNo(from + n),
            Driver::Pin(PinNo(first + (from + n))),
        );
    }
}

/// Puts what the bits of a port drive, as above.
fn put_port(slots: &mut [Slot], first: u32, from: u32, direction: Direction, width: u32)
    requires within { from + width ≤ length slots.old }
    requires few { first + (from + width) < 2 ^ 32 }
    ensures { slots.new ≡ with_drives slots.old (direction_drives direction first from width) }
{
    match direction {
        Direction::Input => put_port_bits(slots, first, from, width),
        Direction::Output => {}
    }
}

/// Puts what the bits of these ports drive, which are the first of these wires. The first bit is pin `first`.
fn put_ports(slots: &mut [Slot], first: u32, ports: &[Port], wires: &[Wire])
    requires within { bits_of wires.now ≤ length slots.old }
    requires few { first + bits_of wires.now < 2 ^ 32 }
    requires wires { length ports.now ≤ length wires.now }
    ensures { slots.new ≡ with_drives slots.old (port_drives first 0 ports.now wires.now) }
{
    let mut from = 0;
    for (place, port) in ports.iter().enumerate() {
        let width = width(&wires[place]) as u32;
        put_port(slots, first, from, port.direction, width);
        from += width;
    }
}

/// Puts what an assignment drives.
fn put_assign(slots: &mut [Slot], assign: &Assign)
    requires { IsWrittenAssign (length slots.old) assign.now }
    ensures { slots.new ≡ with_drives slots.old (assign_drive assign.now) }
{
    match assign.right {
        Source::Net(net) => put(slots, assign.left, Driver::Net(net)),
        Source::Zero => put(slots, assign.left, Driver::Zero),
        Source::One => put(slots, assign.left, Driver::One),
        Source::Empty => {}
    }
}

/// Puts what these assignments drive.
fn put_assigns(slots: &mut [Slot], assigns: &[Assign])
    requires { AllByRecursion (IsWrittenAssign (length slots.old)) assigns.now }
    ensures { slots.new ≡ with_drives slots.old (flat_map assign_drive assigns.now) }
{
    for assign in assigns {
        put_assign(slots, assign);
    }
}

/// Puts what the pins and assignments of a netlist drive.
fn fill(slots: &mut [Slot], library: &Library, netlist: &Netlist)
    requires { length slots.old ≡ bits_of netlist.now.wires }
    ensures { slots.new ≡ with_drives slots.old (drives library.now netlist.now) }
{
    netlist.know_valid();
    let first = connection_count(netlist.insts()) as u32;
    put_insts(slots, library, netlist.insts());
    put_ports(slots, first, netlist.ports(), netlist.wires());
    put_assigns(slots, netlist.assigns());
}

/// What drives each net bit of a netlist.
pub(crate) fn slots_of(
    alloc: Global,
    library: &Library,
    netlist: &Netlist,
) -> Result<Vec<Slot>, Memory>
    ensures { IfOk result (λ slots. HoldsDrivers (bits_of netlist.now.wires) (drivers library.now netlist.now) slots.items) }
{
    netlist.know_valid();
    let bits = bit_count(netlist.wires()) as usize;
    let mut slots = vec![in alloc; Slot::Free; bits]?;
    fill(&mut slots, library, netlist);
    Ok(slots)
}

fn is_several(slot: Slot) -> bool
    ensures { IsTrue result ↔ (slot ≡ Slot.Several) }
{
    matches!(slot, Slot::Several)
}

/// The first net bit that has two drivers.
pub(crate) fn first_double(slots: &[Slot]) -> Option<u32>
    requires { length slots.now < 2 ^ 32 }
    ensures some { IfSome result (IsFirst (λ n. slice_get slots.now n ≡ Some Slot.Several)) }
    ensures none { IfNone result (HasNone (λ n. slice_get slots.now n ≡ Some Slot.Several)) }
{
    for (place, slot) in slots.iter().enumerate() {
        if is_several(*slot) {
            return Some(place as u32);
        }
    }
    None
}

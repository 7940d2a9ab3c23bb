ghost use Rattle.std.specs.Prelude.{◌≡◌, ◌++◌, ◌<◌, ◌+◌, ◌^◌, ◌≤◌, OnOk, IfOk, length, map};
ghost use Rattle.std.specs.List.{range_with_len};
ghost use Rattle.hold_base.specs.Limits.{pins_limit};
ghost use Rattle.hold_netlist.specs.Bits.{bits_of};
ghost use Rattle.hold_build.specs.inner.Insts.{over_insts};
ghost use Rattle.hold_build.specs.inner.Sinks.{bit_sink, direction_sinks, net_sink, pin_sink, pin_sinks, port_sinks, sinks};

use crate::counts::{connection_count, width};
use crate::type_pins::is_input_pin;
use hold_base::{InstNo, Memory, NetNo, PinNo};
use hold_netlist::{Direction, Pin, Port, Source, Wire};
use hold_roles::{Bound, CellType};
use std::alloc::Global;

/// A pin that has its value from a net bit.
#[derive(Clone, Copy, Debug)]
pub(crate) struct Sink {
    pub pin: PinNo,
    pub net: NetNo,
}

/// Appends a connection of that number, if it is an input-side pin of the type and connected to a net bit.
fn put_pin_sink(out: &mut Vec<Sink>, cell: &CellType, number: u32, pin: &Pin) -> Result<(), Memory>
    ensures { OnOk result (out.new.items ≡ out.old.items ++ pin_sink cell.now number pin.now) }
{
    if is_input_pin(cell, &pin.name) {
        if let Source::Net(net) = pin.source {
            out.push(Sink {
                pin: PinNo(number),
                net,
            })?;
        }
    }
    Ok(())
}

/// Appends those of these connections, the first of which has that number.
pub(crate) fn put_pin_sinks(
    out: &mut Vec<Sink>,
    cell: &CellType,
    first: u32,
    pins: &[Pin],
) -> Result<(), Memory>
    requires { first + length pins.now ≤ pins_limit }
    ensures { OnOk result (out.new.items ≡ out.old.items ++ pin_sinks cell.now first pins.now) }
{
    for (place, pin) in pins.iter().enumerate() {
        put_pin_sink(out, cell, first + place as u32, pin)?;
    }
    Ok(())
}

/// Appends those of the instances, in order.
fn put_inst_sinks(out: &mut Vec<Sink>, bound: &Bound) -> Result<(), Memory>
    ensures { OnOk result (out.new.items ≡ out.old.items ++ over_insts pin_sinks bound.now.types 0 bound.now.netlist.insts) }
{
    let netlist = bound.netlist();
    netlist.know_valid();
    let mut first = 0;
    for (place, inst) in netlist.insts().iter().enumerate() {
        let cell = bound.cell(InstNo(place as u32));
        let pins = inst.pins.as_slice();
        put_pin_sinks(out, cell, first, pins)?;
        first += pins.len() as u32;
    }
    Ok(())
}

/// Appends the bits of an output port. Its first bit is net bit `from`, and pin `first` would be net bit 0.
fn put_bit_sinks(out: &mut Vec<Sink>, first: u32, from: u32, width: u32) -> Result<(), Memory>
    requires few { first + (from + width) < 2 ^ 32 }
    ensures { OnOk result (out.new.items ≡ out.old.items ++ map (bit_sink first) (range_with_len from width)) }
{
    for n in 0..width {
        out.push(Sink {
            pin: PinNo(first + (from + n)),
            net: NetNo(from + n),
        })?;
    }
    Ok(())
}

/// Appends the bits of a port, if it is an output, as above.
fn put_port_sinks(
    out: &mut Vec<Sink>,
    first: u32,
    from: u32,
    direction: Direction,
    width: u32,
) -> Result<(), Memory>
    requires few { first + (from + width) < 2 ^ 32 }
    ensures { OnOk result (out.new.items ≡ out.old.items ++ direction_sinks direction first from width) }
{
    match direction {
        Direction::Output => put_bit_sinks(out, first, from, width),
        Direction::Input => Ok(()),
    }
}

/// Appends the bits of the output ports among these, which are the first of these wires. The first bit is pin `first`.
fn put_ports_sinks(
    out: &mut Vec<Sink>,
    first: u32,
    ports: &[Port],
    wires: &[Wire],
) -> Result<(), Memory>
    requires few { first + bits_of wires.now < 2 ^ 32 }
    requires wires { length ports.now ≤ length wires.now }
    ensures { OnOk result (out.new.items ≡ out.old.items ++ port_sinks first 0 ports.now wires.now) }
{
    let mut from = 0;
    for (place, port) in ports.iter().enumerate() {
        let width = width(&wires[place]) as u32;
        put_port_sinks(out, first, from, port.direction, width)?;
        from += width;
    }
    Ok(())
}

/// The pins that have their values from net bits, in order.
pub(crate) fn sinks(alloc: Global, bound: &Bound) -> Result<Vec<Sink>, Memory>
    ensures { IfOk result (λ found. found.items ≡ sinks bound.now.types bound.now.netlist) }
{
    let netlist = bound.netlist();
    netlist.know_valid();
    let mut out = Vec::new(alloc);
    put_inst_sinks(&mut out, bound)?;
    let first = connection_count(netlist.insts()) as u32;
    put_ports_sinks(&mut out, first, netlist.ports(), netlist.wires())?;
    Ok(out)
}

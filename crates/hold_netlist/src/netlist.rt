ghost use Rattle.std.specs.Prelude.{◌≡◌, ◌≤◌, ◌↔◌, ◌++◌, ℕ, Some, None, length, take, IfOk, OnOk, IfSome, IsNone, IsTrue};
ghost use Rattle.hold_base.specs.Answers.{Answers, unless};
ghost use Rattle.hold_netlist.specs.Bits.{bits_of, IsNetBit};
ghost use Rattle.hold_netlist.specs.Design.{design};
ghost use Rattle.hold_netlist.specs.Faults.{first_fault};
ghost use Rattle.hold_netlist.specs.PinText.{pin_text, bit_name};
ghost use Rattle.hold_netlist.specs.Pins.{connection_count, port_bits, IsConnection};
ghost use Rattle.hold_netlist.specs.Valid.{IsValid};
ghost use Rattle.hold_netlist.specs.WellFormed.{IsWellFormed};

use crate::copy::{copy_assigns, copy_insts, copy_name, copy_numbers, copy_ports, copy_wires};
use crate::doubles::test_names;
use crate::fault::NetFault;
use crate::inst::{Assign, Inst};
use crate::limits::passed_limit;
use crate::numbering::{first_bits, first_pins, numbered};
use crate::pin_text::{put_connection, put_wire_bit};
use crate::same::{same_assigns, same_insts, same_ports, same_wires};
use crate::wire::{Port, Wire};
use hold_base::{InstNo, Memory, Name, NetNo, PinNo, Stop};
use std::alloc::{AllocError, Global};
use std::marker::Model;

/// A valid netlist: a flat module whose parts fit together, in which no name stands twice and no count
/// passes its limit. The ports are the first wires.
#[derive(Debug, Drop)]
pub struct Netlist {
    name: Name,
    ports: Vec<Port>,
    wires: Vec<Wire>,
    insts: Vec<Inst>,
    assigns: Vec<Assign>,
    /// The number of the first connection of each instance, and then how many connections there are.
    first_pins: Vec<u32>,
    /// The number of the first bit of each wire, and then how many bits there are.
    first_bits: Vec<u32>,
}

impl Model for Netlist {
    ghost use Rattle.std.specs.Prelude.{◌≡◌};
    ghost use Rattle.hold_netlist.specs.Design.{Design, design};
    ghost use Rattle.hold_netlist.specs.Bits.{width_of};
    ghost use Rattle.hold_netlist.specs.Pins.{pin_count};
    ghost use Rattle.hold_netlist.specs.inner.Numbering.{firsts_from};
    ghost use Rattle.hold_netlist.specs.Valid.{IsValid};

    ghost Value = { Design };

    ghost view = { λ n. design n.name n.ports.items n.wires.items n.insts.items n.assigns.items };

    ghost invariant = { λ n. IsValid (design n.name n.ports.items n.wires.items n.insts.items n.assigns.items) × (n.first_pins.items ≡ firsts_from 0 pin_count n.insts.items) × (n.first_bits.items ≡ firsts_from 0 width_of n.wires.items) };
}

impl Netlist {
    /// The netlist of these parts, which are taken over.
    pub fn make(
        alloc: Global,
        name: Name,
        ports: Vec<Port>,
        wires: Vec<Wire>,
        insts: Vec<Inst>,
        assigns: Vec<Assign>,
    ) -> Result<Netlist, Stop<NetFault>>
        requires { IsWellFormed (design name ports.items wires.items insts.items assigns.items) }
        ensures made { IfOk result (λ netlist. netlist ≡ design name ports.items wires.items insts.items assigns.items) }
        ensures valid { OnOk result (IsValid (design name ports.items wires.items insts.items assigns.items)) }
        ensures fault { Answers result (unless (first_fault (design name ports.items wires.items insts.items assigns.items)) (design name ports.items wires.items insts.items assigns.items)) }
    {
        test_names(alloc, &wires, &insts)?;
        if let Some(what) = passed_limit(&ports, &wires, &insts, &assigns) {
            return Err(Stop::Fault(NetFault::Limit(what)));
        }
        let first_pins = first_pins(alloc, &insts)?;
        let first_bits = first_bits(alloc, &wires)?;
        Ok(Netlist {
            name,
            ports,
            wires,
            insts,
            assigns,
            first_pins,
            first_bits,
        })
    }

    /// The module's name.
    pub fn name(&self) -> &Name
        ensures { result.now ≡ self.now.name }
    {
        &self.name
    }

    /// The ports, in order. Their wires are the first wires.
    pub fn ports(&self) -> &[Port]
        ensures { result.now ≡ self.now.ports }
    {
        self.ports.as_slice()
    }

    /// The wires, in order.
    pub fn wires(&self) -> &[Wire]
        ensures { result.now ≡ self.now.wires }
    {
        self.wires.as_slice()
    }

    /// The instances, in order.
    pub fn insts(&self) -> &[Inst]
        ensures { result.now ≡ self.now.insts }
    {
        self.insts.as_slice()
    }

    /// The assignments of single bits, in order.
    pub fn assigns(&self) -> &[Assign]
        ensures { result.now ≡ self.now.assigns }
    {
        self.assigns.as_slice()
    }

    /// The connection of this number, as its instance and its place there; none for a port bit, and none past
    /// the last pin.
    pub fn pin(&self, pin: PinNo) -> Option<(InstNo, u32)>
        ensures found { IfSome result (λ c. IsConnection self.now.insts pin.0 c.0.0 c.1) }
        ensures none { IsNone result ↔ (connection_count self.now.insts ≤ pin.0) }
    {
        let (inst, place) = numbered(&self.first_pins, pin.0)?;
        Some((InstNo(inst as u32), place))
    }

    /// The net bit of this number, as the place of its wire and how far it is from the wire's left bound; none past the
    /// last bit.
    pub fn net_bit(&self, net: NetNo) -> Option<(usize, u32)>
        ensures found { IfSome result (λ b. IsNetBit self.now.wires net.0 b.0 b.1) }
        ensures none { IsNone result ↔ (bits_of self.now.wires ≤ net.0) }
    {
        numbered(&self.first_bits, net.0)
    }

    /// How many connections the instances have.
    fn connections(&self) -> u32
        ensures { result ≡ connection_count self.now.insts }
    {
        let firsts = self.first_pins.as_slice();
        firsts[self.insts().len()]
    }

    /// How many bits the ports have, which are the first wires.
    fn port_bits(&self) -> u32
        ensures { result ≡ port_bits self.now }
    {
        let firsts = self.first_bits.as_slice();
        firsts[self.ports().len()]
    }

    /// Appends how a net bit is said; nothing past the last.
    pub fn put_net_bit(&self, out: &mut Vec<u8>, net: NetNo) -> Result<(), Memory>
        ensures ok { OnOk result (out.new.items ≡ out.old.items ++ bit_name self.now.wires net.0) }
    {
        if let Some((place, n)) = self.net_bit(net) {
            put_wire_bit(out, &self.wires()[place], n)?;
        }
        Ok(())
    }

    /// Appends how a bit of the ports is said; nothing past the last.
    fn put_port_bit(&self, out: &mut Vec<u8>, bit: u32) -> Result<(), Memory>
        ensures { OnOk result (out.new.items ≡ out.old.items ++ bit_name (take (length self.now.ports) self.now.wires) bit) }
    {
        if bit < self.port_bits() {
            self.put_net_bit(out, NetNo(bit))?;
        }
        Ok(())
    }

    /// Appends how a pin is said: a connection as `inst/pin`, a bit of a port as a net bit; nothing past the last.
    pub fn put_pin(&self, out: &mut Vec<u8>, pin: PinNo) -> Result<(), Memory>
        ensures ok { OnOk result (out.new.items ≡ out.old.items ++ pin_text self.now pin.0) }
    {
        match self.pin(pin) {
            Some((inst, place)) => put_connection(out, &self.insts()[inst.0 as usize], place),
            None => self.put_port_bit(out, pin.0 - self.connections()),
        }
    }

    /// Whether all parts of the two are equal.
    pub fn same(&self, other: &Netlist) -> bool
        ensures { IsTrue result ↔ (self.now ≡ other.now) }
    {
        self.name == other.name
            && same_ports(&self.ports, &other.ports)
            && same_wires(&self.wires, &other.wires)
            && same_insts(&self.insts, &other.insts)
            && same_assigns(&self.assigns, &other.assigns)
    }

    /// Does nothing. A proof learns from the call that the netlist is valid.
    pub fn know_valid(&self)
        ensures { IsValid self.now }
    {
        let _name = &self.name;
    }
}

impl Clone for Netlist {
    ghost is_clone = { λ netlist copy. copy ≡ netlist };

    fn clone(&self) -> Result<Netlist, AllocError> {
        Ok(Netlist {
            name: copy_name(&self.name)?,
            ports: copy_ports(&self.ports)?,
            wires: copy_wires(&self.wires)?,
            insts: copy_insts(&self.insts)?,
            assigns: copy_assigns(&self.assigns)?,
            first_pins: copy_numbers(&self.first_pins)?,
            first_bits: copy_numbers(&self.first_bits)?,
        })
    }
}

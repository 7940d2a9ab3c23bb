ghost use Rattle.std.specs.Prelude.{◌≡◌, ◌<◌, ◌↔◌, Some, IfOk, List as Items, ℕ, length, IsTrue};
ghost use Rattle.hold_base.specs.declared.number.InstNo.{InstNo as Number};
ghost use Rattle.hold_base.specs.declared.number.PinNo.{PinNo as Pin};
ghost use Rattle.hold_build.specs.NetlistGraph.{IsNamedInst};
ghost use Rattle.hold_netlist.specs.Pins.{pins_of};
ghost use Rattle.hold_told.specs.Places.{HasPin, IsNamedPin};
ghost use Rattle.hold_told.specs.inner.Names.{AreNames};
ghost use Rattle.hold_told.specs.inner.Told.{HasClock, IsFound, NamesPin};

use crate::first_numbers::{first_bits, first_pins};
use crate::name_places::{inst_places, pin_place, port_places};
use crate::named::Named;
use crate::type_pins::{has_pin, is_clock};
use hold_base::{InstNo, Memory, Name, PinNo};
use hold_netlist::{NameTable, Netlist};
use hold_roles::Bound;
use std::alloc::Global;

/// What finds pins by their names.
#[derive(Drop)]
pub(crate) struct Names {
    /// The number of each instance.
    pub insts: NameTable,
    /// The number of the first connection of each instance, and then how many connections there are.
    pub first_pins: Vec<u32>,
    /// The number of each port.
    pub ports: NameTable,
    /// The number of the first net bit of each wire, and then how many net bits there are. The ports are the first wires.
    pub first_bits: Vec<u32>,
}

impl Names {
    /// What finds those of a netlist.
    pub(crate) fn of(alloc: Global, netlist: &Netlist) -> Result<Names, Memory>
        ensures { IfOk result (AreNames netlist.now) }
    {
        netlist.know_valid();
        Ok(Names {
            insts: inst_places(alloc, netlist.insts())?,
            first_pins: first_pins(alloc, netlist.insts())?,
            ports: port_places(alloc, netlist.ports())?,
            first_bits: first_bits(alloc, netlist.wires())?,
        })
    }

    /// The instance of this name.
    pub(crate) fn inst(&self, netlist: &Netlist, name: &[u8]) -> Option<InstNo>
        requires { AreNames netlist.now self.now }
        ensures { (inst : Number) → IsNamedInst netlist.now.insts inst.0 name.now ↔ (result ≡ Some inst) }
    {
        netlist.know_valid();
        match self.insts.find(name) {
            Some(inst) => Some(InstNo(inst)),
            None => None,
        }
    }

    /// The connection of that name of an instance.
    fn connection(&self, netlist: &Netlist, inst: InstNo, pin: &[u8]) -> Option<PinNo>
        requires names { AreNames netlist.now self.now }
        requires within { inst.0 < length netlist.now.insts }
        ensures { (name : Items ℕ) → IsNamedInst netlist.now.insts inst.0 name → (p : Pin) → IsNamedPin netlist.now.insts name pin.now p ↔ (result ≡ Some p) }
    {
        netlist.know_valid();
        let at = inst.0 as usize;
        match pin_place(netlist.insts()[at].pins.as_slice(), pin) {
            Some(place) => Some(PinNo(self.first_pins[at] + place)),
            None => None,
        }
    }

    /// What a pin of an instance names.
    pub(crate) fn pin(&self, bound: &Bound, inst: &Name, pin: &Name) -> Named
        requires { AreNames bound.now.netlist self.now }
        ensures found { IsFound (HasPin bound.now inst.now pin.now) (IsNamedPin bound.now.netlist.insts inst.now pin.now) result }
        ensures within { (p : Pin) → NamesPin result p → p.0 < pins_of bound.now.netlist }
    {
        let netlist = bound.netlist();
        netlist.know_valid();
        let Some(number) = self.inst(netlist, inst.bytes()) else {
            return Named::Nothing;
        };
        if !has_pin(bound.cell(number), pin) {
            return Named::Nothing;
        }
        match self.connection(netlist, number, pin.bytes()) {
            Some(found) => Named::Pin(found),
            None => Named::Unwritten,
        }
    }

    /// Whether the name is that of the clock pin of an instance.
    pub(crate) fn has_clock(&self, bound: &Bound, inst: &Name, pin: &Name) -> bool
        requires { AreNames bound.now.netlist self.now }
        ensures { IsTrue result ↔ HasClock bound.now inst.now pin.now }
    {
        let netlist = bound.netlist();
        netlist.know_valid();
        match self.inst(netlist, inst.bytes()) {
            Some(number) => is_clock(bound.cell(number), pin),
            None => false,
        }
    }
}

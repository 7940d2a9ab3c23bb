ghost use Rattle.std.specs.Prelude.{◌≡◌, ◌↔◌, ◌<◌, Some, ℕ};
ghost use Rattle.hold_base.specs.declared.number.NetNo.{NetNo as Number};
ghost use Rattle.hold_base.specs.declared.number.PinNo.{PinNo as Pin};
ghost use Rattle.hold_netlist.specs.Pins.{pins_of};
ghost use Rattle.hold_told.specs.Places.{HasPortBit, IsPortPath, IsWholePort, NamesBit};
ghost use Rattle.hold_told.specs.inner.Names.{AreNames};
ghost use Rattle.hold_told.specs.inner.Ports.{IsIndexOf, IsPortNamed, IsRangedBit};
ghost use Rattle.hold_told.specs.inner.Told.{IsFound, NamesPin};

use crate::first_numbers::width;
use crate::indexed::indexed;
use crate::named::Named;
use crate::names::Names;
use hold_base::{NetNo, PinNo};
use hold_netlist::Netlist;

/// How far the bit of an index is from the left bound, where the range has it.
fn bit_at(left: u32, right: u32, index: u64) -> Option<u32>
    ensures { (bit : ℕ) → IsIndexOf left right bit index ↔ (result ≡ Some bit) }
{
    let (left, right) = (u64::from(left), u64::from(right));
    if left < right {
        if index < left || right < index {
            return None;
        }
        return Some((index - left) as u32);
    }
    if index < right || left < index {
        return None;
    }
    Some((left - index) as u32)
}

/// The wire of the port of that name.
fn port_wire(names: &Names, netlist: &Netlist, name: &[u8]) -> Option<u32>
    requires { AreNames netlist.now names.now }
    ensures { (k : ℕ) → IsPortNamed netlist.now name.now k ↔ (result ≡ Some k) }
{
    netlist.know_valid();
    names.ports.find(name)
}

/// The net bit of the port of that name, where it has one bit.
fn whole_port(names: &Names, netlist: &Netlist, text: &[u8]) -> Option<NetNo>
    requires { AreNames netlist.now names.now }
    ensures { (net : Number) → IsWholePort netlist.now text.now net ↔ (result ≡ Some net) }
{
    netlist.know_valid();
    let Some(port) = port_wire(names, netlist, text) else {
        return None;
    };
    let at = port as usize;
    if width(&netlist.wires()[at]) != 1 {
        return None;
    }
    Some(NetNo(names.first_bits[at]))
}

/// The net bit of a vector port that the text is the name and the index of.
fn ranged_bit(names: &Names, netlist: &Netlist, text: &[u8]) -> Option<NetNo>
    requires { AreNames netlist.now names.now }
    ensures { (net : Number) → IsRangedBit netlist.now text.now net.0 ↔ (result ≡ Some net) }
{
    netlist.know_valid();
    let Some((name, index)) = indexed(text) else {
        return None;
    };
    let Some(port) = port_wire(names, netlist, name) else {
        return None;
    };
    let at = port as usize;
    let range = netlist.wires()[at].range;
    let Some((left, right)) = range else {
        return None;
    };
    match bit_at(left, right, index) {
        Some(bit) => Some(NetNo(names.first_bits[at] + bit)),
        None => None,
    }
}

/// The net bit of a port that the text names, whole or by its index.
pub(crate) fn port_bit(names: &Names, netlist: &Netlist, text: &[u8]) -> Option<NetNo>
    requires { AreNames netlist.now names.now }
    ensures { (net : Number) → NamesBit netlist.now text.now net ↔ (result ≡ Some net) }
{
    match whole_port(names, netlist, text) {
        Some(net) => Some(net),
        None => ranged_bit(names, netlist, text),
    }
}

/// What a text names among the bits of ports.
pub(crate) fn port_pin(names: &Names, netlist: &Netlist, text: &[u8]) -> Named
    requires { AreNames netlist.now names.now }
    ensures found { IsFound (HasPortBit netlist.now text.now) (IsPortPath netlist.now text.now) result }
    ensures within { (p : Pin) → NamesPin result p → p.0 < pins_of netlist.now }
{
    netlist.know_valid();
    match port_bit(names, netlist, text) {
        Some(net) => Named::Pin(PinNo(names.first_pins[netlist.insts().len()] + net.0)),
        None => Named::Nothing,
    }
}

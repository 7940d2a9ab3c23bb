ghost use Rattle.std.specs.Prelude.{◌≡◌, ◌+◌, ◌≤◌, ◌↔◌, [], length, take, nat_lt, Some, None, IsTrue, if◌then◌else◌};
ghost use Rattle.hold_base.specs.Limits.{pins_limit};
ghost use Rattle.hold_netlist.specs.Bits.{width_of_range, bits_of};
ghost use Rattle.hold_netlist.specs.Design.{design};
ghost use Rattle.hold_netlist.specs.Limits.{first_passed_limit};
ghost use Rattle.hold_netlist.specs.Pins.{connection_count};

use crate::inst::{Assign, Inst};
use crate::wire::{Port, Wire};
use hold_base::{What, limits};

/// The number of bits of a range; one without a range.
pub(crate) fn width(range: Option<(u32, u32)>) -> u64
    ensures width { result ≡ width_of_range range }
    ensures small { result ≤ 4294967296 }
{
    match range {
        None => 1,
        Some((left, right)) => u64::from(left.abs_diff(right)) + 1,
    }
}

/// The number of bits of these wires, where it isn't above `most`.
fn bits_within(wires: &[Wire], most: u64) -> Option<u64>
    requires { most ≤ pins_limit }
    ensures { result ≡ (if nat_lt most (bits_of wires.now) then None else Some (bits_of wires.now)) }
{
    let mut bits = 0;
    for wire in wires {
        bits += width(wire.range);
        if bits > most {
            return None;
        }
    }
    Some(bits)
}

/// The number of connections of these instances, where it isn't above `most`.
fn connections_within(insts: &[Inst], most: u64) -> Option<u64>
    requires { most ≤ pins_limit }
    ensures { result ≡ (if nat_lt most (connection_count insts.now) then None else Some (connection_count insts.now)) }
{
    let mut connections = 0;
    for inst in insts {
        let count = inst.pins.as_slice().len() as u64;
        if count > most - connections {
            return None;
        }
        connections += count;
    }
    Some(connections)
}

/// Whether the connections and the bits of the ports, which are the first wires, are too many.
fn has_too_many_pins(ports: &[Port], wires: &[Wire], insts: &[Inst]) -> bool
    requires { length ports.now ≤ length wires.now }
    ensures { result ≡ nat_lt pins_limit (connection_count insts.now + bits_of (take (length ports.now) wires.now)) }
{
    let (port_wires, _) = wires.split_at(ports.len());
    match (
        connections_within(insts, limits::PINS),
        bits_within(port_wires, limits::PINS),
    ) {
        (Some(connections), Some(port_bits)) => connections + port_bits > limits::PINS,
        _ => true,
    }
}

/// What there is too much of, in the order net bits, instances, pins, assigned bits.
pub(crate) fn passed_limit(
    ports: &[Port],
    wires: &[Wire],
    insts: &[Inst],
    assigns: &[Assign],
) -> Option<What>
    requires { length ports.now ≤ length wires.now }
    ensures { result ≡ first_passed_limit (design [] ports.now wires.now insts.now assigns.now) }
{
    if bits_within(wires, limits::BITS).is_none() {
        Some(What::Bits)
    } else if insts.len() as u64 > limits::INSTANCES {
        Some(What::Instances)
    } else if has_too_many_pins(ports, wires, insts) {
        Some(What::Pins)
    } else if assigns.len() as u64 > limits::ASSIGNS {
        Some(What::Assigns)
    } else {
        None
    }
}

ghost use Rattle.std.specs.Prelude.{◌≡◌, ◌≤◌, IfOk};
ghost use Rattle.hold_base.specs.Limits.{bits_limit};
ghost use Rattle.hold_netlist.specs.Bits.{bits_of, width_of};

use hold_base::Memory;
use hold_netlist::{Port, Wire};
use std::alloc::Global;

/// A copy of ports.
pub(crate) fn copy_ports(alloc: Global, ports: &[Port]) -> Result<Vec<Port>, Memory>
    ensures { IfOk result (λ copy. copy.items ≡ ports.now) }
{
    let mut copy = Vec::new(alloc);
    for port in ports {
        copy.push(port.clone()?)?;
    }
    Ok(copy)
}

/// A copy of wires.
pub(crate) fn copy_wires(alloc: Global, wires: &[Wire]) -> Result<Vec<Wire>, Memory>
    ensures { IfOk result (λ copy. copy.items ≡ wires.now) }
{
    let mut copy = Vec::new(alloc);
    for wire in wires {
        copy.push(wire.clone()?)?;
    }
    Ok(copy)
}

/// How many bits a wire has.
fn width(wire: &Wire) -> u64
    ensures { result ≡ width_of wire.now }
{
    match wire.range {
        None => 1,
        Some((left, right)) => u64::from(left.abs_diff(right)) + 1,
    }
}

/// How many bits the wires have.
pub(crate) fn bit_count(wires: &[Wire]) -> u64
    requires { bits_of wires.now ≤ bits_limit }
    ensures { result ≡ bits_of wires.now }
{
    let mut bits = 0;
    for wire in wires {
        bits += width(wire);
    }
    bits
}

ghost use Rattle.std.specs.Prelude.{◌≡◌, ◌≤◌, IfOk};
ghost use Rattle.hold_base.specs.Limits.{bits_limit, pins_limit};
ghost use Rattle.hold_netlist.specs.Bits.{bits_of, width_of};
ghost use Rattle.hold_netlist.specs.Pins.{connection_count, pin_count};
ghost use Rattle.hold_netlist.specs.inner.Numbering.{firsts_from};

use hold_base::Memory;
use hold_netlist::{Inst, Wire};
use std::alloc::Global;

/// How many bits a wire has.
pub(crate) fn width(wire: &Wire) -> u64
    ensures width { result ≡ width_of wire.now }
    ensures small { result ≤ 4294967296 }
{
    match wire.range {
        None => 1,
        Some((left, right)) => u64::from(left.abs_diff(right)) + 1,
    }
}

/// The number of the first connection of each instance, and then how many connections there are.
pub(crate) fn first_pins(alloc: Global, insts: &[Inst]) -> Result<Vec<u32>, Memory>
    requires { connection_count insts.now ≤ pins_limit }
    ensures { IfOk result (λ firsts. firsts.items ≡ firsts_from 0 pin_count insts.now) }
{
    let mut firsts = Vec::with_capacity(alloc, insts.len() + 1)?;
    let mut next = 0;
    for inst in insts {
        firsts.push(next)?;
        next += inst.pins.as_slice().len() as u32;
    }
    firsts.push(next)?;
    Ok(firsts)
}

/// The number of the first bit of each wire, and then how many bits there are.
pub(crate) fn first_bits(alloc: Global, wires: &[Wire]) -> Result<Vec<u32>, Memory>
    requires { bits_of wires.now ≤ bits_limit }
    ensures { IfOk result (λ firsts. firsts.items ≡ firsts_from 0 width_of wires.now) }
{
    let mut firsts = Vec::with_capacity(alloc, wires.len() + 1)?;
    let mut next = 0;
    for wire in wires {
        firsts.push(next)?;
        next += width(wire) as u32;
    }
    firsts.push(next)?;
    Ok(firsts)
}

ghost use Rattle.std.specs.Prelude.{◌≡◌, ◌≤◌, ◌<◌, ◌-◌, length, slice_index, IfOk, IfSome, IsNone};
ghost use Rattle.std.specs.List.Sorted.{IsNonDecreasing};
ghost use Rattle.hold_base.specs.Limits.{bits_limit, pins_limit};
ghost use Rattle.hold_netlist.specs.Bits.{width_of, bits_of};
ghost use Rattle.hold_netlist.specs.Pins.{pin_count, connection_count};
ghost use Rattle.hold_netlist.specs.inner.Numbering.{firsts_from, IsHeld};

use crate::inst::Inst;
use crate::limits::width;
use crate::wire::Wire;
use hold_base::Memory;
use std::alloc::Global;

/// The number of the first connection of each instance, and then how many connections there are.
pub(crate) fn first_pins(alloc: Global, insts: &[Inst]) -> Result<Vec<u32>, Memory>
    requires { connection_count insts.now ≤ pins_limit }
    ensures { IfOk result (λ firsts. firsts.items ≡ firsts_from 0 pin_count insts.now) }
{
    let mut firsts = Vec::with_capacity(alloc, insts.len() + 1)?;
    let mut next = 0;
    for inst in insts {
        firsts.push(next)?;
        next += inst.pins.as_slice().len() as u32;
    }
    firsts.push(next)?;
    Ok(firsts)
}

/// The number of the first bit of each wire, and then how many bits there are.
pub(crate) fn first_bits(alloc: Global, wires: &[Wire]) -> Result<Vec<u32>, Memory>
    requires { bits_of wires.now ≤ bits_limit }
    ensures { IfOk result (λ firsts. firsts.items ≡ firsts_from 0 width_of wires.now) }
{
    let mut firsts = Vec::with_capacity(alloc, wires.len() + 1)?;
    let mut next = 0;
    for wire in wires {
        firsts.push(next)?;
        next += width(wire.range) as u32;
    }
    firsts.push(next)?;
    Ok(firsts)
}

/// How many of the first numbers are this number or less.
fn begun(firsts: &[u32], number: u32) -> usize
    requires { IsNonDecreasing firsts.now }
    ensures within { result ≤ length firsts.now }
    ensures begun { 0 < result → slice_index firsts.now (result - 1) ≤ number }
    ensures rest { result < length firsts.now → number < slice_index firsts.now result }
{
    firsts.partition_point(|first| *first <= number)
}

/// Which thing has the number, and how far that is behind the thing's first one. `firsts` are the first numbers of things in a
/// row, and then the number behind the last.
pub(crate) fn numbered(firsts: &[u32], number: u32) -> Option<(usize, u32)>
    requires rising { IsNonDecreasing firsts.now }
    requires some { 0 < length firsts.now }
    requires start { slice_index firsts.now 0 ≡ 0 }
    ensures found { IfSome result (λ at. IsHeld firsts.now number at.0 at.1) }
    ensures none { IsNone result → slice_index firsts.now (length firsts.now - 1) ≤ number }
{
    let begun = begun(firsts, number);
    if begun == firsts.len() {
        return None;
    }
    let thing = begun - 1;
    Some((thing, number - firsts[thing]))
}

ghost use Rattle.std.specs.Prelude.{◌≡◌, ◌+◌, ◌-◌, ◌≤◌, true, false, nat_lt, Some, None, IfOk, if◌then◌else◌};
ghost use Rattle.std.specs.List.{range_with_len, list_any};
ghost use Rattle.hold_base.specs.Limits.{bits_limit, bound_limit};
ghost use Rattle.hold_netlist.specs.Bits.{bits_of, width_of, width_of_range};
ghost use Rattle.hold_netlist.specs.inner.Numbering.{firsts_from};
ghost use Rattle.hold_netlist.specs.WellFormed.{HasBoundsInLimit};
ghost use Rattle.hold_vsyntax.specs.declared.tree.Selected.TheVariants.{Bit};
ghost use Rattle.hold_vparse.specs.BitFaults.{reach, is_within, has_bits, is_missing, width, is_missing_part, part_width};
ghost use Rattle.hold_vparse.specs.Declares.{first_bit, place_in, selected_bits, part_bits};
ghost use Rattle.hold_vparse.specs.Lines.{range_bounds};
ghost use Rattle.hold_vparse.specs.NameFaults.{has_large_bound};

use crate::nets::Nets;
use hold_base::{Memory, Name, limits};
use hold_netlist::Wire;
use hold_vsyntax::number::Number;
use hold_vsyntax::tree::{Part, Range, Selected};
use std::alloc::Global;

/// The bits of the nets: within the limit, and numbered from the first wire on.
#[derive(Drop)]
pub(crate) struct Layout<'a> {
    pub nets: &'a Nets<'a>,
    pub wires: &'a [Wire],
    /// The number of the first bit of each wire, and then how many bits there are.
    pub firsts: &'a [u32],
    /// How many bits there are.
    pub bits: u32,
    ghost same: { nets.now ≡ wires.now },
    ghost numbered: { firsts.now ≡ firsts_from 0 width_of wires.now },
    ghost counted: { bits ≡ bits_of wires.now },
    ghost few: { bits ≤ bits_limit },
    ghost small: { list_any has_large_bound wires.now ≡ false },
}

/// Bits that follow one another.
#[derive(Clone, Copy)]
pub(crate) struct Span {
    pub first: u32,
    pub count: u32,
}

/// How many bits these wires have, where that isn't too many.
pub(crate) fn bits_within_limit(wires: &[Wire]) -> Option<u32>
    requires small { list_any has_large_bound wires.now ≡ false }
    ensures { result ≡ (if nat_lt bits_limit (bits_of wires.now) then None else Some (bits_of wires.now)) }
{
    let mut bits = 0;
    for wire in wires {
        bits += width_in(wire.range);
        if u64::from(bits) > limits::BITS {
            return None;
        }
    }
    Some(bits)
}

/// The number of the first bit of each wire, and then how many bits there are.
pub(crate) fn first_bits_of(alloc: Global, wires: &[Wire]) -> Result<Vec<u32>, Memory>
    requires small { list_any has_large_bound wires.now ≡ false }
    requires few { bits_of wires.now ≤ bits_limit }
    ensures { IfOk result (λ firsts. firsts.items ≡ firsts_from 0 width_of wires.now) }
{
    let mut firsts = Vec::with_capacity(alloc, wires.len() + 1)?;
    let mut next = 0;
    for wire in wires {
        firsts.push(next)?;
        next += width_in(wire.range);
    }
    firsts.push(next)?;
    Ok(firsts)
}

/// How many bits a range has; one without a range.
fn width_in(range: Option<(u32, u32)>) -> u32
    requires { HasBoundsInLimit range }
    ensures width { result ≡ width_of_range range }
    ensures small { result ≤ bound_limit + 1 }
{
    match range {
        None => 1,
        Some((left, right)) => left.abs_diff(right) + 1,
    }
}

/// How many bits of a range stand before this one, which lies within it.
fn place_within(range: (u32, u32), index: &Number) -> u32
    requires small { HasBoundsInLimit (Some range) }
    requires within { is_within range index.now ≡ true }
    ensures place { result ≡ (range.0 - index.now) + (index.now - range.0) }
    ensures inside { result + 1 ≤ width_of_range (Some range) }
{
    match index.small() {
        Some(index) => range.0.abs_diff(index),
        None => 0,
    }
}

/// How many bits there are between two bounds that lie within a range.
fn count_within(range: (u32, u32), part: &Range) -> u32
    requires small { HasBoundsInLimit (Some range) }
    requires within { has_bits range (range_bounds part.now) ≡ true }
    ensures { result ≡ width_of_range (Some (range_bounds part.now)) }
{
    match (part.left.small(), part.right.small()) {
        (Some(left), Some(right)) => left.abs_diff(right) + 1,
        _ => 0,
    }
}

/// The bits that are selected of a net whose first bit has this number.
fn selected_span(first: u32, range: Option<(u32, u32)>, selected: &Selected) -> Span
    requires small { HasBoundsInLimit range }
    requires few { first ≤ bits_limit }
    requires there { is_missing (Some range) selected.now ≡ false }
    ensures bits { range_with_len result.first result.count ≡ selected_bits first (Some range) selected.now }
    ensures width { width (Some range) selected.now ≡ Some result.count }
    ensures within { result.first + result.count ≤ first + width_of_range range }
    ensures some { 1 ≤ result.count }
{
    match (selected, range) {
        (Selected::Bit(index), Some(range)) => Span {
            first: first + place_within(range, index),
            count: 1,
        },
        (Selected::Part(part), Some(range)) => Span {
            first: first + place_within(range, &part.left),
            count: count_within(range, part),
        },
        _ => Span {
            first,
            count: width_in(range),
        },
    }
}

impl Layout<'_> {
    /// The number of the first bit of a net.
    pub(crate) fn first_bit(&self, name: &Name) -> u32
        ensures { result ≡ first_bit self.now.wires.now name.now }
    {
        match self.nets.place(name) {
            Some(place) => self.firsts[place as usize],
            None => self.bits,
        }
    }

    /// Whether there is a net of this name, and its range where it has one.
    fn range(&self, name: &Name) -> Option<Option<(u32, u32)>>
        ensures { result ≡ reach self.now.wires.now name.now }
    {
        match self.nets.place(name) {
            Some(place) => Some(self.wires[place as usize].range),
            None => None,
        }
    }

    /// The net bits that a part selects, from its left end.
    pub(crate) fn part(&self, part: &Part) -> Span
        requires { is_missing_part self.now.wires.now part.now ≡ false }
        ensures bits { range_with_len result.first result.count ≡ part_bits self.now.wires.now part.now }
        ensures width { part_width self.now.wires.now part.now ≡ Some result.count }
        ensures within { result.first + result.count ≤ self.now.bits }
        ensures some { 1 ≤ result.count }
    {
        let first = self.first_bit(&part.net.name);
        match self.range(&part.net.name) {
            Some(range) => selected_span(first, range, &part.selected),
            None => Span { first: 0, count: 1 },
        }
    }

    /// The net bit of this index.
    pub(crate) fn bit(&self, name: &Name, index: &Number) -> u32
        requires { is_missing (reach self.now.wires.now name.now) (Bit index.now) ≡ false }
        ensures { result ≡ first_bit self.now.wires.now name.now + place_in (reach self.now.wires.now name.now) index.now }
    {
        let first = self.first_bit(name);
        match self.range(name) {
            Some(Some(range)) => first + place_within(range, index),
            _ => first,
        }
    }
}

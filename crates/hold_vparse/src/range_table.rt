ghost use Rattle.std.specs.Prelude.{◌≡◌, ◌==◌, ◌++◌, ◌∷◌, [], length, IfOk, OnOk};
ghost use Rattle.std.specs.Option.{option_copied};
ghost use Rattle.hold_netlist.specs.Bits.{width_of_range};
ghost use Rattle.hold_vparse.specs.inner.Bounds.{Holds, Grows};
ghost use Rattle.hold_vparse.specs.inner.Index.{at_place};
ghost use Rattle.hold_vparse.specs.inner.Flat.{seen_range};
ghost use Rattle.hold_vparse.specs.Lines.{range_bounds};
ghost use Rattle.hold_vparse.specs.inner.Measured.{seen_measured};
ghost use Rattle.hold_vparse.specs.PortFaults.{same_range};

use crate::measured::Measured;
use crate::number_table::NumberTable;
use hold_base::Memory;
use hold_netlist::Seed;
use hold_vsyntax::tree::Range;
use std::alloc::Global;
use std::marker::Model;

/// The ranges that are declared, each measured once. A contract sees their bounds, in the order in which they were put
/// in.
#[derive(Drop)]
pub(crate) struct RangeTable<'a> {
    numbers: NumberTable,
    ranges: Vec<Measured<'a>>,
}

impl<'a> Model for RangeTable<'a> {
    ghost use Rattle.std.specs.Prelude.{ℕ, List, map};
    ghost use Rattle.hold_vparse.specs.inner.Measured.{measured_bounds, HaveClasses};

    ghost Value = { List (ℕ × ℕ) };

    ghost view = { λ t. map measured_bounds t.ranges.items };

    ghost invariant = { λ t. HaveClasses t.numbers t.ranges.items };
}

impl<'a> RangeTable<'a> {
    /// A table without ranges. Takes no memory.
    pub(crate) fn new(alloc: Global, seed: Seed) -> RangeTable<'a>
        ensures { result ≡ [] }
    {
        RangeTable {
            numbers: NumberTable::new(alloc, seed),
            ranges: Vec::new(alloc),
        }
    }

    /// Puts a range behind these, and answers its place. More of them than can be numbered are want of memory.
    fn put(&mut self, alloc: Global, range: &'a Range) -> Result<u32, Memory>
        ensures place { IfOk result (λ place. place ≡ length self.old) }
        ensures put { OnOk result (self.new ≡ self.old ++ range_bounds range.now ∷ []) }
    {
        let Ok(place) = u32::try_from(self.ranges.len()) else {
            return Err(Memory);
        };
        let measured = Measured::of(alloc, &mut self.numbers, range)?;
        self.ranges.push(measured)?;
        Ok(place)
    }

    /// The same where there is a range.
    pub(crate) fn note(
        &mut self,
        alloc: Global,
        range: Option<&'a Range>,
    ) -> Result<Option<u32>, Memory>
        ensures place { IfOk result (λ place. Holds self.new place (seen_range range.entry)) }
        ensures grown { OnOk result (Grows self.old self.new) }
    {
        match range {
            Some(range) => {
                let place = self.put(alloc, range)?;
                Ok(Some(place))
            }
            None => Ok(None),
        }
    }

    /// The range in a place, where there is one.
    pub(crate) fn get(&self, place: Option<u32>) -> Option<&Measured<'a>>
        ensures { seen_measured result ≡ at_place self.now place }
    {
        measured_at(&self.ranges, place)
    }

    /// Whether the ranges in two places have the same bounds, or neither place has one.
    pub(crate) fn have_same_bounds(&self, place: Option<u32>, other: Option<u32>) -> bool
        ensures { result ≡ same_range (at_place self.now place) (at_place self.now other) }
    {
        self.numbers.know_one_each();
        match (
            measured_at(&self.ranges, place),
            measured_at(&self.ranges, other),
        ) {
            (Some(range), Some(other)) => range.has_bounds_of(other),
            (None, None) => true,
            _ => false,
        }
    }

    /// Whether the ranges in two places have as many bits. A place without one counts for a scalar.
    pub(crate) fn have_same_width(&self, place: Option<u32>, other: Option<u32>) -> bool
        ensures { result ≡ (width_of_range (at_place self.now place) == width_of_range (at_place self.now other)) }
    {
        self.numbers.know_one_each();
        match (
            measured_at(&self.ranges, place),
            measured_at(&self.ranges, other),
        ) {
            (Some(range), Some(other)) => range.has_width_of(other),
            (Some(range), None) | (None, Some(range)) => range.has_one_bit(),
            (None, None) => true,
        }
    }
}

/// What stands in a place of this list, where there is one.
fn measured_at<'m, 'a>(ranges: &'m [Measured<'a>], place: Option<u32>) -> Option<&'m Measured<'a>>
    ensures { option_copied result ≡ at_place ranges.now place }
{
    match place {
        Some(place) => ranges.get(place as usize),
        None => None,
    }
}

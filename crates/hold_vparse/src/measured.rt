ghost use Rattle.std.specs.Prelude.{◌≡◌, ◌==◌, min, max, IfOk, Some};
ghost use Rattle.hold_netlist.specs.Bits.{width_of_range};
ghost use Rattle.hold_vparse.specs.BitFaults.{is_within, runs_along, has_bits};
ghost use Rattle.hold_vparse.specs.inner.Bounds.{distance_of, is_falling};
ghost use Rattle.hold_vparse.specs.Lines.{range_bounds};

use crate::number_table::NumberTable;
use hold_base::Memory;
use hold_vsyntax::number::{Number, distance, has_same_sums, is_at_most};
use hold_vsyntax::tree::Range;
use std::alloc::Global;

/// The classes of a range's bounds, and of their distance.
#[derive(Clone, Copy)]
pub(crate) struct Classes {
    pub left: u32,
    pub right: u32,
    pub distance: u32,
}

/// A range that is declared, with what its uses ask of it. So a use reads no more digits than it has itself.
#[derive(Drop)]
pub(crate) struct Measured<'a> {
    pub range: &'a Range,
    /// How far its bounds lie apart.
    distance: Number,
    /// Whether its right bound is at most the left one.
    falls: bool,
    classes: Classes,
    ghost measured: { distance ≡ distance_of (range_bounds range.now) },
    ghost falling: { falls ≡ is_falling (range_bounds range.now) },
}

impl Classes {
    ghost use Rattle.std.specs.Prelude.{◌≡◌, ◌==◌, ◌&&◌, IfOk};
    ghost use Rattle.hold_vparse.specs.inner.Bounds.{distance_of};
    ghost use Rattle.hold_vparse.specs.Lines.{range_bounds};
    ghost use Rattle.hold_vparse.specs.inner.Measured.{AreClasses, Keeps};

    /// The classes of a range whose bounds lie so far apart.
    fn of(
        alloc: Global,
        numbers: &mut NumberTable,
        range: &Range,
        distance: &Number,
    ) -> Result<Classes, Memory>
        requires { distance.now ≡ distance_of (range_bounds range.now) }
        ensures classes { IfOk result (AreClasses numbers.new (range_bounds range.now)) }
        ensures kept { Keeps numbers.old numbers.new }
    {
        let left = numbers.class(alloc, &range.left)?;
        let right = numbers.class(alloc, &range.right)?;
        let distance = numbers.class(alloc, distance)?;
        Ok(Classes {
            left,
            right,
            distance,
        })
    }

    /// Whether both bounds have the same classes.
    fn have_same_bounds(self, other: Classes) -> bool
        ensures { result ≡ (self.left == other.left && self.right == other.right) }
    {
        self.left == other.left && self.right == other.right
    }
}

impl<'a> Measured<'a> {
    ghost use Rattle.std.specs.Prelude.{◌≡◌, ◌==◌, ℕ, List, IfOk, Some};
    ghost use Rattle.hold_base.specs.inner.Lists.{OneEach};
    ghost use Rattle.hold_netlist.specs.Bits.{width_of_range};
    ghost use Rattle.hold_vparse.specs.BitFaults.{is_within, runs_along, has_bits};
    ghost use Rattle.hold_vparse.specs.Lines.{range_bounds};
    ghost use Rattle.hold_vparse.specs.inner.Measured.{HasClasses, Keeps, measured_bounds};
    ghost use Rattle.hold_vparse.specs.PortFaults.{same_range};

    /// Measures a range.
    pub(crate) fn of(
        alloc: Global,
        numbers: &mut NumberTable,
        range: &'a Range,
    ) -> Result<Measured<'a>, Memory>
        ensures range { IfOk result (λ m. measured_bounds m ≡ range_bounds range.now) }
        ensures classes { IfOk result (HasClasses numbers.new) }
        ensures kept { Keeps numbers.old numbers.new }
    {
        let distance = distance(alloc, &range.left, &range.right)?;
        let falls = is_at_most(&range.right, &range.left);
        let classes = Classes::of(alloc, numbers, range, &distance)?;
        Ok(Measured {
            range,
            distance,
            falls,
            classes,
        })
    }

    /// Whether an index lies between the bounds, or is one.
    pub(crate) fn has_index(&self, index: &Number) -> bool
        ensures { result ≡ is_within (measured_bounds self.now) index.now }
    {
        let range = self.range;
        (is_at_most(&range.left, index) || is_at_most(&range.right, index))
            && (is_at_most(index, &range.left) || is_at_most(index, &range.right))
    }

    /// Whether the bounds of a part run the same way.
    fn is_running_along(&self, part: &Range) -> bool
        ensures { result ≡ runs_along (measured_bounds self.now) (range_bounds part.now) }
    {
        if self.falls {
            is_at_most(&part.right, &part.left)
        } else {
            is_at_most(&part.left, &part.right)
        }
    }

    /// Whether the range has all bits of a part.
    pub(crate) fn has_part(&self, part: &Range) -> bool
        ensures { result ≡ has_bits (measured_bounds self.now) (range_bounds part.now) }
    {
        self.has_index(&part.left) && self.has_index(&part.right) && self.is_running_along(part)
    }

    /// Whether another range has the same bounds, where one table gave both their classes.
    pub(crate) fn has_bounds_of(&self, other: &Measured<'_>) -> bool
        ensures { (numbers : List ℕ) → OneEach numbers → HasClasses numbers self.now → HasClasses numbers other.now → result ≡ same_range (Some (measured_bounds self.now)) (Some (measured_bounds other.now)) }
    {
        self.classes.have_same_bounds(other.classes)
    }

    /// Whether another range has as many bits, where one table gave both their classes.
    pub(crate) fn has_width_of(&self, other: &Measured<'_>) -> bool
        ensures { (numbers : List ℕ) → OneEach numbers → HasClasses numbers self.now → HasClasses numbers other.now → result ≡ (width_of_range (Some (measured_bounds self.now)) == width_of_range (Some (measured_bounds other.now))) }
    {
        self.classes.distance == other.classes.distance
    }

    /// Whether the range has one bit.
    pub(crate) fn has_one_bit(&self) -> bool
        ensures { result ≡ (width_of_range (Some (measured_bounds self.now)) == 1) }
    {
        match self.distance.small() {
            Some(distance) => distance == 0,
            None => false,
        }
    }

    /// Whether the range has as many bits as a part.
    pub(crate) fn is_as_wide_as(&self, part: &Range) -> bool
        ensures { result ≡ (width_of_range (Some (measured_bounds self.now)) == width_of_range (Some (range_bounds part.now))) }
    {
        let (most, least) = greater_first(part);
        has_same_sums(most, &Number::zero(), least, &self.distance)
    }
}

/// The bounds of a range, the greater first.
pub(crate) fn greater_first(range: &Range) -> (&Number, &Number)
    ensures greater { result.0.now ≡ max range.now.left range.now.right }
    ensures less { result.1.now ≡ min range.now.left range.now.right }
{
    if is_at_most(&range.right, &range.left) {
        (&range.left, &range.right)
    } else {
        (&range.right, &range.left)
    }
}

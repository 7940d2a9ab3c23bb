ghost use Rattle.std.specs.Prelude.{◌≡◌, ◌==◌, not};
ghost use Rattle.hold_vsyntax.specs.declared.tree.Selected.TheVariants.{Bit as BitAt};
ghost use Rattle.hold_vparse.specs.BitFaults.{is_missing, width, differ};
ghost use Rattle.hold_vparse.specs.inner.Measured.{seen_reach};
ghost use Rattle.hold_vparse.specs.inner.Index.{at_place};
ghost use Rattle.hold_vparse.specs.inner.Widths.{seen_width, seen_widths, bounds_width};

use crate::measured::{Measured, greater_first};
use crate::ranges::Ranges;
use hold_vsyntax::number::{Number, are_equal, has_same_sums};
use hold_vsyntax::tree::{Range, Selected};

/// How many bits are meant.
#[derive(Clone, Copy)]
pub(crate) enum Width<'a> {
    One,
    /// As many as the part has.
    Part(&'a Range),
    /// As many as the net in this place.
    Net(u32),
}

/// Whether a net is there and has the bit of this index.
pub(crate) fn has_bit(reach: Option<Option<&Measured<'_>>>, index: &Number) -> bool
    ensures { result ≡ not (is_missing (seen_reach reach.entry) (BitAt index.now)) }
{
    match reach {
        Some(Some(range)) => range.has_index(index),
        _ => false,
    }
}

/// Whether what is selected isn't there.
pub(crate) fn is_missing_of(reach: Option<Option<&Measured<'_>>>, selected: &Selected) -> bool
    ensures { result ≡ is_missing (seen_reach reach.entry) selected.now }
{
    match (reach, selected) {
        (None, _) => true,
        (Some(_), Selected::Whole) => false,
        (Some(Some(range)), Selected::Bit(index)) => !range.has_index(index),
        (Some(Some(range)), Selected::Part(part)) => !range.has_part(part),
        (Some(None), _) => true,
    }
}

/// How many bits are selected of the net in this place, as it is written; none of a whole net that isn't there.
pub(crate) fn width_of<'a>(
    ranges: &Ranges<'_>,
    net: Option<u32>,
    selected: &'a Selected,
) -> Option<Width<'a>>
    ensures { seen_widths ranges.now.nets result ≡ width (at_place ranges.now.nets net) selected.now }
{
    match (selected, net) {
        (Selected::Bit(_), _) => Some(Width::One),
        (Selected::Part(part), _) => Some(Width::Part(part)),
        (Selected::Whole, Some(net)) if ranges.has_net(net) => Some(Width::Net(net)),
        (Selected::Whole, _) => None,
    }
}

/// Whether two parts have as many bits.
fn have_same_width(a: &Range, b: &Range) -> bool
    ensures { result ≡ (bounds_width a.now == bounds_width b.now) }
{
    let (most, least) = greater_first(a);
    let (other_most, other_least) = greater_first(b);
    has_same_sums(most, other_least, other_most, least)
}

/// Whether two widths are equal.
fn is_same_width(ranges: &Ranges<'_>, a: Width<'_>, b: Width<'_>) -> bool
    ensures { result ≡ (seen_width ranges.now.nets a.entry == seen_width ranges.now.nets b.entry) }
{
    match (a, b) {
        (Width::One, Width::One) => true,
        (Width::One, Width::Part(part)) => are_equal(&part.left, &part.right),
        (Width::Part(part), Width::One) => are_equal(&part.left, &part.right),
        (Width::Part(part), Width::Part(other)) => have_same_width(part, other),
        (Width::Net(net), Width::One) => ranges.has_one_bit(net),
        (Width::One, Width::Net(net)) => ranges.has_one_bit(net),
        (Width::Net(net), Width::Part(part)) => ranges.is_as_wide_as(net, part),
        (Width::Part(part), Width::Net(net)) => ranges.is_as_wide_as(net, part),
        (Width::Net(net), Width::Net(other)) => ranges.have_same_width(net, other),
    }
}

/// Whether two widths are known and differ.
pub(crate) fn are_different(ranges: &Ranges<'_>, a: Option<Width<'_>>, b: Option<Width<'_>>) -> bool
    ensures { result ≡ differ (seen_widths ranges.now.nets a.entry) (seen_widths ranges.now.nets b.entry) }
{
    match (a, b) {
        (Some(a), Some(b)) => !is_same_width(ranges, a, b),
        _ => false,
    }
}

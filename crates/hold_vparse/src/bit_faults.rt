ghost use Rattle.std.specs.Prelude.{◌≡◌, ◌||◌, flat_map, Some};
ghost use Rattle.hold_vsyntax.specs.declared.tree.Connection.{Connection as Connected};
ghost use Rattle.hold_vsyntax.specs.declared.tree.Selected.TheVariants.{Whole};
ghost use Rattle.hold_vparse.specs.BitFaults.{reach, width, differ, is_missing_part, part_width, right_width, misfit_right, misfit_left, misfit_assignment, misfit_tied, misfit_named};
ghost use Rattle.hold_vparse.specs.inner.Flat.{targets, seen_instances};
ghost use Rattle.hold_vparse.specs.inner.Found.{found_ident};
ghost use Rattle.hold_vparse.specs.Soonest.{soonest};
ghost use Rattle.hold_vparse.specs.inner.Widths.{seen_widths};

use crate::ranged_nets::RangedNets;
use crate::selection::{Width, are_different, has_bit, is_missing_of, width_of};
use crate::soonest::soonest_of;
use hold_vsyntax::tree::{Assignment, Connection, Ident, Instance, Part, Right, Tied};

/// How many bits the right side of an assignment has.
fn width_of_right<'a>(nets: &RangedNets<'_>, right: &'a Right) -> Option<Width<'a>>
    ensures { seen_widths nets.now.ranges.now.nets result ≡ right_width nets.now.nets.now right.now }
{
    match right {
        Right::Net(part) => width_of(nets.ranges, nets.place(&part.net.name), &part.selected),
        Right::Constant(_) => Some(Width::One),
    }
}

/// The net on the right of an assignment, where what is selected of it isn't there.
fn misfit_of_right<'a>(nets: &RangedNets<'_>, right: &'a Right) -> Option<&'a Ident>
    ensures { found_ident result ≡ soonest (misfit_right nets.now.nets.now right.now) }
{
    match right {
        Right::Net(part) if is_missing_of(nets.reach(&part.net.name), &part.selected) => {
            Some(&part.net)
        }
        _ => None,
    }
}

/// Whether the left side of an assignment isn't there, or is wider or narrower than the right side.
fn is_misfit_left(nets: &RangedNets<'_>, left: &Part, right: &Right) -> bool
    ensures { result ≡ (is_missing_part nets.now.nets.now left.now || differ (part_width nets.now.nets.now left.now) (right_width nets.now.nets.now right.now)) }
{
    let ranges = nets.ranges;
    let net = nets.place(&left.net.name);
    is_missing_of(ranges.reach(net), &left.selected)
        || are_different(
            ranges,
            width_of(ranges, net, &left.selected),
            width_of_right(nets, right),
        )
}

/// The net on the left of an assignment, where it doesn't fit.
fn misfit_of_left<'a>(nets: &RangedNets<'_>, assignment: &'a Assignment) -> Option<&'a Ident>
    ensures { found_ident result ≡ soonest (misfit_left nets.now.nets.now assignment.now) }
{
    if is_misfit_left(nets, &assignment.left, &assignment.right) {
        Some(&assignment.left.net)
    } else {
        None
    }
}

/// The first net in an assignment that doesn't fit.
fn misfit_of_assignment<'a>(nets: &RangedNets<'_>, assignment: &'a Assignment) -> Option<&'a Ident>
    ensures { found_ident result ≡ soonest (misfit_assignment nets.now.nets.now assignment.now) }
{
    soonest_of(
        misfit_of_left(nets, assignment),
        misfit_of_right(nets, &assignment.right),
    )
}

/// The first net in these assignments that doesn't fit.
pub(crate) fn misfit_in_assignments<'a>(
    nets: &RangedNets<'_>,
    assignments: &[&'a Assignment],
) -> Option<&'a Ident>
    ensures { found_ident result ≡ soonest (flat_map (misfit_assignment nets.now.nets.now) (targets assignments.now)) }
{
    let mut found = None;
    for assignment in assignments {
        found = soonest_of(found, misfit_of_assignment(nets, assignment));
    }
    found
}

/// Whether a net that is known hasn't one bit.
fn is_vector(nets: &RangedNets<'_>, name: &Ident) -> bool
    ensures { result ≡ differ (width (reach nets.now.nets.now name.now.name) Whole) (Some 1) }
{
    match nets.reach(&name.name) {
        Some(Some(range)) => !range.has_one_bit(),
        _ => false,
    }
}

/// The net that a pin is tied to, where it doesn't fit.
fn misfit_of_tied<'a>(nets: &RangedNets<'_>, tied: &'a Tied) -> Option<&'a Ident>
    ensures { found_ident result ≡ soonest (misfit_tied nets.now.nets.now tied.now) }
{
    match tied {
        Tied::Net(name) if is_vector(nets, name) => Some(name),
        Tied::Bit(name, index) if !has_bit(nets.reach(&name.name), index) => Some(name),
        _ => None,
    }
}

/// The first net in the connections of an instance that doesn't fit.
fn misfit_of_instance<'a>(nets: &RangedNets<'_>, connections: &'a [Connection]) -> Option<&'a Ident>
    ensures { found_ident result ≡ soonest (flat_map (λ (c : Connected). misfit_tied nets.now.nets.now c.tied) connections.now) }
{
    let mut found = None;
    for connection in connections {
        found = soonest_of(found, misfit_of_tied(nets, &connection.tied));
    }
    found
}

/// The first net in the connections of these instances that doesn't fit.
pub(crate) fn misfit_in_instances<'a>(
    nets: &RangedNets<'_>,
    instances: &[(&'a Ident, &'a Instance)],
) -> Option<&'a Ident>
    ensures { found_ident result ≡ soonest (flat_map (misfit_named nets.now.nets.now) (seen_instances instances.now)) }
{
    let mut found = None;
    for named in instances {
        found = soonest_of(
            found,
            misfit_of_instance(nets, named.1.connections.as_slice()),
        );
    }
    found
}

ghost use Rattle.std.specs.Prelude.{◌≡◌, ◌+◌, ◌≤◌, ◌++◌, [], length, map, flat_map, nat_lt, OnOk, IfOk};
ghost use Rattle.std.specs.List.{range_with_len};
ghost use Rattle.hold_base.specs.Limits.{bits_limit, assigns_limit};
ghost use Rattle.hold_vparse.specs.BitFaults.{misfit_assignment};
ghost use Rattle.hold_vparse.specs.Declares.{assigned, tied_bits, net_bit};
ghost use Rattle.hold_vparse.specs.inner.Flat.{targets};

use crate::inst_list::constant_source;
use crate::layout::{Layout, Span};
use hold_base::{Memory, NetNo, limits};
use hold_netlist::{Assign, Source};
use hold_vsyntax::tree::{Assignment, Right};
use std::alloc::Global;

/// Puts an assignment for each bit behind these, from the left ends.
fn add_bits(list: &mut Vec<Assign>, left: &Span, right: &Span) -> Result<(), Memory>
    requires left { left.now.first + left.now.count ≤ bits_limit }
    requires right { right.now.first + right.now.count ≤ bits_limit }
    requires same { left.now.count ≡ right.now.count }
    ensures { OnOk result (list.new.items ≡ list.old.items ++ tied_bits (range_with_len left.now.first left.now.count) (map net_bit (range_with_len right.now.first right.now.count))) }
{
    for bit in 0..left.count {
        list.push(Assign {
            left: NetNo(left.first + bit),
            right: Source::Net(NetNo(right.first + bit)),
        })?;
    }
    Ok(())
}

/// Puts the assignments of an assignment's bits behind these.
fn add_assigned(
    list: &mut Vec<Assign>,
    layout: &Layout<'_>,
    assignment: &Assignment,
) -> Result<(), Memory>
    requires { misfit_assignment layout.now.wires.now assignment.now ≡ [] }
    ensures { OnOk result (list.new.items ≡ list.old.items ++ assigned layout.now.wires.now assignment.now) }
{
    let left = layout.part(&assignment.left);
    match &assignment.right {
        Right::Net(part) => {
            let right = layout.part(part);
            add_bits(list, &left, &right)
        }
        Right::Constant(value) => {
            list.push(Assign {
                left: NetNo(left.first),
                right: constant_source(*value),
            })?;
            Ok(())
        }
    }
}

/// The assignments of a netlist, bit by bit.
pub(crate) fn assign_list(
    alloc: Global,
    layout: &Layout<'_>,
    assignments: &[&Assignment],
) -> Result<Vec<Assign>, Memory>
    requires { flat_map (misfit_assignment layout.now.wires.now) (targets assignments.now) ≡ [] }
    ensures { IfOk result (λ list. list.items ≡ flat_map (assigned layout.now.wires.now) (targets assignments.now)) }
{
    let mut list = Vec::new(alloc);
    for assignment in assignments {
        add_assigned(&mut list, layout, assignment)?;
    }
    Ok(list)
}

/// How many bits an assignment assigns.
fn assigned_count(layout: &Layout<'_>, assignment: &Assignment) -> u32
    requires { misfit_assignment layout.now.wires.now assignment.now ≡ [] }
    ensures count { result ≡ length (assigned layout.now.wires.now assignment.now) }
    ensures small { result ≤ bits_limit }
{
    let left = layout.part(&assignment.left);
    match &assignment.right {
        Right::Net(part) => {
            let right = layout.part(part);
            left.count.min(right.count)
        }
        Right::Constant(_) => 1,
    }
}

/// Whether these assignments assign more bits than a netlist may.
pub(crate) fn has_too_many_assigns(layout: &Layout<'_>, assignments: &[&Assignment]) -> bool
    requires { flat_map (misfit_assignment layout.now.wires.now) (targets assignments.now) ≡ [] }
    ensures { result ≡ nat_lt assigns_limit (length (flat_map (assigned layout.now.wires.now) (targets assignments.now))) }
{
    let mut count: u64 = 0;
    for assignment in assignments {
        count += u64::from(assigned_count(layout, assignment));
        if count > limits::ASSIGNS {
            return true;
        }
    }
    false
}

ghost use Rattle.std.specs.Prelude.{◌≡◌};
ghost use Rattle.std.specs.Option.{option_copied};
ghost use Rattle.hold_plain.specs.Cells.{arc_span, check_of};
ghost use Rattle.hold_plain.specs.PinUses.{arc_from, check_at, delay_to};

use crate::cell::{Cell, CellArc, CellCheck, Check};
use crate::pin_use::PinRole;
use hold_base::{Interval, Name};

/// The span of the first arc from the one pin to the other, in fs.
fn arc_span(from: &Name, to: &Name, arcs: &[CellArc]) -> Option<Interval>
    ensures { result ≡ arc_span from.now to.now arcs.now }
{
    for arc in arcs {
        if from.bytes() == arc.from.bytes() && to.bytes() == arc.to.bytes() {
            return Some(arc.span);
        }
    }
    None
}

/// The first check of that pin.
fn check_of(pin: &Name, checks: &[CellCheck]) -> Option<Check>
    ensures { result ≡ check_of pin.now checks.now }
{
    for entry in checks {
        if pin.bytes() == entry.pin.bytes() {
            return Some(entry.check);
        }
    }
    None
}

/// The span of the first arc from that pin, where there is one, to the other.
fn arc_from(from: Option<&Name>, cell: &Cell, name: &Name) -> Option<Interval>
    ensures { result ≡ arc_from (option_copied from.entry) cell.now name.now }
{
    match from {
        Some(from) => arc_span(from, name, cell.arcs.as_slice()),
        None => None,
    }
}

/// The delay of a pin in that role, in fs: at an output from the connected input, at an output of a
/// register from its clock.
pub(crate) fn delay_to(
    cell: &Cell,
    fed: Option<&Name>,
    name: &Name,
    role: PinRole,
) -> Option<Interval>
    ensures { result ≡ delay_to cell.now (option_copied fed.entry) name.now role }
{
    match role {
        PinRole::Output => arc_from(fed, cell, name),
        PinRole::Launch => arc_from(cell.clock.as_ref(), cell, name),
        _ => None,
    }
}

/// The check of a pin in that role.
pub(crate) fn check_at(cell: &Cell, name: &Name, role: PinRole) -> Option<Check>
    ensures { result ≡ check_at cell.now name.now role }
{
    match role {
        PinRole::Data => check_of(name, cell.checks.as_slice()),
        _ => None,
    }
}

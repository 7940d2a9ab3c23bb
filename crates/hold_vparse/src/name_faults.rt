ghost use Rattle.std.specs.Prelude.{◌≡◌};
ghost use Rattle.std.specs.List.{list_any};
ghost use Rattle.hold_vparse.specs.BitFaults.{misfit};
ghost use Rattle.hold_vparse.specs.inner.Found.{found_ident};
ghost use Rattle.hold_vparse.specs.NameFaults.{has_large_bound};
ghost use Rattle.hold_vparse.specs.Nets.{nets as nets_of};
ghost use Rattle.hold_vparse.specs.PortFaults.{misdeclared};
ghost use Rattle.hold_vparse.specs.Soonest.{soonest};

use crate::bit_faults::{misfit_in_assignments, misfit_in_instances};
use crate::lines::header_names_in;
use crate::parts::Parts;
use crate::port_faults::{undirected_ident, unlike_ident, unlisted_ident};
use crate::ranged_nets::RangedNets;
use crate::soonest::soonest_of;
use crate::wire_list::has_large_bounds;
use hold_vsyntax::tree::Ident;

/// The first identifier at which a port is declared otherwise than it may.
pub(crate) fn misdeclared_ident<'a>(parts: &Parts<'a>) -> Option<&'a Ident>
    ensures { found_ident result ≡ soonest (misdeclared parts.now.tree.now) }
{
    let undirected = undirected_ident(header_names_in(&parts.tree.header), parts.port_lines);
    let unlisted = unlisted_ident(parts.body_lines, parts.listed);
    let unlike = unlike_ident(parts.wire_lines, parts.port_lines, parts.ranges);
    soonest_of(undirected, soonest_of(unlisted, unlike))
}

/// The first identifier at which a bit isn't there, or widths differ.
pub(crate) fn misfit_ident<'a>(parts: &Parts<'a>) -> Option<&'a Ident>
    ensures { found_ident result ≡ soonest (misfit parts.now.tree.now) }
{
    let nets = RangedNets {
        nets: parts.nets,
        ranges: parts.ranges,
    };
    let assigned = misfit_in_assignments(&nets, parts.assignments);
    let connected = misfit_in_instances(&nets, parts.instances);
    soonest_of(assigned, connected)
}

/// Whether a bound of a net is too large.
pub(crate) fn has_passed_bound(parts: &Parts<'_>) -> bool
    ensures { result ≡ list_any has_large_bound (nets_of parts.now.tree.now) }
{
    has_large_bounds(parts.nets.wires())
}

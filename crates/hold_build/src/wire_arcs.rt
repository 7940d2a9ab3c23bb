ghost use Rattle.std.specs.Prelude.{◌≡◌, IfOk, length};
ghost use Rattle.hold_netlist.specs.Bits.{bits_of};
ghost use Rattle.hold_build.specs.Listing.{ListsEach};
ghost use Rattle.hold_build.specs.inner.WireArcs.{AreOnNets, HasDifferentPins, IsSinkArc};

use crate::sinks::Sink;
use hold_base::Memory;
use hold_graph::Arc;
use hold_roles::{Bound, Root};
use std::alloc::Global;

/// The arcs to these sinks from the roots of their net bits.
pub(crate) fn wire_arcs(alloc: Global, bound: &Bound, sinks: &[Sink]) -> Result<Vec<Arc>, Memory>
    requires nets { AreOnNets (bits_of bound.now.netlist.wires) sinks.now }
    requires pins { HasDifferentPins sinks.now }
    ensures { IfOk result (λ arcs. ListsEach (IsSinkArc bound.now sinks.now (length sinks.now)) arcs.items) }
{
    let mut arcs = Vec::with_capacity(alloc, sinks.len())?;
    for sink in sinks {
        if let Root::Pin(from) = bound.root(sink.net) {
            arcs.push(Arc {
                from,
                to: sink.pin,
                wire: true,
            })?;
        }
    }
    Ok(arcs)
}

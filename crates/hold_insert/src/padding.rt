ghost use Rattle.std.specs.Prelude.{◌≡◌, ◌≤◌, ℕ, IfOk, All, List as Items, length};
ghost use Rattle.hold_base.specs.declared.number.PinNo.{PinNo as No};
ghost use Rattle.hold_graph.specs.Path.{HasArc};
ghost use Rattle.hold_graph.specs.SitePins.{AreSites};
ghost use Rattle.hold_graph.specs.Sites.{buffers_of};
ghost use Rattle.hold_netlist.specs.Pins.{connection_count};
ghost use Rattle.hold_netlist.specs.Valid.{IsValid};
ghost use Rattle.hold_roles.specs.Meaning.{Same};
ghost use Rattle.hold_insert.specs.Chains.{insertions};
ghost use Rattle.hold_insert.specs.NewNames.{IsFresh};
ghost use Rattle.hold_insert.specs.Padded.{inserted, IsPadding};
ghost use Rattle.hold_insert.specs.Premises.{AreChainCounts, IsBufferKind, IsTimingGraphOf};
ghost use Rattle.hold_insert.specs.inner.Grown.{grown_design};

use crate::copies::{bit_count, copy_ports, copy_wires};
use crate::fresh::fresh_number;
use crate::grown::Grown;
use crate::puts::puts_of;
use crate::sources::{sources_of, with_sources};
use hold_base::{Memory, Stop};
use hold_graph::{Counts, Graph};
use hold_netlist::{Kind, Netlist};
use hold_roles::Bound;
use std::alloc::Global;

/// Does nothing. A proof learns from the call that no arc leads from a pin to itself.
fn know_order(graph: &Graph)
    ensures { (pin : No) → HasArc graph.now.arcs pin pin → ⊥ }
{
    let _parts = graph.parts();
    let _order = graph.order();
}

/// The netlist of these parts.
fn netlist_of(alloc: Global, netlist: &Netlist, grown: Grown) -> Result<Netlist, Memory>
    requires valid { IsValid (grown_design netlist.now grown) }
    requires each { connection_count netlist.now.insts ≤ length grown.sources.items }
    ensures { IfOk result (λ padded. padded ≡ grown_design netlist.now grown) }
{
    let Grown {
        wires,
        sources,
        mut buffers,
    } = grown;
    let name = netlist.name().clone()?;
    let ports = copy_ports(alloc, netlist.ports())?;
    let mut insts = with_sources(alloc, netlist.insts(), sources.as_slice())?;
    insts.append(&mut buffers)?;
    let assigns = Vec::from_slice(alloc, netlist.assigns())?;
    match Netlist::make(alloc, name, ports, wires, insts, assigns) {
        Ok(padded) => Ok(padded),
        Err(Stop::Memory) => Err(Memory),
        Err(Stop::Fault(_)) => unreachable!(),
    }
}

/// The netlist with these buffers, whose new names have that number.
fn padded(
    alloc: Global,
    bound: &Bound,
    graph: &Graph,
    kinds: &[Kind],
    counts: &Counts,
    number: u32,
) -> Result<Netlist, Memory>
    requires graph { IsTimingGraphOf bound.now graph.now }
    requires kinds { All (IsBufferKind bound.now.types) kinds.now }
    requires counts { AreChainCounts graph.now (length kinds.now) counts.now }
    requires fresh { IsFresh bound.now.netlist number }
    ensures padded { IfOk result (IsPadding graph.now kinds.now counts.now bound.now.netlist) }
    ensures valid { IfOk result IsValid }
    ensures same { IfOk result (Same bound.now.types kinds.now bound.now.netlist) }
{
    bound.know_sound();
    know_order(graph);
    let netlist = bound.netlist();
    netlist.know_valid();
    let puts = puts_of(alloc, graph.sites(), kinds, counts.as_slice())?;
    let mut grown = Grown {
        wires: copy_wires(alloc, netlist.wires())?,
        sources: sources_of(alloc, netlist.insts())?,
        buffers: Vec::new(alloc),
    };
    let bits = bit_count(netlist.wires()) as u32;
    grown.put_all(alloc, number, bits, puts.as_slice())?;
    netlist_of(alloc, netlist, grown)
}

/// The netlist with a chain of buffers in front of each site of its timing graph, as these counts of these kinds ask for. Nothing else
/// changes: it is valid, its new names are fresh, and it means the same.
pub fn pad(
    alloc: Global,
    bound: &Bound,
    graph: &Graph,
    kinds: &[Kind],
    counts: &Counts,
) -> Result<Netlist, Memory>
    requires graph { IsTimingGraphOf bound.now graph.now }
    requires kinds { All (IsBufferKind bound.now.types) kinds.now }
    requires counts { AreChainCounts graph.now (length kinds.now) counts.now }
    ensures padded { IfOk result (IsPadding graph.now kinds.now counts.now bound.now.netlist) }
    ensures valid { IfOk result IsValid }
    ensures same { IfOk result (Same bound.now.types kinds.now bound.now.netlist) }
{
    let number = fresh_number(alloc, bound.netlist())?;
    padded(alloc, bound, graph, kinds, counts, number)
}

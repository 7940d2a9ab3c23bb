ghost use Rattle.std.specs.Prelude.{◌≡◌, ◌≤◌, None, true, nat_lt, length, IfOk, OnOk};
ghost use Rattle.hold_base.specs.Answers.{IfFault, IfStopFault};
ghost use Rattle.hold_base.specs.Limits.{bits_limit, assigns_limit};
ghost use Rattle.hold_netlist.specs.Bits.{bits_of};
ghost use Rattle.hold_netlist.specs.Design.{design};
ghost use Rattle.hold_netlist.specs.Doubles.{first_double_name};
ghost use Rattle.hold_netlist.specs.Limits.{first_passed_limit};
ghost use Rattle.hold_netlist.specs.WellFormed.{IsWellFormed};
ghost use Rattle.hold_vsyntax.specs.Named.{IsNamedModule};
ghost use Rattle.hold_vparse.specs.inner.Clear.{IsClear};
ghost use Rattle.hold_vparse.specs.inner.DeclaredNetlist.{IsDeclared, IsFirstNameFault};
ghost use Rattle.hold_vparse.specs.inner.DesignWith.{design_with, insts_of, assigns_of, IsLimit};
ghost use Rattle.hold_vparse.specs.Nets.{nets as nets_of};

use crate::assign_list::{assign_list, has_too_many_assigns};
use crate::fault::VerilogFault;
use crate::inst_list::inst_list;
use crate::layout::{Layout, bits_within_limit, first_bits_of};
use crate::parts::Parts;
use crate::refusals::refuse_names;
use crate::wire_list::{port_list, wire_list};
use hold_base::{Name, Stop, What};
use hold_netlist::{Assign, Inst, NetFault, Netlist, Port, Wire};
use std::alloc::Global;

/// The netlist of these parts, in which no name stands twice.
fn netlist_in_limits(
    alloc: Global,
    name: Name,
    ports: Vec<Port>,
    wires: Vec<Wire>,
    insts: Vec<Inst>,
    assigns: Vec<Assign>,
) -> Result<Netlist, Stop<VerilogFault>>
    requires well_formed { IsWellFormed (design name ports.items wires.items insts.items assigns.items) }
    requires names { first_double_name (design name ports.items wires.items insts.items assigns.items) ≡ None }
    ensures made { IfOk result (λ netlist. netlist ≡ design name ports.items wires.items insts.items assigns.items) }
    ensures limits { OnOk result (first_passed_limit (design name ports.items wires.items insts.items assigns.items) ≡ None) }
    ensures refused { IfFault result (IsLimit (design name ports.items wires.items insts.items assigns.items)) }
{
    match Netlist::make(alloc, name, ports, wires, insts, assigns) {
        Ok(netlist) => Ok(netlist),
        Err(Stop::Memory) => Err(Stop::Memory),
        Err(Stop::Fault(NetFault::Limit(what))) => Err(Stop::Fault(VerilogFault::Limit(what))),
        Err(Stop::Fault(NetFault::DoubleName(name))) => {
            Err(Stop::Fault(VerilogFault::DoubleName(name)))
        }
    }
}

/// The netlist of a module's parts, with these wires, instances and assignments.
fn netlist_with(
    alloc: Global,
    parts: &Parts<'_>,
    wires: Vec<Wire>,
    insts: Vec<Inst>,
    assigns: Vec<Assign>,
) -> Result<Netlist, Stop<VerilogFault>>
    requires wires { wires.items ≡ nets_of parts.now.tree.now }
    requires insts { insts.items ≡ insts_of parts.now.tree.now }
    requires well_formed { IsWellFormed (design_with parts.now.tree.now assigns.items) }
    requires names { first_double_name (design_with parts.now.tree.now assigns.items) ≡ None }
    ensures made { IfOk result (λ netlist. netlist ≡ design_with parts.now.tree.now assigns.items) }
    ensures limits { OnOk result (first_passed_limit (design_with parts.now.tree.now assigns.items) ≡ None) }
    ensures refused { IfFault result (IsLimit (design_with parts.now.tree.now assigns.items)) }
{
    let name = parts.tree.name.name.clone()?;
    let ports = port_list(alloc, parts.ports)?;
    netlist_in_limits(alloc, name, ports, wires, insts, assigns)
}

/// Why a module is refused that assigns more bits than a netlist may: for the limit that it passes before that
/// one, else for that one. The assignments aren't made, since a short text can assign more bits than memory holds.
fn refused_for_assigns(
    alloc: Global,
    parts: &Parts<'_>,
    wires: Vec<Wire>,
    insts: Vec<Inst>,
) -> Stop<VerilogFault>
    requires named { IsNamedModule parts.now.tree.now }
    requires clear { IsClear parts.now.tree.now }
    requires wires { wires.items ≡ nets_of parts.now.tree.now }
    requires insts { insts.items ≡ insts_of parts.now.tree.now }
    requires many { nat_lt assigns_limit (length (assigns_of parts.now.tree.now)) ≡ true }
    ensures { IfStopFault result (IsFirstNameFault parts.now.tree.now) }
{
    match netlist_with(alloc, parts, wires, insts, Vec::new(alloc)) {
        Ok(_) => Stop::Fault(VerilogFault::Limit(What::Assigns)),
        Err(stop) => stop,
    }
}

/// The netlist of a module's parts, with all that it declares.
fn whole_netlist(
    alloc: Global,
    parts: &Parts<'_>,
    wires: Vec<Wire>,
    insts: Vec<Inst>,
    assigns: Vec<Assign>,
) -> Result<Netlist, Stop<VerilogFault>>
    requires named { IsNamedModule parts.now.tree.now }
    requires clear { IsClear parts.now.tree.now }
    requires wires { wires.items ≡ nets_of parts.now.tree.now }
    requires insts { insts.items ≡ insts_of parts.now.tree.now }
    requires assigns { assigns.items ≡ assigns_of parts.now.tree.now }
    ensures declared { IfOk result (IsDeclared parts.now.tree.now) }
    ensures refused { IfFault result (IsFirstNameFault parts.now.tree.now) }
{
    netlist_with(alloc, parts, wires, insts, assigns)
}

/// The netlist of a module whose wires have so many bits.
fn netlist_of_bits(
    alloc: Global,
    parts: &Parts<'_>,
    wires: Vec<Wire>,
    bits: u32,
) -> Result<Netlist, Stop<VerilogFault>>
    requires named { IsNamedModule parts.now.tree.now }
    requires clear { IsClear parts.now.tree.now }
    requires wires { wires.items ≡ nets_of parts.now.tree.now }
    requires bits { bits ≡ bits_of (nets_of parts.now.tree.now) }
    requires few { bits ≤ bits_limit }
    ensures declared { IfOk result (IsDeclared parts.now.tree.now) }
    ensures refused { IfFault result (IsFirstNameFault parts.now.tree.now) }
{
    let firsts = first_bits_of(alloc, &wires)?;
    let layout = Layout {
        nets: parts.nets,
        wires: &wires,
        firsts: &firsts,
        bits,
    };
    let insts = inst_list(alloc, &layout, parts.instances)?;
    if has_too_many_assigns(&layout, parts.assignments) {
        return Err(refused_for_assigns(alloc, parts, wires, insts));
    }
    let assigns = assign_list(alloc, &layout, parts.assignments)?;
    whole_netlist(alloc, parts, wires, insts, assigns)
}

/// The netlist of a module whose names are in order, or the limit that it passes.
fn clear_netlist(alloc: Global, parts: &Parts<'_>) -> Result<Netlist, Stop<VerilogFault>>
    requires named { IsNamedModule parts.now.tree.now }
    requires clear { IsClear parts.now.tree.now }
    ensures declared { IfOk result (IsDeclared parts.now.tree.now) }
    ensures refused { IfFault result (IsFirstNameFault parts.now.tree.now) }
{
    let wires = wire_list(alloc, parts.nets.wires())?;
    match bits_within_limit(&wires) {
        Some(bits) => netlist_of_bits(alloc, parts, wires, bits),
        None => Err(Stop::Fault(VerilogFault::Limit(What::Bits))),
    }
}

/// The netlist of a module's parts, or the first fault in its names and limits.
pub(crate) fn netlist_of(alloc: Global, parts: &Parts<'_>) -> Result<Netlist, Stop<VerilogFault>>
    requires { IsNamedModule parts.now.tree.now }
    ensures declared { IfOk result (IsDeclared parts.now.tree.now) }
    ensures refused { IfFault result (IsFirstNameFault parts.now.tree.now) }
{
    refuse_names(alloc, parts)?;
    clear_netlist(alloc, parts)
}

ghost use Rattle.std.specs.Prelude.{◌≡◌, ◌++◌, IfOk};
ghost use Rattle.hold_vparse.specs.DoubleNames.{mentions as mentions_of};
ghost use Rattle.hold_vparse.specs.inner.Flat.{targets, seen_ports, seen_wires, seen_mentions, seen_instances};
ghost use Rattle.hold_vparse.specs.Lines.{header_names, header_lines, body_lines as body_lines_of, ports_of, wire_lines as wire_lines_of, assignments as assignments_of, instances as instances_of};
ghost use Rattle.hold_vparse.specs.Nets.{names, declared_names, nets as nets_of};
ghost use Rattle.hold_vparse.specs.inner.Ranges.{ranges_of};

use crate::index::Index;
use crate::lines::{NamedWire, Port, assignments_in, instances_in, wire_lines_in};
use crate::mentions::{Mention, mentions_in};
use crate::net_ranges::all_ranges;
use crate::nets::Nets;
use crate::parts::{
    Parts, all_body_lines, all_declared, all_headed, all_listed, all_nets, all_port_lines,
    all_ports,
};
use crate::ports::Ports;
use crate::ranges::Ranges;
use hold_base::Memory;
use hold_netlist::Seed;
use hold_vsyntax::tree::{Assignment, Ident, Instance, Module};
use std::alloc::Global;

/// The lists and tables of a module's ports.
#[derive(Drop)]
struct PortTables<'a> {
    tree: &'a Module,
    seed: Seed,
    listed: Index<'a>,
    port_lines: Ports<'a>,
    body_lines: Vec<Port<'a>>,
    ports: Vec<Port<'a>>,
    ghost all_listed: { listed ≡ header_names tree.now.header },
    ghost all_port_lines: { port_lines ≡ header_lines tree.now.header ++ body_lines_of tree.now.items },
    ghost all_body_lines: { seen_ports body_lines.items ≡ body_lines_of tree.now.items },
    ghost all_ports: { seen_ports ports.items ≡ ports_of tree.now },
}

/// Those, and the lists of its wires and of all mentions of names.
#[derive(Drop)]
struct LineTables<'a> {
    ports: PortTables<'a>,
    wire_lines: Vec<NamedWire<'a>>,
    mentions: Vec<Mention<'a>>,
    ghost all_wire_lines: { seen_wires wire_lines.items ≡ wire_lines_of ports.tree.now.items },
    ghost all_mentions: { seen_mentions mentions.items ≡ mentions_of ports.tree.now },
}

/// Those, and the tables of its nets.
#[derive(Drop)]
struct NetTables<'a> {
    lines: LineTables<'a>,
    declared: Index<'a>,
    nets: Nets<'a>,
    ranges: Ranges<'a>,
    ghost all_declared: { names declared ≡ declared_names lines.ports.tree.now },
    ghost all_nets: { nets ≡ nets_of lines.ports.tree.now },
    ghost all_ranges: { ranges ≡ ranges_of lines.ports.tree.now },
}

/// All lists and tables of a module. They are owned in one value, which its `Parts` borrow from.
#[derive(Drop)]
pub(crate) struct Tables<'a> {
    nets: NetTables<'a>,
    assignments: Vec<&'a Assignment>,
    instances: Vec<(&'a Ident, &'a Instance)>,
    ghost all_assignments: { targets assignments.items ≡ assignments_of nets.lines.ports.tree.now.items },
    ghost all_instances: { seen_instances instances.items ≡ instances_of nets.lines.ports.tree.now.items },
}

/// Makes the lists and tables of a module's ports.
fn port_tables(alloc: Global, seed: Seed, tree: &Module) -> Result<PortTables<'_>, Memory>
    ensures { IfOk result (λ tables. tables.tree.now ≡ tree.now) }
{
    let listed = all_listed(alloc, seed, tree)?;
    let port_lines = all_port_lines(alloc, seed, tree)?;
    let body_lines = all_body_lines(alloc, tree)?;
    let ports = all_ports(alloc, tree, &port_lines)?;
    Ok(PortTables {
        tree,
        seed,
        listed,
        port_lines,
        body_lines,
        ports,
    })
}

/// Adds the lists of wires and mentions.
fn line_tables<'a>(alloc: Global, ports: PortTables<'a>) -> Result<LineTables<'a>, Memory>
    ensures { IfOk result (λ tables. tables.ports.tree.now ≡ ports.entry.tree.now) }
{
    let wire_lines = wire_lines_in(alloc, ports.tree.items.as_slice())?;
    let mentions = mentions_in(alloc, ports.tree)?;
    Ok(LineTables {
        ports,
        wire_lines,
        mentions,
    })
}

/// Adds the tables of nets.
fn net_tables<'a>(alloc: Global, lines: LineTables<'a>) -> Result<NetTables<'a>, Memory>
    ensures { IfOk result (λ tables. tables.lines.ports.tree.now ≡ lines.entry.ports.tree.now) }
{
    let tree = lines.ports.tree;
    let seed = lines.ports.seed;
    let declared = all_declared(
        alloc,
        seed,
        tree,
        &lines.ports.port_lines,
        &lines.wire_lines,
    )?;
    let ports = &lines.ports.ports;
    let wires = &lines.wire_lines;
    let header = all_headed(alloc, seed, tree)?;
    let nets = all_nets(
        alloc,
        seed,
        tree,
        &header,
        ports,
        wires,
        &declared,
        &lines.mentions,
    )?;
    let ranges = all_ranges(
        alloc,
        seed,
        tree,
        &lines.ports.port_lines,
        ports,
        wires,
        &header,
        nets.wires().len(),
    )?;
    Ok(NetTables {
        lines,
        declared,
        nets,
        ranges,
    })
}

/// Adds the lists of assignments and instances.
fn all_tables<'a>(alloc: Global, nets: NetTables<'a>) -> Result<Tables<'a>, Memory>
    ensures { IfOk result (λ tables. tables.nets.lines.ports.tree.now ≡ nets.entry.lines.ports.tree.now) }
{
    let tree = nets.lines.ports.tree;
    let assignments = assignments_in(alloc, tree.items.as_slice())?;
    let instances = instances_in(alloc, tree.items.as_slice())?;
    Ok(Tables {
        nets,
        assignments,
        instances,
    })
}

/// Makes all lists and tables of a module. The tables hash by this seed.
pub(crate) fn tables_of(alloc: Global, seed: Seed, tree: &Module) -> Result<Tables<'_>, Memory>
    ensures { IfOk result (λ tables. tables.nets.lines.ports.tree.now ≡ tree.now) }
{
    let ports = port_tables(alloc, seed, tree)?;
    let lines = line_tables(alloc, ports)?;
    let nets = net_tables(alloc, lines)?;
    all_tables(alloc, nets)
}

/// Lends the lists and tables.
pub(crate) fn parts_in<'a>(tables: &'a Tables<'_>) -> Parts<'a>
    ensures { result.tree.now ≡ tables.now.nets.lines.ports.tree.now }
{
    let nets = &tables.nets;
    let lines = &nets.lines;
    let ports = &lines.ports;
    Parts {
        tree: ports.tree,
        seed: ports.seed,
        listed: &ports.listed,
        port_lines: &ports.port_lines,
        body_lines: &ports.body_lines,
        ports: &ports.ports,
        wire_lines: &lines.wire_lines,
        mentions: &lines.mentions,
        declared: &nets.declared,
        nets: &nets.nets,
        ranges: &nets.ranges,
        assignments: &tables.assignments,
        instances: &tables.instances,
    }
}

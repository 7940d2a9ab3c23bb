ghost use Rattle.std.specs.Prelude.{◌≡◌, ◌++◌, ◌∷◌, [], map, length, OnOk, IfOk};
ghost use Rattle.hold_vsyntax.specs.declared.tree.Ident.{Ident as Named};
ghost use Rattle.hold_vparse.specs.inner.Flat.{seen_ports, seen_wires};
ghost use Rattle.hold_vparse.specs.Lines.{as_declared, line_of, ports_of, header_lines, body_lines, wire_lines};
ghost use Rattle.hold_vparse.specs.Nets.{names, port_idents, nets as nets_of};
ghost use Rattle.hold_vparse.specs.inner.Ranges.{port_ranges, wire_ranges, range_lists, with_nets, other_ranges, ranges_of};

use crate::index::Index;
use crate::lines::{NamedWire, Port};
use crate::nets::Nets;
use crate::ports::Ports;
use crate::range_places::{port_places, wire_places};
use crate::range_table::RangeTable;
use crate::ranges::Ranges;
use hold_base::Memory;
use hold_netlist::Seed;
use hold_vsyntax::tree::{Header, Ident, Module};
use std::alloc::Global;

/// Adds a net for the port of this name, with the range of its first line.
fn add_plain_net(ranges: &mut Ranges<'_>, name: &Ident, lines: &Ports<'_>) -> Result<(), Memory>
    requires { ranges.old.ports ≡ port_ranges lines.now }
    ensures { OnOk result (ranges.new ≡ with_nets ranges.old ((as_declared name.now (line_of name.now.name lines.now)).range ∷ [])) }
{
    match lines.place(&name.name) {
        Some(line) => ranges.add_port(line),
        None => ranges.add_scalar(),
    }
}

/// Adds a net for each port of a plain list.
fn add_plain_nets(ranges: &mut Ranges<'_>, names: &[Ident], lines: &Ports<'_>) -> Result<(), Memory>
    requires { ranges.old.ports ≡ port_ranges lines.now }
    ensures { OnOk result (ranges.new ≡ with_nets ranges.old (port_ranges (map (λ (i : Named). as_declared i (line_of i.name lines.now)) names.now))) }
{
    for name in names {
        add_plain_net(ranges, name, lines)?;
    }
    Ok(())
}

/// Adds the nets of a module's ports.
fn add_port_nets(
    ranges: &mut Ranges<'_>,
    tree: &Module,
    lines: &Ports<'_>,
    ports: &[Port<'_>],
) -> Result<(), Memory>
    requires ranges { ranges.old.ports ≡ port_ranges lines.now }
    requires lines { lines.now ≡ header_lines tree.now.header ++ body_lines tree.now.items }
    requires ports { seen_ports ports.now ≡ ports_of tree.now }
    ensures { OnOk result (ranges.new ≡ with_nets ranges.old (port_ranges (ports_of tree.now))) }
{
    match &tree.header {
        Header::Bare => Ok(()),
        Header::Plain(names) => add_plain_nets(ranges, names.as_slice(), lines),
        Header::Declared(_, _) => ranges.add_first_ports(ports.len()),
    }
}

/// Adds the nets of those wire lines whose names aren't in the header.
fn add_other_nets(
    ranges: &mut Ranges<'_>,
    header: &Index<'_>,
    lines: &[NamedWire<'_>],
) -> Result<(), Memory>
    requires { ranges.old.wires ≡ wire_ranges (seen_wires lines.now) }
    ensures { OnOk result (ranges.new ≡ with_nets ranges.old (other_ranges (names header.now) (seen_wires lines.now))) }
{
    for (number, line) in lines.iter().enumerate() {
        if !header.has(&line.name.name) {
            ranges.add_wire(number)?;
        }
    }
    Ok(())
}

/// The ranges of a module's lines, and as yet of no net.
fn line_ranges(alloc: Global, seed: Seed, tree: &Module) -> Result<Ranges<'_>, Memory>
    ensures { IfOk result (λ ranges. ranges ≡ range_lists (port_ranges (header_lines tree.now.header ++ body_lines tree.now.items)) (wire_ranges (wire_lines tree.now.items)) []) }
{
    let items = tree.items.as_slice();
    let mut table = RangeTable::new(alloc, seed);
    let ports = port_places(alloc, &mut table, &tree.header, items)?;
    let wires = wire_places(alloc, &mut table, items)?;
    Ok(Ranges::of(alloc, table, ports, wires))
}

/// The ranges of a module's lines and nets, of which there are `count`.
pub(crate) fn all_ranges<'a>(
    alloc: Global,
    seed: Seed,
    tree: &'a Module,
    lines: &Ports<'a>,
    ports: &[Port<'a>],
    wires: &[NamedWire<'a>],
    header: &Index<'a>,
    count: usize,
) -> Result<Ranges<'a>, Memory>
    requires lines { lines.now ≡ header_lines tree.now.header ++ body_lines tree.now.items }
    requires ports { seen_ports ports.now ≡ ports_of tree.now }
    requires wires { seen_wires wires.now ≡ wire_lines tree.now.items }
    requires header { header.now ≡ port_idents tree.now }
    requires count { count ≡ length (nets_of tree.now) }
    ensures { IfOk result (λ ranges. ranges ≡ ranges_of tree.now) }
{
    let mut ranges = line_ranges(alloc, seed, tree)?;
    add_port_nets(&mut ranges, tree, lines, ports)?;
    add_other_nets(&mut ranges, header, wires)?;
    ranges.fill(count)?;
    Ok(ranges)
}

ghost use Rattle.std.specs.Prelude.{◌≡◌, ◌++◌, IfOk};
ghost use Rattle.hold_vparse.specs.DoubleNames.{mentions as mentions_of};
ghost use Rattle.hold_vparse.specs.inner.Flat.{targets, seen_ports, seen_wires, seen_mentions, seen_instances};
ghost use Rattle.hold_vparse.specs.Lines.{header_names, header_lines, body_lines as body_lines_of, ports_of, wire_lines as wire_lines_of, assignments as assignments_of, instances as instances_of};
ghost use Rattle.hold_vparse.specs.Nets.{names, port_idents, declared_names, nets as nets_of};
ghost use Rattle.hold_vparse.specs.inner.Ranges.{ranges_of};

use crate::idents::{declared_idents, header_idents, references};
use crate::index::Index;
use crate::lines::{NamedWire, Port, add_body_lines, header_names_in, port_lines_in};
use crate::mentions::Mention;
use crate::nets::Nets;
use crate::ports::{Ports, ports_of_header};
use crate::ranges::Ranges;
use crate::wires::all_wires;
use hold_base::Memory;
use hold_netlist::Seed;
use hold_vsyntax::tree::{Assignment, Ident, Instance, Module};
use std::alloc::Global;

/// The lists of what stands in a module, and the tables over them.
#[derive(Clone, Copy)]
pub(crate) struct Parts<'a> {
    pub tree: &'a Module,
    /// The seed of the text, which further tables hash by.
    pub seed: Seed,
    /// The plain list of ports.
    pub listed: &'a Index<'a>,
    /// The lines that give ports a direction, in the header and then in the body.
    pub port_lines: &'a Ports<'a>,
    /// Those in the body alone.
    pub body_lines: &'a [Port<'a>],
    /// The ports in the order of the header.
    pub ports: &'a [Port<'a>],
    pub wire_lines: &'a [NamedWire<'a>],
    pub mentions: &'a [Mention<'a>],
    /// The names that are declared as nets.
    pub declared: &'a Index<'a>,
    pub nets: &'a Nets<'a>,
    /// The ranges of the lines and nets.
    pub ranges: &'a Ranges<'a>,
    pub assignments: &'a [&'a Assignment],
    /// Each with the name of its type.
    pub instances: &'a [(&'a Ident, &'a Instance)],
    ghost all_listed: { listed.now ≡ header_names tree.now.header },
    ghost all_port_lines: { port_lines.now ≡ header_lines tree.now.header ++ body_lines_of tree.now.items },
    ghost all_body_lines: { seen_ports body_lines.now ≡ body_lines_of tree.now.items },
    ghost all_ports: { seen_ports ports.now ≡ ports_of tree.now },
    ghost all_wire_lines: { seen_wires wire_lines.now ≡ wire_lines_of tree.now.items },
    ghost all_mentions: { seen_mentions mentions.now ≡ mentions_of tree.now },
    ghost all_declared: { names declared.now ≡ declared_names tree.now },
    ghost all_nets: { nets.now ≡ nets_of tree.now },
    ghost all_ranges: { ranges.now ≡ ranges_of tree.now },
    ghost all_assignments: { targets assignments.now ≡ assignments_of tree.now.items },
    ghost all_instances: { seen_instances instances.now ≡ instances_of tree.now.items },
}

/// The plain list of ports.
pub(crate) fn all_listed(alloc: Global, seed: Seed, tree: &Module) -> Result<Index<'_>, Memory>
    ensures { IfOk result (λ listed. listed ≡ header_names tree.now.header) }
{
    let idents = references(alloc, header_names_in(&tree.header))?;
    Index::of(alloc, seed, idents)
}

/// The lines that give ports a direction, in the header and then in the body.
pub(crate) fn all_port_lines<'a>(
    alloc: Global,
    seed: Seed,
    tree: &'a Module,
) -> Result<Ports<'a>, Memory>
    ensures { IfOk result (λ ports. ports ≡ header_lines tree.now.header ++ body_lines_of tree.now.items) }
{
    let lines = port_lines_in(alloc, &tree.header, tree.items.as_slice())?;
    Ports::of(alloc, seed, lines)
}

/// The lines in the body that give ports a direction.
pub(crate) fn all_body_lines(alloc: Global, tree: &Module) -> Result<Vec<Port<'_>>, Memory>
    ensures { IfOk result (λ lines. seen_ports lines.items ≡ body_lines_of tree.now.items) }
{
    let mut list = Vec::new(alloc);
    add_body_lines(&mut list, tree.items.as_slice())?;
    Ok(list)
}

/// The ports in the order of the header.
pub(crate) fn all_ports<'a>(
    alloc: Global,
    tree: &'a Module,
    lines: &Ports<'a>,
) -> Result<Vec<Port<'a>>, Memory>
    requires { lines.now ≡ header_lines tree.now.header ++ body_lines_of tree.now.items }
    ensures { IfOk result (λ ports. seen_ports ports.items ≡ ports_of tree.now) }
{
    ports_of_header(alloc, &tree.header, lines)
}

/// The names that are declared as nets.
pub(crate) fn all_declared<'a>(
    alloc: Global,
    seed: Seed,
    tree: &'a Module,
    ports: &Ports<'a>,
    wires: &[NamedWire<'a>],
) -> Result<Index<'a>, Memory>
    requires ports { ports.now ≡ header_lines tree.now.header ++ body_lines_of tree.now.items }
    requires wires { seen_wires wires.now ≡ wire_lines_of tree.now.items }
    ensures { IfOk result (λ declared. names declared ≡ declared_names tree.now) }
{
    let idents = declared_idents(alloc, &tree.header, ports.lines(), wires)?;
    Index::of(alloc, seed, idents)
}

/// The ports in the header.
pub(crate) fn all_headed(alloc: Global, seed: Seed, tree: &Module) -> Result<Index<'_>, Memory>
    ensures { IfOk result (λ headed. headed ≡ port_idents tree.now) }
{
    let idents = header_idents(alloc, &tree.header)?;
    Index::of(alloc, seed, idents)
}

/// All nets.
pub(crate) fn all_nets<'a>(
    alloc: Global,
    seed: Seed,
    tree: &'a Module,
    header: &Index<'a>,
    ports: &[Port<'a>],
    lines: &[NamedWire<'a>],
    declared: &Index<'a>,
    mentions: &[Mention<'a>],
) -> Result<Nets<'a>, Memory>
    requires header { header.now ≡ port_idents tree.now }
    requires ports { seen_ports ports.now ≡ ports_of tree.now }
    requires lines { seen_wires lines.now ≡ wire_lines_of tree.now.items }
    requires declared { names declared.now ≡ declared_names tree.now }
    requires mentions { seen_mentions mentions.now ≡ mentions_of tree.now }
    ensures { IfOk result (λ nets. nets ≡ nets_of tree.now) }
{
    let wires = all_wires(alloc, seed, ports, header, lines, declared, mentions)?;
    Nets::of(alloc, seed, wires)
}

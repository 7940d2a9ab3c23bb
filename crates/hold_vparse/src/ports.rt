ghost use Rattle.std.specs.Prelude.{◌≡◌, map, slice_get, IfOk};
ghost use Rattle.hold_vsyntax.specs.declared.tree.Ident.{Ident as Named};
ghost use Rattle.hold_vparse.specs.inner.Flat.{seen_port, seen_ports, seen_found};
ghost use Rattle.hold_vparse.specs.inner.Index.{place_of};
ghost use Rattle.hold_vparse.specs.Lines.{PortLine, line_of, as_declared, ports_in};
ghost use Rattle.hold_vparse.specs.Nets.{names};

use crate::idents::port_idents;
use crate::index::Index;
use crate::lines::{Port, header_lines_in};
use hold_base::{Memory, Name};
use hold_netlist::{Direction, Seed};
use hold_vsyntax::tree::{Header, Ident};
use std::alloc::Global;
use std::marker::Model;

/// Ports as lines declare them, with the first line of each name. A contract sees the lines.
#[derive(Drop)]
pub(crate) struct Ports<'a> {
    lines: Vec<Port<'a>>,
    index: Index<'a>,
}

impl<'a> Model for Ports<'a> {
    ghost use Rattle.std.specs.Prelude.{◌≡◌, List, map};
    ghost use Rattle.hold_vparse.specs.inner.Flat.{seen_ports};
    ghost use Rattle.hold_vparse.specs.Lines.{PortLine as Line};

    ghost Value = { List Line };

    ghost view = { λ p. seen_ports p.lines.items };

    ghost invariant = { λ p. p.index ≡ map (λ (l : Line). l.name) (seen_ports p.lines.items) };
}

impl<'a> Ports<'a> {
    /// Takes these lines over.
    pub(crate) fn of(alloc: Global, seed: Seed, lines: Vec<Port<'a>>) -> Result<Ports<'a>, Memory>
        ensures { IfOk result (λ ports. ports ≡ seen_ports lines.entry.items) }
    {
        let idents = port_idents(alloc, &lines)?;
        let index = Index::of(alloc, seed, idents)?;
        Ok(Ports { lines, index })
    }

    /// Lends the lines.
    pub(crate) fn lines(&self) -> &[Port<'a>]
        ensures { seen_ports result.now ≡ self.now }
    {
        self.lines.as_slice()
    }

    /// The place of the first line of this name.
    pub(crate) fn place(&self, name: &Name) -> Option<u32>
        ensures { result ≡ place_of name.now (names (map (λ (l : PortLine). l.name) self.now)) }
    {
        self.index.place(name)
    }

    /// The line in a place.
    pub(crate) fn get(&self, place: u32) -> Option<&Port<'a>>
        ensures { seen_found result ≡ slice_get self.now place }
    {
        self.lines.get(place as usize)
    }

    /// The first line of this name.
    pub(crate) fn find(&self, name: &Name) -> Option<&Port<'a>>
        ensures { seen_found result ≡ line_of name.now self.now }
    {
        match self.place(name) {
            Some(place) => self.get(place),
            None => None,
        }
    }
}

/// The port of a plain list as its first line declares it; a scalar input where no line does.
fn declared_port<'a>(name: &'a Ident, lines: &Ports<'a>) -> Port<'a>
    ensures { seen_port result ≡ as_declared name.now (line_of name.now.name lines.now) }
{
    match lines.find(&name.name) {
        Some(line) => Port {
            direction: line.direction,
            range: line.range,
            name,
        },
        None => Port {
            direction: Direction::Input,
            range: None,
            name,
        },
    }
}

/// The ports of a plain list.
fn plain_ports<'a>(
    alloc: Global,
    names: &'a [Ident],
    lines: &Ports<'a>,
) -> Result<Vec<Port<'a>>, Memory>
    ensures { IfOk result (λ list. seen_ports list.items ≡ map (λ (i : Named). as_declared i (line_of i.name lines.now)) names.now) }
{
    let mut list = Vec::new(alloc);
    for name in names {
        list.push(declared_port(name, lines))?;
    }
    Ok(list)
}

/// The ports in the order of the header, where `lines` are those of a plain list.
pub(crate) fn ports_of_header<'a>(
    alloc: Global,
    header: &'a Header,
    lines: &Ports<'a>,
) -> Result<Vec<Port<'a>>, Memory>
    ensures { IfOk result (λ list. seen_ports list.items ≡ ports_in header.now lines.now) }
{
    match header {
        Header::Bare => Ok(Vec::new(alloc)),
        Header::Plain(names) => plain_ports(alloc, names.as_slice(), lines),
        Header::Declared(_, _) => header_lines_in(alloc, header),
    }
}

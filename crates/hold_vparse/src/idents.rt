ghost use Rattle.std.specs.Prelude.{◌≡◌, ◌++◌, map, OnOk, IfOk};
ghost use Rattle.hold_vparse.specs.inner.Flat.{targets, seen_ports, seen_wires};
ghost use Rattle.hold_vparse.specs.Lines.{PortLine, WireLine, header_names, header_lines};

use crate::lines::{NamedWire, Port, header_lines_in, header_names_in};
use hold_base::Memory;
use hold_vsyntax::tree::{Header, Ident};
use std::alloc::Global;

/// Puts identifiers behind these.
fn add_names<'a>(list: &mut Vec<&'a Ident>, names: &'a [Ident]) -> Result<(), Memory>
    ensures { OnOk result (targets list.new.items ≡ targets list.old.items ++ names.now) }
{
    for name in names {
        list.push(name)?;
    }
    Ok(())
}

/// Puts the identifiers that lines of ports declare behind these.
fn add_port_names<'a>(list: &mut Vec<&'a Ident>, lines: &[Port<'a>]) -> Result<(), Memory>
    ensures { OnOk result (targets list.new.items ≡ targets list.old.items ++ map (λ (l : PortLine). l.name) (seen_ports lines.now)) }
{
    for line in lines {
        list.push(line.name)?;
    }
    Ok(())
}

/// Puts the identifiers that lines of wires declare behind these.
fn add_wire_names<'a>(list: &mut Vec<&'a Ident>, lines: &[NamedWire<'a>]) -> Result<(), Memory>
    ensures { OnOk result (targets list.new.items ≡ targets list.old.items ++ map (λ (l : WireLine). l.name) (seen_wires lines.now)) }
{
    for line in lines {
        list.push(line.name)?;
    }
    Ok(())
}

/// References to each of these identifiers.
pub(crate) fn references(alloc: Global, names: &[Ident]) -> Result<Vec<&Ident>, Memory>
    ensures { IfOk result (λ list. targets list.items ≡ names.now) }
{
    let mut list = Vec::new(alloc);
    add_names(&mut list, names)?;
    Ok(list)
}

/// The identifiers that these lines declare.
pub(crate) fn port_idents<'a>(alloc: Global, lines: &[Port<'a>]) -> Result<Vec<&'a Ident>, Memory>
    ensures { IfOk result (λ list. targets list.items ≡ map (λ (l : PortLine). l.name) (seen_ports lines.now)) }
{
    let mut list = Vec::new(alloc);
    add_port_names(&mut list, lines)?;
    Ok(list)
}

/// The identifiers of the ports in the header.
pub(crate) fn header_idents<'a>(alloc: Global, header: &'a Header) -> Result<Vec<&'a Ident>, Memory>
    ensures { IfOk result (λ list. targets list.items ≡ header_names header.now ++ map (λ (l : PortLine). l.name) (header_lines header.now)) }
{
    let lines = header_lines_in(alloc, header)?;
    let mut list = Vec::new(alloc);
    add_names(&mut list, header_names_in(header))?;
    add_port_names(&mut list, &lines)?;
    Ok(list)
}

/// The identifiers that are declared as nets: in the header, by lines of ports, and by lines of wires.
pub(crate) fn declared_idents<'a>(
    alloc: Global,
    header: &'a Header,
    ports: &[Port<'a>],
    wires: &[NamedWire<'a>],
) -> Result<Vec<&'a Ident>, Memory>
    ensures { IfOk result (λ list. targets list.items ≡ header_names header.now ++ (map (λ (l : PortLine). l.name) (seen_ports ports.now) ++ map (λ (l : WireLine). l.name) (seen_wires wires.now))) }
{
    let mut list = Vec::new(alloc);
    add_names(&mut list, header_names_in(header))?;
    add_port_names(&mut list, ports)?;
    add_wire_names(&mut list, wires)?;
    Ok(list)
}

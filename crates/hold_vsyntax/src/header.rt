ghost use Rattle.hold_vsyntax.specs.inner.Gives.{Gives};
ghost use Rattle.hold_vsyntax.specs.inner.Reading.{declared_after, plain_at, port_list_after, header_at, opening_at};
ghost use Rattle.hold_vsyntax.specs.Symbols.{symbols};

use crate::fault::BadPiece;
use crate::idents::idents;
use crate::mark::Mark;
use crate::port::{header_port, more_ports};
use crate::reader::Reader;
use crate::steps::{direction, expect, ident, takes};
use crate::tree::{Header, Ident};
use hold_base::{List, Stop};
use hold_netlist::Direction;
use std::alloc::Global;

/// Reads a list of ports that are declared in the header, of which the first direction is read.
#[tactic(auto, unfolding(crate::specs::inner::Reading::declared_after))]
fn declared(
    alloc: Global,
    reader: &mut Reader<'_>,
    direction: Direction,
) -> Result<Header, Stop<BadPiece>>
    ensures { Gives result (declared_after direction (symbols reader.old)) (symbols reader.new) }
{
    let first = header_port(alloc, reader, direction)?;
    let rest = more_ports(alloc, reader)?;
    expect(reader, Mark::RightParenthesis)?;
    Ok(Header::Declared(first, rest))
}

/// Reads a list of ports' names that isn't empty.
#[tactic(auto, unfolding(crate::specs::inner::Reading::plain_at))]
fn plain(alloc: Global, reader: &mut Reader<'_>) -> Result<Header, Stop<BadPiece>>
    ensures { Gives result (plain_at (symbols reader.old)) (symbols reader.new) }
{
    let names = idents(alloc, reader)?;
    expect(reader, Mark::RightParenthesis)?;
    Ok(Header::Plain(names))
}

/// Reads a list of ports whose opening parenthesis is read.
#[tactic(auto, unfolding(crate::specs::inner::Reading::port_list_after))]
fn port_list(alloc: Global, reader: &mut Reader<'_>) -> Result<Header, Stop<BadPiece>>
    ensures { Gives result (port_list_after (symbols reader.old)) (symbols reader.new) }
{
    if takes(reader, Mark::RightParenthesis) {
        Ok(Header::Plain(List::from_vec(Vec::new(alloc))))
    } else if let Some(direction) = direction(reader) {
        declared(alloc, reader, direction)
    } else {
        plain(alloc, reader)
    }
}

/// Reads the ports in the header.
#[tactic(auto, unfolding(crate::specs::inner::Reading::header_at))]
fn header(alloc: Global, reader: &mut Reader<'_>) -> Result<Header, Stop<BadPiece>>
    ensures { Gives result (header_at (symbols reader.old)) (symbols reader.new) }
{
    if takes(reader, Mark::LeftParenthesis) {
        port_list(alloc, reader)
    } else {
        Ok(Header::Bare)
    }
}

/// Reads the piece that opens the module: its name and its ports.
#[tactic(auto, unfolding(crate::specs::inner::Reading::opening_at))]
pub fn opening(alloc: Global, reader: &mut Reader<'_>) -> Result<(Ident, Header), Stop<BadPiece>>
    ensures { Gives result (opening_at (symbols reader.old)) (symbols reader.new) }
{
    expect(reader, Mark::Module)?;
    let name = ident(alloc, reader)?;
    let ports = header(alloc, reader)?;
    expect(reader, Mark::Semicolon)?;
    Ok((name, ports))
}

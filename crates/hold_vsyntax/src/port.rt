ghost use Rattle.hold_vsyntax.specs.inner.Gives.{Gives};
ghost use Rattle.hold_vsyntax.specs.inner.Reading.{header_port_after, next_port_at, more_of};
ghost use Rattle.hold_vsyntax.specs.Symbols.{symbols};

use crate::fault::BadPiece;
use crate::mark::Mark;
use crate::range::range;
use crate::reader::Reader;
use crate::steps::{direction, ident, takes};
use crate::tree::{HeaderPort, NextPort};
use hold_base::{List, Stop};
use hold_netlist::Direction;
use std::alloc::Global;

/// Reads a port of the header whose direction is read.
#[tactic(auto, unfolding(crate::specs::inner::Reading::header_port_after))]
pub fn header_port(
    alloc: Global,
    reader: &mut Reader<'_>,
    direction: Direction,
) -> Result<HeaderPort, Stop<BadPiece>>
    ensures { Gives result (header_port_after direction (symbols reader.old)) (symbols reader.new) }
{
    let wire = takes(reader, Mark::Wire);
    let range = range(alloc, reader)?;
    let name = ident(alloc, reader)?;
    Ok(HeaderPort {
        direction,
        wire,
        range,
        name,
    })
}

/// Reads a later port of a header that declares its ports.
#[tactic(auto, unfolding(crate::specs::inner::Reading::next_port_at))]
pub fn next_port(alloc: Global, reader: &mut Reader<'_>) -> Result<NextPort, Stop<BadPiece>>
    ensures { Gives result (next_port_at (symbols reader.old)) (symbols reader.new) }
{
    if let Some(direction) = direction(reader) {
        let port = header_port(alloc, reader, direction)?;
        return Ok(NextPort::Declared(port));
    }
    let name = ident(alloc, reader)?;
    Ok(NextPort::Alike(name))
}

/// Reads the ports that follow the first one that a header declares, each after a comma.
pub fn more_ports(alloc: Global, reader: &mut Reader<'_>) -> Result<List<NextPort>, Stop<BadPiece>>
    ensures { Gives result (more_of next_port_at (symbols reader.old)) (symbols reader.new) }
{
    let mut list = Vec::new(alloc);
    while takes(reader, Mark::Comma) {
        let port = next_port(alloc, reader)?;
        list.push(port)?;
    }
    Ok(List::from_vec(list))
}

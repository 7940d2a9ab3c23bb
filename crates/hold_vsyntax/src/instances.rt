ghost use Rattle.hold_vsyntax.specs.inner.Gives.{Gives};
ghost use Rattle.hold_vsyntax.specs.inner.Reading.{connection_at, connections_at, instance_at, more_of, several_at, with_front};
ghost use Rattle.hold_vsyntax.specs.Symbols.{symbols};

use crate::connection::connection;
use crate::fault::BadPiece;
use crate::mark::Mark;
use crate::reader::Reader;
use crate::steps::{expect, ident, sees, takes};
use crate::tree::{Connection, Instance, Several};
use hold_base::{List, Stop};
use std::alloc::Global;

/// Adds to the list the connections that follow, each after a comma.
fn more_connections(
    alloc: Global,
    reader: &mut Reader<'_>,
    mut list: Vec<Connection>,
) -> Result<List<Connection>, Stop<BadPiece>>
    ensures { Gives result (with_front list.items (more_of connection_at (symbols reader.old))) (symbols reader.new) }
{
    while takes(reader, Mark::Comma) {
        let one = connection(alloc, reader)?;
        list.push(one)?;
    }
    Ok(List::from_vec(list))
}

/// Reads the connections of an instance, which may be none.
#[tactic(auto, unfolding(crate::specs::inner::Reading::connections_at))]
fn connections(alloc: Global, reader: &mut Reader<'_>) -> Result<List<Connection>, Stop<BadPiece>>
    ensures { Gives result (connections_at (symbols reader.old)) (symbols reader.new) }
{
    if sees(reader, Mark::RightParenthesis) {
        return Ok(List::from_vec(Vec::new(alloc)));
    }
    let first = connection(alloc, reader)?;
    let mut list = Vec::new(alloc);
    list.push(first)?;
    more_connections(alloc, reader, list)
}

/// Reads one instance.
#[tactic(auto, unfolding(crate::specs::inner::Reading::instance_at))]
fn instance(alloc: Global, reader: &mut Reader<'_>) -> Result<Instance, Stop<BadPiece>>
    ensures { Gives result (instance_at (symbols reader.old)) (symbols reader.new) }
{
    let name = ident(alloc, reader)?;
    expect(reader, Mark::LeftParenthesis)?;
    let connections = connections(alloc, reader)?;
    expect(reader, Mark::RightParenthesis)?;
    Ok(Instance { name, connections })
}

/// Reads the instances that follow a first one, each after a comma.
fn more_instances(alloc: Global, reader: &mut Reader<'_>) -> Result<List<Instance>, Stop<BadPiece>>
    ensures { Gives result (more_of instance_at (symbols reader.old)) (symbols reader.new) }
{
    let mut list = Vec::new(alloc);
    while takes(reader, Mark::Comma) {
        let one = instance(alloc, reader)?;
        list.push(one)?;
    }
    Ok(List::from_vec(list))
}

/// Reads one instance or more, with commas between them.
pub fn several_instances(
    alloc: Global,
    reader: &mut Reader<'_>,
) -> Result<Several<Instance>, Stop<BadPiece>>
    ensures { Gives result (several_at instance_at (symbols reader.old)) (symbols reader.new) }
{
    let first = instance(alloc, reader)?;
    let rest = more_instances(alloc, reader)?;
    Ok(Several { first, rest })
}

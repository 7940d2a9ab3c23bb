ghost use Rattle.hold_vsyntax.specs.inner.Gives.{Gives};
ghost use Rattle.hold_vsyntax.specs.inner.Reading.{body_ports_after, body_wires_after, assignments_after, instances_at, statement_at, item_at};
ghost use Rattle.hold_vsyntax.specs.Symbols.{symbols};

use crate::assignments::several_assignments;
use crate::fault::BadPiece;
use crate::idents::several_idents;
use crate::instances::several_instances;
use crate::mark::Mark;
use crate::range::range;
use crate::reader::Reader;
use crate::steps::{direction, expect, ident, takes};
use crate::tree::{BodyPorts, BodyWires, Instances, Item};
use hold_base::Stop;
use hold_netlist::Direction;
use std::alloc::Global;

/// Reads ports that the body declares, of which the direction is read.
#[tactic(auto, unfolding(crate::specs::inner::Reading::body_ports_after))]
fn body_ports(
    alloc: Global,
    reader: &mut Reader<'_>,
    direction: Direction,
) -> Result<Item, Stop<BadPiece>>
    ensures { Gives result (body_ports_after direction (symbols reader.old)) (symbols reader.new) }
{
    let wire = takes(reader, Mark::Wire);
    let range = range(alloc, reader)?;
    let names = several_idents(alloc, reader)?;
    Ok(Item::Ports(BodyPorts {
        direction,
        wire,
        range,
        names,
    }))
}

/// Reads wires whose keyword is read.
#[tactic(auto, unfolding(crate::specs::inner::Reading::body_wires_after))]
fn body_wires(alloc: Global, reader: &mut Reader<'_>) -> Result<Item, Stop<BadPiece>>
    ensures { Gives result (body_wires_after (symbols reader.old)) (symbols reader.new) }
{
    let range = range(alloc, reader)?;
    let names = several_idents(alloc, reader)?;
    Ok(Item::Wires(BodyWires { range, names }))
}

/// Reads assignments whose keyword is read.
#[tactic(auto, unfolding(crate::specs::inner::Reading::assignments_after))]
fn assignments(alloc: Global, reader: &mut Reader<'_>) -> Result<Item, Stop<BadPiece>>
    ensures { Gives result (assignments_after (symbols reader.old)) (symbols reader.new) }
{
    let list = several_assignments(alloc, reader)?;
    Ok(Item::Assignments(list))
}

/// Reads instances.
#[tactic(auto, unfolding(crate::specs::inner::Reading::instances_at))]
fn instances(alloc: Global, reader: &mut Reader<'_>) -> Result<Item, Stop<BadPiece>>
    ensures { Gives result (instances_at (symbols reader.old)) (symbols reader.new) }
{
    let kind = ident(alloc, reader)?;
    let list = several_instances(alloc, reader)?;
    Ok(Item::Instances(Instances { kind, list }))
}

/// Reads a statement without its semicolon.
#[tactic(auto, unfolding(crate::specs::inner::Reading::statement_at))]
fn statement(alloc: Global, reader: &mut Reader<'_>) -> Result<Item, Stop<BadPiece>>
    ensures { Gives result (statement_at (symbols reader.old)) (symbols reader.new) }
{
    if let Some(direction) = direction(reader) {
        body_ports(alloc, reader, direction)
    } else if takes(reader, Mark::Wire) {
        body_wires(alloc, reader)
    } else if takes(reader, Mark::Assign) {
        assignments(alloc, reader)
    } else {
        instances(alloc, reader)
    }
}

/// Reads the piece of one statement.
#[tactic(auto, unfolding(crate::specs::inner::Reading::item_at))]
pub fn item(alloc: Global, reader: &mut Reader<'_>) -> Result<Item, Stop<BadPiece>>
    ensures { Gives result (item_at (symbols reader.old)) (symbols reader.new) }
{
    let item = statement(alloc, reader)?;
    expect(reader, Mark::Semicolon)?;
    Ok(item)
}

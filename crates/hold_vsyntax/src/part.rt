ghost use Rattle.hold_vsyntax.specs.inner.Gives.{Gives};
ghost use Rattle.hold_vsyntax.specs.inner.Reading.{index_after, selected_at, part_at, right_at, assignment_at};
ghost use Rattle.hold_vsyntax.specs.Symbols.{symbols};

use crate::fault::BadPiece;
use crate::mark::Mark;
use crate::range::right_bound;
use crate::reader::Reader;
use crate::steps::{constant, expect, ident, number, takes};
use crate::tree::{Assignment, Part, Right, Selected};
use hold_base::Stop;
use std::alloc::Global;

/// Reads an index or a range whose opening bracket is read.
#[tactic(auto, unfolding(crate::specs::inner::Reading::index_after))]
fn index(alloc: Global, reader: &mut Reader<'_>) -> Result<Selected, Stop<BadPiece>>
    ensures { Gives result (index_after (symbols reader.old)) (symbols reader.new) }
{
    let left = number(alloc, reader)?;
    if takes(reader, Mark::RightBracket) {
        return Ok(Selected::Bit(left));
    }
    expect(reader, Mark::Colon)?;
    let range = right_bound(alloc, reader, left)?;
    Ok(Selected::Part(range))
}

/// Reads what is selected of a net whose name is read.
#[tactic(auto, unfolding(crate::specs::inner::Reading::selected_at))]
fn selected(alloc: Global, reader: &mut Reader<'_>) -> Result<Selected, Stop<BadPiece>>
    ensures { Gives result (selected_at (symbols reader.old)) (symbols reader.new) }
{
    if takes(reader, Mark::LeftBracket) {
        index(alloc, reader)
    } else {
        Ok(Selected::Whole)
    }
}

/// Reads a net, or a part of it.
#[tactic(auto, unfolding(crate::specs::inner::Reading::part_at))]
fn part(alloc: Global, reader: &mut Reader<'_>) -> Result<Part, Stop<BadPiece>>
    ensures { Gives result (part_at (symbols reader.old)) (symbols reader.new) }
{
    let net = ident(alloc, reader)?;
    let selected = selected(alloc, reader)?;
    Ok(Part { net, selected })
}

/// Reads the right side of an assignment.
#[tactic(auto, unfolding(crate::specs::inner::Reading::right_at))]
fn right(alloc: Global, reader: &mut Reader<'_>) -> Result<Right, Stop<BadPiece>>
    ensures { Gives result (right_at (symbols reader.old)) (symbols reader.new) }
{
    if let Some(value) = constant(reader) {
        return Ok(Right::Constant(value));
    }
    let part = part(alloc, reader)?;
    Ok(Right::Net(part))
}

/// Reads one assignment.
#[tactic(auto, unfolding(crate::specs::inner::Reading::assignment_at))]
pub fn assignment(alloc: Global, reader: &mut Reader<'_>) -> Result<Assignment, Stop<BadPiece>>
    ensures { Gives result (assignment_at (symbols reader.old)) (symbols reader.new) }
{
    let left = part(alloc, reader)?;
    expect(reader, Mark::Equals)?;
    let right = right(alloc, reader)?;
    Ok(Assignment { left, right })
}

ghost use Rattle.hold_vsyntax.specs.inner.Gives.{Gives};
ghost use Rattle.hold_vsyntax.specs.inner.Reading.{assignment_at, more_of, several_at};
ghost use Rattle.hold_vsyntax.specs.Symbols.{symbols};

use crate::fault::BadPiece;
use crate::mark::Mark;
use crate::part::assignment;
use crate::reader::Reader;
use crate::steps::takes;
use crate::tree::{Assignment, Several};
use hold_base::{List, Stop};
use std::alloc::Global;

/// Reads the assignments that follow a first one, each after a comma.
fn more_assignments(
    alloc: Global,
    reader: &mut Reader<'_>,
) -> Result<List<Assignment>, Stop<BadPiece>>
    ensures { Gives result (more_of assignment_at (symbols reader.old)) (symbols reader.new) }
{
    let mut list = Vec::new(alloc);
    while takes(reader, Mark::Comma) {
        let assigned = assignment(alloc, reader)?;
        list.push(assigned)?;
    }
    Ok(List::from_vec(list))
}

/// Reads one assignment or more, with commas between them.
pub fn several_assignments(
    alloc: Global,
    reader: &mut Reader<'_>,
) -> Result<Several<Assignment>, Stop<BadPiece>>
    ensures { Gives result (several_at assignment_at (symbols reader.old)) (symbols reader.new) }
{
    let first = assignment(alloc, reader)?;
    let rest = more_assignments(alloc, reader)?;
    Ok(Several { first, rest })
}

ghost use Rattle.hold_vsyntax.specs.inner.Gives.{Gives};
ghost use Rattle.hold_vsyntax.specs.inner.Reading.{right_bound_at, bounds_after, range_at};
ghost use Rattle.hold_vsyntax.specs.Symbols.{symbols};

use crate::fault::BadPiece;
use crate::mark::Mark;
use crate::number::Number;
use crate::reader::Reader;
use crate::steps::{expect, number, takes};
use crate::tree::Range;
use hold_base::Stop;
use std::alloc::Global;

/// Reads the right bound of a range whose colon is read, and the bracket that closes it.
pub fn right_bound(
    alloc: Global,
    reader: &mut Reader<'_>,
    left: Number,
) -> Result<Range, Stop<BadPiece>>
    ensures { Gives result (right_bound_at left (symbols reader.old)) (symbols reader.new) }
{
    let right = number(alloc, reader)?;
    expect(reader, Mark::RightBracket)?;
    Ok(Range { left, right })
}

/// Reads a range whose opening bracket is read.
#[tactic(auto, unfolding(crate::specs::inner::Reading::bounds_after))]
pub fn bounds(alloc: Global, reader: &mut Reader<'_>) -> Result<Range, Stop<BadPiece>>
    ensures { Gives result (bounds_after (symbols reader.old)) (symbols reader.new) }
{
    let left = number(alloc, reader)?;
    expect(reader, Mark::Colon)?;
    right_bound(alloc, reader, left)
}

/// Reads a range, where one is in sight.
#[tactic(auto, unfolding(crate::specs::inner::Reading::range_at))]
pub fn range(alloc: Global, reader: &mut Reader<'_>) -> Result<Option<Range>, Stop<BadPiece>>
    ensures { Gives result (range_at (symbols reader.old)) (symbols reader.new) }
{
    if !takes(reader, Mark::LeftBracket) {
        return Ok(None);
    }
    let range = bounds(alloc, reader)?;
    Ok(Some(range))
}

ghost use Rattle.hold_vsyntax.specs.inner.Gives.{Gives};
ghost use Rattle.hold_vsyntax.specs.inner.Reading.{ident_at, idents_at, more_of, several_at, with_front};
ghost use Rattle.hold_vsyntax.specs.Symbols.{symbols};

use crate::fault::BadPiece;
use crate::mark::Mark;
use crate::reader::Reader;
use crate::steps::{ident, takes};
use crate::tree::{Ident, Several};
use hold_base::{List, Stop};
use std::alloc::Global;

/// Adds to the list the identifiers that follow, each after a comma.
fn more_idents(
    alloc: Global,
    reader: &mut Reader<'_>,
    mut list: Vec<Ident>,
) -> Result<List<Ident>, Stop<BadPiece>>
    ensures { Gives result (with_front list.items (more_of ident_at (symbols reader.old))) (symbols reader.new) }
{
    while takes(reader, Mark::Comma) {
        let one = ident(alloc, reader)?;
        list.push(one)?;
    }
    Ok(List::from_vec(list))
}

/// Reads one identifier or more into a list, with commas between them.
#[tactic(auto, unfolding(crate::specs::inner::Reading::idents_at))]
pub fn idents(alloc: Global, reader: &mut Reader<'_>) -> Result<List<Ident>, Stop<BadPiece>>
    ensures { Gives result (idents_at (symbols reader.old)) (symbols reader.new) }
{
    let first = ident(alloc, reader)?;
    let mut list = Vec::new(alloc);
    list.push(first)?;
    more_idents(alloc, reader, list)
}

/// Reads one identifier or more, with commas between them.
#[tactic(auto, using(crate::proofs::ReadingLemmas::with_front_nothing))]
pub fn several_idents(
    alloc: Global,
    reader: &mut Reader<'_>,
) -> Result<Several<Ident>, Stop<BadPiece>>
    ensures { Gives result (several_at ident_at (symbols reader.old)) (symbols reader.new) }
{
    let first = ident(alloc, reader)?;
    let rest = more_idents(alloc, reader, Vec::new(alloc))?;
    Ok(Several { first, rest })
}

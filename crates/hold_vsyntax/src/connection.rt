ghost use Rattle.hold_vsyntax.specs.inner.Gives.{Gives};
ghost use Rattle.hold_vsyntax.specs.inner.Reading.{bit_after, tied_net_at, tied_at, connection_at};
ghost use Rattle.hold_vsyntax.specs.Symbols.{symbols};

use crate::fault::BadPiece;
use crate::mark::Mark;
use crate::reader::Reader;
use crate::steps::{constant, expect, ident, number, sees, takes};
use crate::tree::{Connection, Ident, Tied};
use hold_base::Stop;
use std::alloc::Global;

/// Reads the index of a bit whose name and opening bracket are read.
#[tactic(auto, unfolding(crate::specs::inner::Reading::bit_after))]
fn bit(alloc: Global, reader: &mut Reader<'_>, name: Ident) -> Result<Tied, Stop<BadPiece>>
    ensures { Gives result (bit_after name (symbols reader.old)) (symbols reader.new) }
{
    let index = number(alloc, reader)?;
    expect(reader, Mark::RightBracket)?;
    Ok(Tied::Bit(name, index))
}

/// Reads a net or a bit of one.
#[tactic(auto, unfolding(crate::specs::inner::Reading::tied_net_at))]
fn tied_net(alloc: Global, reader: &mut Reader<'_>) -> Result<Tied, Stop<BadPiece>>
    ensures { Gives result (tied_net_at (symbols reader.old)) (symbols reader.new) }
{
    let name = ident(alloc, reader)?;
    if takes(reader, Mark::LeftBracket) {
        bit(alloc, reader, name)
    } else {
        Ok(Tied::Net(name))
    }
}

/// Reads what a pin is tied to, between its parentheses.
#[tactic(auto, unfolding(crate::specs::inner::Reading::tied_at))]
fn tied(alloc: Global, reader: &mut Reader<'_>) -> Result<Tied, Stop<BadPiece>>
    ensures { Gives result (tied_at (symbols reader.old)) (symbols reader.new) }
{
    if sees(reader, Mark::RightParenthesis) {
        Ok(Tied::Open)
    } else if let Some(value) = constant(reader) {
        Ok(Tied::Constant(value))
    } else {
        tied_net(alloc, reader)
    }
}

/// Reads one connection.
#[tactic(auto, unfolding(crate::specs::inner::Reading::connection_at))]
pub fn connection(alloc: Global, reader: &mut Reader<'_>) -> Result<Connection, Stop<BadPiece>>
    ensures { Gives result (connection_at (symbols reader.old)) (symbols reader.new) }
{
    expect(reader, Mark::Dot)?;
    let pin = ident(alloc, reader)?;
    expect(reader, Mark::LeftParenthesis)?;
    let tied = tied(alloc, reader)?;
    expect(reader, Mark::RightParenthesis)?;
    Ok(Connection { pin, tied })
}

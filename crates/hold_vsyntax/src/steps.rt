ghost use Rattle.std.specs.Prelude.{◌≡◌};
ghost use Rattle.hold_vsyntax.specs.inner.Gives.{Gives, GivesRest, GivesOption};
ghost use Rattle.hold_vsyntax.specs.inner.Reading.{begins, behind, after, ident_at, number_at, constant_at, direction_at};
ghost use Rattle.hold_vsyntax.specs.Symbols.{symbols};

use crate::fault::BadPiece;
use crate::mark::Mark;
use crate::number::Number;
use crate::reader::Reader;
use crate::symbol::Symbol;
use crate::tree::Ident;
use hold_base::{Name, Stop};
use hold_netlist::Direction;
use std::alloc::Global;

/// Whether the mark is in sight.
#[tactic(auto, using(crate::proofs::TokenLemmas::symbols_seen, crate::proofs::TokenLemmas::symbols_end))]
pub fn sees(reader: &Reader<'_>, mark: Mark) -> bool
    ensures { result ≡ begins mark (symbols reader.now) }
{
    match reader.peek() {
        Some(Symbol::Mark(found)) => mark.is(found),
        _ => false,
    }
}

/// Whether the mark is in sight; where it is, it is read.
pub fn takes(reader: &mut Reader<'_>, mark: Mark) -> bool
    ensures takes { result ≡ begins mark (symbols reader.old) }
    ensures rest { symbols reader.new ≡ behind mark (symbols reader.old) }
{
    let is_there = sees(reader, mark);
    if is_there {
        let _mark = reader.pop();
    }
    is_there
}

/// Reads the mark.
pub fn expect(reader: &mut Reader<'_>, mark: Mark) -> Result<(), Stop<BadPiece>>
    ensures { GivesRest result (after mark (symbols reader.old)) (symbols reader.new) }
{
    if takes(reader, mark) {
        Ok(())
    } else {
        Err(Stop::Fault(BadPiece))
    }
}

/// Reads an identifier.
#[tactic(auto, using(crate::proofs::TokenLemmas::symbols_popped, crate::proofs::TokenLemmas::symbols_seen, crate::proofs::TokenLemmas::symbols_end))]
pub fn ident(alloc: Global, reader: &mut Reader<'_>) -> Result<Ident, Stop<BadPiece>>
    ensures { Gives result (ident_at (symbols reader.old)) (symbols reader.new) }
{
    match reader.peek() {
        Some(Symbol::Name(name, at)) => {
            let name = Name::from_bytes(alloc, name)?;
            let _token = reader.pop();
            Ok(Ident { name, at })
        }
        _ => Err(Stop::Fault(BadPiece)),
    }
}

/// Reads a number.
#[tactic(auto, using(crate::proofs::TokenLemmas::symbols_popped, crate::proofs::TokenLemmas::symbols_seen, crate::proofs::TokenLemmas::symbols_end))]
pub fn number(alloc: Global, reader: &mut Reader<'_>) -> Result<Number, Stop<BadPiece>>
    ensures { Gives result (number_at (symbols reader.old)) (symbols reader.new) }
{
    match reader.peek() {
        Some(Symbol::Number(digits)) => {
            let number = Number::from_digits(alloc, digits)?;
            let _token = reader.pop();
            Ok(number)
        }
        _ => Err(Stop::Fault(BadPiece)),
    }
}

/// Reads a constant, where one is in sight.
#[tactic(auto, using(crate::proofs::TokenLemmas::symbols_popped, crate::proofs::TokenLemmas::symbols_seen, crate::proofs::TokenLemmas::symbols_end))]
pub fn constant(reader: &mut Reader<'_>) -> Option<bool>
    ensures { GivesOption result (constant_at (symbols reader.old)) (symbols reader.old) (symbols reader.new) }
{
    match reader.peek() {
        Some(Symbol::Constant(value)) => {
            let _token = reader.pop();
            Some(value)
        }
        _ => None,
    }
}

/// Reads a direction, where one is in sight.
pub fn direction(reader: &mut Reader<'_>) -> Option<Direction>
    ensures { GivesOption result (direction_at (symbols reader.old)) (symbols reader.old) (symbols reader.new) }
{
    if takes(reader, Mark::Input) {
        Some(Direction::Input)
    } else if takes(reader, Mark::Output) {
        Some(Direction::Output)
    } else {
        None
    }
}

ghost use Rattle.std.specs.Prelude.{◌≡◌, ℕ, IfOk, true};
ghost use Rattle.hold_base.specs.Answers.{IfFault};
ghost use Rattle.hold_vsyntax.specs.inner.Reading.{begins};
ghost use Rattle.hold_vsyntax.specs.Symbols.{symbols};
ghost use Rattle.hold_vsyntax.specs.declared.mark.Mark.TheVariants.{EndModule};
ghost use Rattle.hold_vsyntax.specs.inner.Body.{IsStep, IsBody, IsBodyFault};
ghost use Rattle.hold_vsyntax.specs.Pieces.{pieces};

use crate::fault::SyntaxFault;
use crate::item::item;
use crate::mark::Mark;
use crate::passing::{blame, pass_piece};
use crate::reader::Reader;
use crate::steps::sees;
use crate::tree::Item;
use hold_base::{List, Stop};
use std::alloc::Global;

/// Reads the end of the module, which is in sight, and tests that nothing follows.
fn ended(alloc: Global, reader: &mut Reader<'_>) -> Result<Option<Item>, Stop<SyntaxFault>>
    requires { begins EndModule (symbols reader.old) ≡ true }
    ensures { (end : ℕ) → IsStep reader.old result reader.new end }
{
    let _end = reader.pop();
    if reader.peek().is_some() {
        Err(blame(alloc, reader))
    } else {
        Ok(None)
    }
}

/// Reads the next statement; none at the end of the module. `end` is the place where the text ends.
fn step(alloc: Global, reader: &mut Reader<'_>, end: u64) -> Result<Option<Item>, Stop<SyntaxFault>>
    ensures { IsStep reader.old result reader.new end }
{
    if sees(reader, Mark::EndModule) {
        return ended(alloc, reader);
    }
    if reader.peek().is_none() {
        return Err(Stop::Fault(SyntaxFault::Syntax(end)));
    }
    let mut ahead = reader.fork();
    match item(alloc, &mut ahead) {
        Ok(item) => {
            pass_piece(reader);
            Ok(Some(item))
        }
        Err(Stop::Memory) => Err(Stop::Memory),
        Err(Stop::Fault(_)) => Err(blame(alloc, reader)),
    }
}

/// Reads the statements up to the end of the module, behind which nothing is left.
pub fn body(
    alloc: Global,
    reader: &mut Reader<'_>,
    end: u64,
) -> Result<List<Item>, Stop<SyntaxFault>>
    ensures read { IfOk result (IsBody (pieces reader.old)) }
    ensures refused { IfFault result (IsBodyFault (pieces reader.old) end) }
{
    let mut list = Vec::new(alloc);
    while let Some(item) = step(alloc, reader, end)? {
        list.push(item)?;
    }
    Ok(List::from_vec(list))
}

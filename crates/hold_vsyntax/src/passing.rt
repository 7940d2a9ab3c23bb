ghost use Rattle.std.specs.Prelude.{◌≡◌};
ghost use Rattle.hold_vsyntax.specs.inner.Passing.{first_within, rest_within, first_piece, rest_behind, found_lexeme};
ghost use Rattle.hold_vsyntax.specs.Text.{first_left_out, without_opening, blame_at};
ghost use Rattle.hold_vsyntax.specs.inner.Body.{Blames, blamed, blamed_at_front};
ghost use Rattle.hold_vsyntax.specs.inner.Tokens.{in_sight, is_whole_in_sight, ends_in_sight, is_module_in_sight};

use crate::fault::SyntaxFault;
use crate::left_out::is_left_out;
use crate::mark::Mark;
use crate::reader::Reader;
use crate::symbol::Symbol;
use hold_base::{Name, Stop};
use hold_vlex::Token;
use std::alloc::Global;

/// Whether the token in sight ends the piece that it stands in.
fn ends(reader: &Reader<'_>) -> bool
    ensures { result ≡ ends_in_sight (in_sight reader.now) }
{
    matches!(reader.peek(), Some(Symbol::Mark(Mark::Semicolon)))
}

/// Whether the token in sight, where it begins a piece, is that whole piece.
fn is_whole(reader: &Reader<'_>) -> bool
    ensures { result ≡ is_whole_in_sight (in_sight reader.now) }
{
    matches!(
        reader.peek(),
        Some(Symbol::Mark(Mark::Semicolon | Mark::EndModule))
    )
}

/// Passes the rest of the piece of which some token is read.
fn pass_within(reader: &mut Reader<'_>)
    ensures { reader.new ≡ rest_within reader.old }
{
    loop {
        let at_end = ends(reader);
        if reader.pop().is_none() || at_end {
            return;
        }
    }
}

/// Passes the first piece.
pub fn pass_piece(reader: &mut Reader<'_>)
    ensures { reader.new ≡ rest_behind reader.old }
{
    let whole = is_whole(reader);
    if reader.pop().is_some() && !whole {
        pass_within(reader);
    }
}

/// The first token that the profile leaves out, in the rest of the piece of which some token is read.
fn left_out_within<'a>(reader: &mut Reader<'a>) -> Option<Token<'a>>
    ensures { found_lexeme result ≡ first_left_out (first_within reader.old) }
{
    loop {
        let at_end = ends(reader);
        let Some(token) = reader.pop() else {
            return None;
        };
        if is_left_out(token) {
            return Some(token);
        }
        if at_end {
            return None;
        }
    }
}

/// The first token of the first piece that the profile leaves out.
fn left_out<'a>(reader: &mut Reader<'a>) -> Option<Token<'a>>
    ensures { found_lexeme result ≡ first_left_out (first_piece reader.old) }
{
    let whole = is_whole(reader);
    let Some(token) = reader.pop() else {
        return None;
    };
    if is_left_out(token) {
        Some(token)
    } else if whole {
        None
    } else {
        left_out_within(reader)
    }
}

/// What the first piece is refused for, where the word `module` may not open it.
pub fn blame(alloc: Global, reader: &mut Reader<'_>) -> Stop<SyntaxFault>
    ensures { Blames result (blamed reader.old) }
{
    let at = reader.place();
    let found = left_out(reader);
    fault_at(alloc, at, found)
}

/// What the first piece is refused for, where the word `module` may open it.
pub fn blame_at_front(alloc: Global, reader: &mut Reader<'_>) -> Stop<SyntaxFault>
    ensures { Blames result (blamed_at_front reader.old) }
{
    let at = reader.place();
    let found = left_out_at_front(reader);
    fault_at(alloc, at, found)
}

/// The first token of the first piece that the profile leaves out; the word `module` may open it.
fn left_out_at_front<'a>(reader: &mut Reader<'a>) -> Option<Token<'a>>
    ensures { found_lexeme result ≡ first_left_out (without_opening (first_piece reader.old)) }
{
    if opens_module(reader) {
        let _module = reader.pop();
        left_out_within(reader)
    } else {
        left_out(reader)
    }
}

/// Whether the word `module` is in sight.
fn opens_module(reader: &Reader<'_>) -> bool
    ensures { result ≡ is_module_in_sight (in_sight reader.now) }
{
    matches!(reader.peek(), Some(Symbol::Mark(Mark::Module)))
}

/// The fault of a piece that begins at that place and can't stand there.
fn fault_at(alloc: Global, at: u64, left_out: Option<Token<'_>>) -> Stop<SyntaxFault>
    ensures { Blames result (blame_at at (found_lexeme left_out.entry)) }
{
    let Some(token) = left_out else {
        return Stop::Fault(SyntaxFault::Syntax(at));
    };
    match Name::from_bytes(alloc, token.text) {
        Ok(word) => Stop::Fault(SyntaxFault::LeftOut(word, token.at)),
        Err(_) => Stop::Memory,
    }
}

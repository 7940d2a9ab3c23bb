ghost use Rattle.std.specs.Prelude.{◌≡◌, ℕ, ◌^◌, ◌<◌, length, option_map, IfOk, IsErrOf, Ok, Err};
ghost use Rattle.hold_sdflex.specs.Groups.{
  paired_pieces,
  after_group,
  stray,
  group_of,
  AreOneGroup,
  AreInOrder,
};

use crate::cut::pieces_of_text;
use crate::pair::pair;
use crate::piece::{Form, Piece};
use hold_base::{Memory, Stop};
use std::alloc::Global;
use std::marker::Model;
use thiserror::Error;

/// Why a text is refused: it isn't one whole group and nothing else.
#[derive(Clone, Copy, Debug, PartialEq, Eq, Error)]
pub enum GroupFault {
    /// The place in bytes: the text's length where a string, a block comment, a backslash or a group has no
    /// end or nothing stands in the text; else of the first piece that isn't in the first group.
    #[error("the text isn't one whole group")]
    At(u64),
}

/// The pieces of a text that is one group, in the order of the text.
#[derive(Clone, Debug, Drop)]
pub struct Groups {
    pieces: Vec<Piece>,
}

impl Model for Groups {
    ghost use Rattle.std.specs.Prelude.{List};
    ghost use Rattle.hold_sdflex.specs.declared.piece.Piece.{Piece as PieceValue};
    ghost use Rattle.hold_sdflex.specs.Groups.{AreOneGroup};

    ghost Value = { List PieceValue };

    ghost view = { λ g. g.pieces.items };

    ghost invariant = { λ g. AreOneGroup g.pieces.items };
}

impl Groups {
    /// Lends the pieces.
    pub fn tokens(&self) -> &[Piece]
        ensures value { result.now ≡ self.now }
        ensures one_group { AreOneGroup self.now }
    {
        self.pieces.as_slice()
    }
}

/// The pieces of a text that is one group of the Standard Delay Format and nothing else. `group_of` tells of
/// each text either its pieces or the place of its fault, so both clauses hold the other way round too, unless
/// memory runs out.
#[tactic(auto, using(crate::proofs::OneGroup::in_order_of))]
pub fn read_groups(alloc: Global, text: &[u8]) -> Result<Groups, Stop<GroupFault>>
    requires { length text.now < 2 ^ 32 }
    ensures found { IfOk result (λ groups. group_of text.now ≡ Ok groups) }
    ensures fault { (at : ℕ) → IsErrOf result (Stop.Fault (GroupFault.At at)) → group_of text.now ≡ Err at }
    ensures in_order { IfOk result (λ groups. AreInOrder groups (length text.now)) }
{
    let pieces = group_pieces(alloc, text)?;
    Ok(Groups { pieces })
}

fn group_pieces(alloc: Global, text: &[u8]) -> Result<Vec<Piece>, Stop<GroupFault>>
    requires { length text.now < 2 ^ 32 }
    ensures found { IfOk result (λ pieces. group_of text.now ≡ Ok pieces.items) }
    ensures fault { (at : ℕ) → IsErrOf result (Stop.Fault (GroupFault.At at)) → group_of text.now ≡ Err at }
{
    let no_end = Stop::Fault(GroupFault::At(text.len() as u64));
    let Some(pieces) = paired_pieces(alloc, text)? else {
        return Err(no_end);
    };
    if pieces.is_empty() {
        return Err(no_end);
    }
    match stray(&pieces) {
        Some(at) => Err(Stop::Fault(GroupFault::At(at))),
        None => Ok(pieces),
    }
}

fn paired_pieces(alloc: Global, text: &[u8]) -> Result<Option<Vec<Piece>>, Memory>
    requires { length text.now < 2 ^ 32 }
    ensures { IfOk result (λ found. option_map (λ v. v.items) found ≡ paired_pieces text.now) }
{
    let Some(mut pieces) = pieces_of_text(alloc, text)? else {
        return Ok(None);
    };
    let all = pair(alloc, &mut pieces)?;
    Ok(if all { Some(pieces) } else { None })
}

// The place in the text of the first piece that stands beside the first group.
fn stray(pieces: &[Piece]) -> Option<u64>
    ensures { result ≡ stray pieces.now }
{
    let [first, ..] = pieces else {
        return None;
    };
    let stray = pieces.get(after_group(first.form))?;
    Some(u64::from(stray.from))
}

// The place right after the group that begins the list with a piece of this form.
fn after_group(form: Form) -> usize
    ensures { result ≡ after_group form }
{
    match form {
        Form::Open { close } => close as usize + 1,
        Form::Close | Form::Colon | Form::Text | Form::Atom => 0,
    }
}

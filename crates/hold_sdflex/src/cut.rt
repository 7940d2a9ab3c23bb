ghost use Rattle.std.specs.Prelude.{◌≡◌, ◌+◌, ◌^◌, ◌<◌, ◌++◌, length, option_map, OnOk, IfOk};
ghost use Rattle.hold_sdflex.specs.Pieces.{pieces_of, pieces_of_text};
ghost use Rattle.hold_sdflex.specs.inner.Waiting.{shown_front, shown};

use crate::front::{Front, front_of};
use crate::piece::Piece;
use hold_base::Memory;
use std::alloc::Global;

/// The pieces of a text, before groups are paired. None where a string, a block comment or a backslash has
/// no end.
pub(crate) fn pieces_of_text(alloc: Global, text: &[u8]) -> Result<Option<Vec<Piece>>, Memory>
    requires { length text.now < 2 ^ 32 }
    ensures { IfOk result (λ found. option_map (λ v. shown v.items) found ≡ pieces_of_text text.now) }
{
    let mut pieces = Vec::new(alloc);
    let mut at = 0;
    while at < text.len() {
        let Some(front) = front_of(&text[at..]) else {
            return Ok(None);
        };
        push_front(&mut pieces, front, at)?;
        at += front.len;
    }
    Ok(Some(pieces))
}

fn push_front(pieces: &mut Vec<Piece>, front: Front, at: usize) -> Result<(), Memory>
    requires { at + front.len < 2 ^ 32 }
    ensures { OnOk result (shown pieces.new.items ≡ shown pieces.old.items ++ pieces_of (shown_front front).mark at (at + front.len)) }
{
    if let Some(form) = front.form {
        pieces.push(Piece {
            form,
            from: at as u32,
            to: (at + front.len) as u32,
        })?;
    }
    Ok(())
}

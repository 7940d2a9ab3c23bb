ghost use Rattle.std.specs.Prelude.{
  ◌≡◌,
  ◌+◌,
  ◌^◌,
  ◌<◌,
  List,
  ◌∷◌,
  length,
  Some,
  None,
  IfOk,
  IfSome,
  if◌then◌else◌,
};
ghost use Rattle.hold_sdflex.specs.Front.{Mark};
ghost use Rattle.hold_sdflex.specs.Nesting.{form_of, mark_in, paired};
ghost use Rattle.hold_sdflex.specs.inner.Waiting.{shown, AreWaiting};

use crate::piece::{Form, Piece};
use hold_base::Memory;
use std::alloc::Global;

/// Gives each opening parenthesis the place of its closing one, and answers whether each has one. If not, the
/// pieces are of no use.
pub(crate) fn pair(alloc: Global, pieces: &mut [Piece]) -> Result<bool, Memory>
    requires { length pieces.old < 2 ^ 32 }
    ensures { IfOk result (λ all. paired (shown pieces.old) 0 ≡ (if all then Some pieces.new else None)) }
{
    let mut closings = Vec::new(alloc);
    for place in (0..pieces.len()).rev() {
        let Some(form) = paired_form(pieces[place].form, place as u32, &mut closings)? else {
            return Ok(false);
        };
        pieces[place].form = form;
    }
    Ok(true)
}

// The paired form of the piece at a place, and then the closings that wait from this place on.
fn paired_form(form: Form, place: u32, closings: &mut Vec<u32>) -> Result<Option<Form>, Memory>
    ensures form { (after : List Mark) → AreWaiting closings.old.items after (place + 1)
        → IfOk result (λ found. found ≡ form_of (mark_in form) place after) }
    ensures waiting { (after : List Mark) → AreWaiting closings.old.items after (place + 1)
        → IfOk result (λ found. IfSome found (λ _. AreWaiting closings.new.items (mark_in form ∷ after) place)) }
{
    match form {
        Form::Open { .. } => Ok(closings.pop().map(|close| Form::Open { close })),
        Form::Close => {
            closings.push(place)?;
            Ok(Some(form))
        }
        Form::Colon | Form::Text | Form::Atom => Ok(Some(form)),
    }
}

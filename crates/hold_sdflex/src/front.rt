ghost use Rattle.std.specs.Prelude.{◌≡◌, ℕ, ◌<◌, ◌≤◌, ◌==◌, List, ◌∷◌, length, position, false, None, Some, option_map, IfSome};
ghost use Rattle.hold_text.specs.Blanks.{is_blank};
ghost use Rattle.hold_sdflex.specs.Front.{atom, ends_atom, atom_length, mark_of, piece_length, front_of};
ghost use Rattle.hold_sdflex.specs.inner.Waiting.{shown_front, atom_left};

use crate::piece::Form;
use hold_text::{comment_end, is_blank, line_len, stands_at};

/// What stands at the front of a text: a piece of this form, or white space or a comment, and its length in
/// bytes. An opening parenthesis has 0 for its `close` until the groups are paired.
#[derive(Clone, Copy)]
pub(crate) struct Front {
    pub(crate) form: Option<Form>,
    pub(crate) len: usize,
}

/// The front of a text. None where it has no end, or where nothing stands in the text.
pub(crate) fn front_of(text: &[u8]) -> Option<Front>
    ensures value { (b : ℕ) (rest : List ℕ) → text.now ≡ b ∷ rest → option_map shown_front result ≡ front_of b rest }
    ensures not_empty { IfSome result (λ front. 0 < front.len) }
    ensures within { IfSome result (λ front. front.len ≤ length text.now) }
{
    match text {
        [] => None,
        [first, rest @ ..] => front_at(text, *first, rest),
    }
}

fn front_at(text: &[u8], first: u8, rest: &[u8]) -> Option<Front>
    requires { text.now ≡ first ∷ rest.now }
    ensures { option_map shown_front result ≡ front_of first rest.now }
{
    if is_blank(first) {
        Some(gap(1))
    } else if first == b'/' && stands_at(rest, 0, b'/') {
        Some(gap(1 + line_len(rest)))
    } else if first == b'/' && stands_at(rest, 0, b'*') {
        Some(gap(comment_end(text)?))
    } else {
        piece_at(first, rest)
    }
}

fn piece_at(first: u8, rest: &[u8]) -> Option<Front>
    requires { is_blank first ≡ false }
    ensures { option_map shown_front result
        ≡ option_map (λ n. record { mark = Some (mark_of first); len = n }) (piece_length (mark_of first) (first ∷ rest.now)) }
{
    match first {
        b'(' => Some(piece(Form::Open { close: 0 }, 1)),
        b')' => Some(piece(Form::Close, 1)),
        b':' => Some(piece(Form::Colon, 1)),
        b'"' => Some(piece(Form::Text, place_of(b'"', rest)? + 2)),
        _ => atom_after(first, rest),
    }
}

#[tactic(auto, using(crate::proofs::Counting::atom_front))]
fn atom_after(first: u8, rest: &[u8]) -> Option<Front>
    requires { ends_atom first ≡ false }
    ensures { option_map shown_front result ≡ option_map (λ n. record { mark = Some atom; len = n }) (atom_length (first ∷ rest.now)) }
{
    let len = atom_left(first == b'\\', rest)?;
    Some(piece(Form::Atom, len + 1))
}

fn gap(len: usize) -> Front
    ensures { result ≡ record { form = None; len = len } }
{
    Front { form: None, len }
}

fn piece(form: Form, len: usize) -> Front
    ensures { result ≡ record { form = Some form; len = len } }
{
    Front {
        form: Some(form),
        len,
    }
}

fn ends_atom(byte: u8) -> bool
    ensures { result ≡ ends_atom byte }
{
    is_blank(byte) || byte == b'(' || byte == b')' || byte == b':' || byte == b'"'
}

fn place_of(wanted: u8, bytes: &[u8]) -> Option<usize>
    ensures value { result ≡ position (λ b. b == wanted) bytes.now }
    ensures within { IfSome result (λ n. n < length bytes.now) }
{
    bytes.iter().position(|byte| *byte == wanted)
}

#[tactic(auto, using(crate::proofs::Counting::atom_steps))]
fn atom_left(first_taken: bool, bytes: &[u8]) -> Option<usize>
    ensures value { result ≡ atom_left first_taken bytes.now }
    ensures within { IfSome result (λ n. n ≤ length bytes.now) }
{
    let mut taken = first_taken;
    for (place, byte) in bytes.iter().enumerate() {
        if taken {
            taken = false;
        } else if ends_atom(*byte) {
            return Some(place);
        } else {
            taken = *byte == b'\\';
        }
    }
    if taken { None } else { Some(bytes.len()) }
}

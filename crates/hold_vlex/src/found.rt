ghost use Rattle.std.specs.Prelude.{◌≡◌, ◌≤◌, ◌∷◌, length, take, slice_get};
ghost use Rattle.std.specs.List.{prefix_len, take_while};
ghost use Rattle.hold_vlex.specs.Bytes.{backquote, is_in_directive};
ghost use Rattle.hold_base.specs.NameBytes.{is_printed};
ghost use Rattle.hold_vlex.specs.Front.{front, closed, whole, number_sort, directive, escaped};
ghost use Rattle.hold_vlex.specs.inner.Front.{IsWithin};
ghost use Rattle.hold_vlex.specs.inner.Found.{shown};

use crate::bytes::{begins_number, begins_word, directive_len, number_len, printed_len, word_len};
use crate::number::number_sort;
use crate::past::attribute_end;
use crate::table::is_line_directive;
use crate::token::Sort;
use hold_base::is_printed;
use hold_text::{comment_end, is_blank, line_len, stands_at};

/// What stands at the front of a text.
#[derive(Clone, Copy, Debug)]
pub enum Found<'a> {
    /// The text is empty.
    Nothing,
    /// So many bytes are no token.
    Past(usize),
    /// A token of that sort and text, which takes so many bytes.
    Read(Sort, &'a [u8], usize),
    /// So many bytes on stands a byte that fits no rule.
    Bad(usize),
    /// A comment or an attribute that has no end.
    NoEnd,
    /// An escaped name that is empty or reaches the end of the text.
    NoName,
}

/// What stands at the front of the text, by the first rule that fits.
#[tactic(auto, using(crate::proofs::FrontLemmas::front_within), unfolding(crate::specs::Front::front))]
pub fn find_front(text: &[u8]) -> Found<'_>
    ensures front { shown result ≡ front text.now }
    ensures within { IsWithin (length text.now) (shown result) }
{
    match text {
        [] => Found::Nothing,
        [first, rest @ ..] => front_at(text, *first, rest),
    }
}

#[tactic(auto, unfolding(crate::specs::Front::front))]
fn front_at<'a>(text: &'a [u8], first: u8, rest: &'a [u8]) -> Found<'a>
    requires { text.now ≡ first ∷ rest.now }
    ensures { shown result ≡ front text.now }
{
    if is_blank(first) {
        Found::Past(1)
    } else if first == b'/' && stands_at(rest, 0, b'/') {
        Found::Past(1 + line_len(rest))
    } else if first == b'/' && stands_at(rest, 0, b'*') {
        closed(comment_end(text))
    } else if first == b'(' && stands_at(rest, 0, b'*') {
        closed(attribute_end(text))
    } else if first == b'`' {
        directive(text, rest)
    } else if first == b'\\' {
        escaped(rest)
    } else if begins_word(first) {
        whole(Sort::Word, text, 1 + word_len(rest))
    } else if begins_number(first) {
        number(text, 1 + number_len(rest))
    } else if is_printed(first) {
        whole(Sort::Sign, text, 1)
    } else {
        Found::Bad(0)
    }
}

fn closed<'a>(end: Option<usize>) -> Found<'a>
    ensures { shown result ≡ closed end }
{
    match end {
        Some(n) => Found::Past(n),
        None => Found::NoEnd,
    }
}

/// A token whose text is all of its n bytes.
fn whole<'a>(sort: Sort, text: &'a [u8], n: usize) -> Found<'a>
    requires { n ≤ length text.now }
    ensures { shown result ≡ whole sort (take n text.now) }
{
    let (token, _) = text.split_at(n);
    Found::Read(sort, token, n)
}

fn number<'a>(text: &'a [u8], n: usize) -> Found<'a>
    requires { n ≤ length text.now }
    ensures { shown result ≡ whole (number_sort (take n text.now)) (take n text.now) }
{
    let (run, _) = text.split_at(n);
    Found::Read(number_sort(run), run, n)
}

/// The directive at the front of the text, of which the rest stands after the backquote.
fn directive<'a>(text: &'a [u8], rest: &'a [u8]) -> Found<'a>
    requires { text.now ≡ backquote ∷ rest.now }
    ensures { shown result ≡ directive (take_while is_in_directive rest.now) rest.now }
{
    let n = directive_len(rest);
    let (run, line) = rest.split_at(n);
    if is_line_directive(run) {
        Found::Past(1 + n + line_len(line))
    } else {
        whole(Sort::Directive, text, 1 + n)
    }
}

/// The escaped name whose bytes follow the backslash.
fn escaped(rest: &[u8]) -> Found<'_>
    ensures { shown result
        ≡ escaped (take_while is_printed rest.now) (slice_get rest.now (prefix_len is_printed rest.now)) }
{
    let n = printed_len(rest);
    let (name, _) = rest.split_at(n);
    match rest.get(n).copied() {
        None => Found::NoName,
        Some(b) if !is_blank(b) => Found::Bad(1 + n),
        Some(_) if n == 0 => Found::NoName,
        Some(_) => Found::Read(Sort::Escaped, name, 1 + n),
    }
}

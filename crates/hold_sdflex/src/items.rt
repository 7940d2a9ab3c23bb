ghost use Rattle.std.specs.Prelude.{◌≡◌, ◌+◌, ◌-◌, ◌^◌, ◌<◌, ◌∷◌, length, take, drop, slice_range, option_map, IsSome};
ghost use Rattle.hold_sdflex.specs.Items.{
  token_of,
  tokens_from,
  tokens_of,
  items_in,
  first_item,
  first_atom,
  first_group,
  behind,
};
ghost use Rattle.hold_sdflex.specs.ItemsRead.{word_read, group_read, item_read};
ghost use Rattle.hold_sdflex.specs.inner.Steps.{after_item};

use crate::groups::Groups;
use crate::piece::{Form, Piece};
use std::marker::Model;

/// An atom of a text: the place in bytes where it begins, and its bytes, backslashes among them.
#[derive(Clone, Copy)]
pub struct Atom<'a> {
    pub at: u64,
    pub bytes: &'a [u8],
}

/// A group: the place in bytes of its opening parenthesis, and what stands directly within it.
#[derive(Drop)]
pub struct Group<'a> {
    pub at: u64,
    pub inner: Items<'a>,
}

/// What stands directly within a group.
#[derive(Drop)]
pub enum Item<'a> {
    Atom(Atom<'a>),
    /// A string.
    Text,
    Colon,
    Group(Group<'a>),
}

/// Reads what stands directly within a group, one item a call; a group within is one item, whatever its length.
/// A contract sees the tokens from the next item on.
#[derive(Drop)]
pub struct Items<'a> {
    text: &'a [u8],
    pieces: &'a [Piece],
    place: usize,
}

impl<'a> Model for Items<'a> {
    ghost use Rattle.std.specs.Prelude.{List, drop};
    ghost use Rattle.hold_sdflex.specs.Items.{Token, tokens_from};

    ghost Value = { List Token };

    ghost view = { λ s. tokens_from s.text.now s.place (drop s.place s.pieces.now) };
}

impl<'a> Items<'a> {
    /// The items of the pieces of that text: its one group.
    pub fn of(groups: &'a Groups, text: &'a [u8]) -> Items<'a>
        ensures { result ≡ tokens_of text.now groups.now }
    {
        Items {
            text,
            pieces: groups.tokens(),
            place: 0,
        }
    }

    /// A reader of the same items. Takes no memory.
    pub fn fork(&self) -> Items<'a>
        ensures { result ≡ self.now }
    {
        Items {
            text: self.text,
            pieces: self.pieces,
            place: self.place,
        }
    }

    /// The next item, which is then read; None at the end of the group.
    pub fn next(&mut self) -> Option<Item<'a>>
        ensures item { option_map item_read result ≡ first_item (items_in self.old) }
        ensures rest { items_in self.new ≡ behind (items_in self.old) }
        ensures less { IsSome result → length self.new < length self.old }
    {
        let Some(piece) = self.pieces.get(self.place) else {
            return None;
        };
        let Some(item) = item_of(self.text, self.pieces, self.place, *piece) else {
            return None;
        };
        self.place = after_item(piece.form, self.place);
        Some(item)
    }

    /// The next item where it is an atom. Whatever it is, it is then read.
    pub fn next_atom(&mut self) -> Option<Atom<'a>>
        ensures atom { option_map word_read result ≡ first_atom (items_in self.old) }
        ensures rest { items_in self.new ≡ behind (items_in self.old) }
        ensures less { IsSome result → length self.new < length self.old }
    {
        match self.next() {
            Some(Item::Atom(atom)) => Some(atom),
            Some(Item::Text | Item::Colon | Item::Group(_)) | None => None,
        }
    }

    /// The next item where it is a group. Whatever it is, it is then read.
    pub fn next_group(&mut self) -> Option<Group<'a>>
        ensures group { option_map group_read result ≡ first_group (items_in self.old) }
        ensures rest { items_in self.new ≡ behind (items_in self.old) }
        ensures less { IsSome result → length self.new < length self.old }
    {
        match self.next() {
            Some(Item::Group(group)) => Some(group),
            Some(Item::Text | Item::Colon | Item::Atom(_)) | None => None,
        }
    }
}

// The item whose first piece has this place in the list; None at the end of the group.
#[tactic(auto, unfolding(crate::specs::Items::items_in))]
fn item_of<'a>(text: &'a [u8], pieces: &'a [Piece], place: usize, piece: Piece) -> Option<Item<'a>>
    requires { place + 1 < 2 ^ 64 }
    ensures { option_map item_read result
        ≡ first_item (items_in (token_of text.now place piece ∷ tokens_from text.now (place + 1) (drop (place + 1) pieces.now))) }
{
    let at = u64::from(piece.from);
    match piece.form {
        Form::Open { .. } => Some(Item::Group(Group {
            at,
            inner: Items {
                text,
                pieces,
                place: place + 1,
            },
        })),
        Form::Close => None,
        Form::Colon => Some(Item::Colon),
        Form::Text => Some(Item::Text),
        Form::Atom => Some(Item::Atom(Atom {
            at,
            bytes: bytes_of(text, piece),
        })),
    }
}

// The place in the list behind the item that begins at this place with a piece of this form.
fn after_item(form: Form, place: usize) -> usize
    requires { place + 1 < 2 ^ 64 }
    ensures { result ≡ after_item form place }
{
    match form {
        Form::Open { close } => (close as usize).max(place) + 1,
        Form::Close | Form::Colon | Form::Text | Form::Atom => place + 1,
    }
}

// The bytes of a piece. Those that another text doesn't have are left out.
fn bytes_of(text: &[u8], piece: Piece) -> &[u8]
    ensures { result.now ≡ slice_range text.now piece.from piece.to }
{
    let from = piece.from as usize;
    let to = piece.to as usize;
    front(behind(text, from), to.saturating_sub(from))
}

// The first n bytes, or all where there are fewer.
fn front(bytes: &[u8], n: usize) -> &[u8]
    ensures { result.now ≡ take n bytes.now }
{
    if n < bytes.len() {
        bytes.split_at(n).0
    } else {
        bytes
    }
}

// What stands behind the first n bytes.
fn behind(bytes: &[u8], n: usize) -> &[u8]
    ensures { result.now ≡ drop n bytes.now }
{
    if n < bytes.len() {
        bytes.split_at(n).1
    } else {
        &[]
    }
}

//! The nested groups of a text of the Standard Delay Format (a profile of IEEE 1497-2001), as one flat list of pieces
//! in which each opening parenthesis knows the place of its closing one.
#![tactic(auto)]

mod backslash;
mod cut;
mod front;
mod groups;
mod items;
mod pair;
mod piece;
#[cfg(test)]
mod tests;

pub use backslash::{last_bare, plain_name};
pub use groups::{GroupFault, Groups, read_groups};
pub use items::{Atom, Group, Item, Items};
pub use piece::{Form, Piece};

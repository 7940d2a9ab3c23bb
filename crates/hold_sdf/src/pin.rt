ghost use Rattle.std.specs.Prelude.{◌≡◌, option_map};
ghost use Rattle.hold_sdflex.specs.Items.{items_in, first_item, behind};
ghost use Rattle.hold_sdflex.specs.ItemsRead.{word_read, item_read};
ghost use Rattle.hold_sdf.specs.Shapes.{edge_pin, pin_of, spec_of};
ghost use Rattle.hold_sdf.specs.inner.Steps.{spec_in};

use crate::items::{behind_keyword, is_empty, keyword, last_of};
use crate::keyword::{is_cond, is_edge};
use hold_sdflex::{Atom, Item, Items};

// The atom of an edge of a pin: (posedge pin) or (negedge pin).
#[tactic(auto, unfolding(crate::specs::Shapes::edge_pin))]
fn edge_pin<'a>(inner: &Items<'a>) -> Option<Atom<'a>>
    ensures { option_map word_read result ≡ edge_pin (items_in inner.now) }
{
    if !is_edge(keyword(inner)) {
        return None;
    }
    let mut rest = behind_keyword(inner);
    let pin = rest.next_atom();
    if is_empty(&rest) { pin } else { None }
}

/// The atom that names the pin of the next item, which is a pin or an edge of one. Whatever the item is, it is then
/// read.
pub(crate) fn next_pin<'a>(rest: &mut Items<'a>) -> Option<Atom<'a>>
    ensures pin { option_map word_read result ≡ pin_of (first_item (items_in rest.old)) }
    ensures rest { items_in rest.new ≡ behind (items_in rest.old) }
{
    match rest.next() {
        Some(Item::Atom(atom)) => Some(atom),
        Some(Item::Group(group)) => edge_pin(&group.inner),
        Some(Item::Text | Item::Colon) | None => None,
    }
}

/// The atom that names the pin of the next item, which is a pin, an edge of one, or a condition whose last item is
/// such an item again. Whatever the item is, it is then read.
#[tactic(auto, unfolding(crate::specs::Shapes::spec_of), using(crate::proofs::SpecLemmas::spec_of_group))]
pub(crate) fn next_spec<'a>(rest: &mut Items<'a>) -> Option<Atom<'a>>
    ensures pin { option_map word_read result ≡ spec_of (first_item (items_in rest.old)) }
    ensures rest { items_in rest.new ≡ behind (items_in rest.old) }
{
    match rest.next() {
        Some(Item::Atom(atom)) => Some(atom),
        Some(Item::Group(group)) => spec_in(group.inner),
        Some(Item::Text | Item::Colon) | None => None,
    }
}

// The same of a group.
#[tactic(auto, unfolding(crate::specs::Shapes::spec_of), using(crate::proofs::SpecLemmas::spec_of_group))]
fn spec_in<'a>(inner: Items<'a>) -> Option<Atom<'a>>
    ensures { option_map word_read result ≡ spec_in inner.entry }
{
    let mut inner = inner;
    loop {
        if !is_cond(keyword(&inner)) {
            return edge_pin(&inner);
        }
        match last_of(&behind_keyword(&inner)) {
            Some(Item::Atom(atom)) => return Some(atom),
            Some(Item::Group(group)) => inner = group.inner,
            Some(Item::Text | Item::Colon) | None => return None,
        }
    }
}

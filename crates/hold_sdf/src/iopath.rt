ghost use Rattle.std.specs.Prelude.{◌≡◌, option_map, option_copied};
ghost use Rattle.hold_sdflex.specs.Items.{items_in, group_of};
ghost use Rattle.hold_sdflex.specs.ItemsRead.{word_read, item_read};
ghost use Rattle.hold_sdf.specs.Shapes.{path_of, iopath_of, wire_of, retain_in, retain_among};
ghost use Rattle.hold_sdf.specs.inner.Shown.{shown_path};

use crate::items::{behind_keyword, keyword};
use crate::keyword::is_retain;
use crate::pin::next_pin;
use crate::value::are_delays;
use hold_sdflex::{Atom, Item, Items};

/// The pins of an IOPATH or an INTERCONNECT, and its delays.
#[derive(Drop)]
pub(crate) struct IoPath<'a> {
    pub(crate) from: Atom<'a>,
    pub(crate) to: Atom<'a>,
    pub(crate) delays: Items<'a>,
}

/// The path of an IOPATH's items; None where they have another shape.
#[tactic(auto, unfolding(crate::specs::Shapes::iopath_of))]
pub(crate) fn iopath_of<'a>(inner: &Items<'a>) -> Option<IoPath<'a>>
    ensures { option_map shown_path result ≡ iopath_of (items_in inner.now) }
{
    let mut rest = behind_keyword(inner);
    let from = next_pin(&mut rest);
    let to = rest.next_atom();
    path_of(from, to, rest)
}

/// The path of an INTERCONNECT's items; None where they have another shape.
#[tactic(auto, unfolding(crate::specs::Shapes::wire_of))]
pub(crate) fn wire_of<'a>(inner: &Items<'a>) -> Option<IoPath<'a>>
    ensures { option_map shown_path result ≡ wire_of (items_in inner.now) }
{
    let mut rest = behind_keyword(inner);
    let from = rest.next_atom();
    let to = rest.next_atom();
    path_of(from, to, rest)
}

fn path_of<'a>(
    from: Option<Atom<'a>>,
    to: Option<Atom<'a>>,
    delays: Items<'a>,
) -> Option<IoPath<'a>>
    ensures { option_map shown_path result
        ≡ path_of (option_map word_read from.entry) (option_map word_read to.entry) (items_in delays.entry) }
{
    let Some(from) = from else {
        return None;
    };
    let Some(to) = to else {
        return None;
    };
    if are_delays(&delays) {
        Some(IoPath { from, to, delays })
    } else {
        None
    }
}

/// The keyword of the first RETAIN group among the items, as it stands in the text.
#[tactic(auto, using(crate::proofs::ShapeLemmas::retain_steps))]
pub(crate) fn retain_among<'a>(inner: &Items<'a>) -> Option<&'a [u8]>
    ensures { option_copied result ≡ retain_among (items_in inner.now) }
{
    let mut rest = inner.fork();
    while let Some(item) = rest.next() {
        let word = retain_in(&item);
        if word.is_some() {
            return word;
        }
    }
    None
}

fn retain_in<'a>(item: &Item<'a>) -> Option<&'a [u8]>
    ensures { option_copied result ≡ retain_in (group_of (item_read item.now)) }
{
    match item {
        Item::Group(group) => {
            let word = keyword(&group.inner);
            if is_retain(word) { Some(word) } else { None }
        }
        Item::Atom(_) | Item::Text | Item::Colon => None,
    }
}

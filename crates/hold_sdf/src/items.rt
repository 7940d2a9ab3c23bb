ghost use Rattle.std.specs.Prelude.{◌≡◌, min, length, option_map, is_some};
ghost use Rattle.hold_sdflex.specs.Items.{items_in, behind, group_of};
ghost use Rattle.hold_sdflex.specs.ItemsRead.{item_read};
ghost use Rattle.hold_sdf.specs.Shapes.{keyword, is_empty, are_groups, last_of};

use hold_sdflex::{Item, Items};

/// The keyword of a group: its first item where that is an atom, and nothing else.
#[tactic(auto, unfolding(crate::specs::Shapes::keyword))]
pub(crate) fn keyword<'a>(inner: &Items<'a>) -> &'a [u8]
    ensures { result.now ≡ keyword (items_in inner.now) }
{
    let mut rest = inner.fork();
    match rest.next_atom() {
        Some(atom) => atom.bytes,
        None => &[],
    }
}

/// What stands behind a group's keyword.
pub(crate) fn behind_keyword<'a>(inner: &Items<'a>) -> Items<'a>
    ensures { items_in result ≡ behind (items_in inner.now) }
{
    let mut rest = inner.fork();
    let _keyword = rest.next();
    rest
}

/// Whether no item is left.
pub(crate) fn is_empty(inner: &Items<'_>) -> bool
    ensures { result ≡ is_empty (items_in inner.now) }
{
    let mut rest = inner.fork();
    rest.next().is_none()
}

/// The number of items, or the limit where there are more.
pub(crate) fn count_up_to(inner: &Items<'_>, limit: usize) -> usize
    ensures { result ≡ min (length (items_in inner.now)) limit }
{
    let mut rest = inner.fork();
    let mut count = 0;
    while count < limit {
        if rest.next().is_none() {
            return count;
        }
        count += 1;
    }
    count
}

/// Whether each item is a group.
pub(crate) fn are_groups(inner: &Items<'_>) -> bool
    ensures { result ≡ are_groups (items_in inner.now) }
{
    let mut rest = inner.fork();
    while let Some(item) = rest.next() {
        if !is_group(&item) {
            return false;
        }
    }
    true
}

fn is_group(item: &Item<'_>) -> bool
    ensures { result ≡ is_some (group_of (item_read item.now)) }
{
    matches!(item, Item::Group(_))
}

/// The last item.
#[tactic(auto, unfolding(crate::specs::Shapes::last_of))]
pub(crate) fn last_of<'a>(inner: &Items<'a>) -> Option<Item<'a>>
    ensures { option_map item_read result ≡ last_of (items_in inner.now) }
{
    let mut rest = inner.fork();
    let mut last = None;
    while let Some(item) = rest.next() {
        last = Some(item);
    }
    last
}

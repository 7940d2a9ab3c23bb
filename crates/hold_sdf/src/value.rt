ghost use Rattle.std.specs.Prelude.{◌≡◌, ◌<◌, option_map};
ghost use Rattle.hold_sdflex.specs.Items.{items_in};
ghost use Rattle.hold_sdflex.specs.ItemsRead.{item_read, group_read};
ghost use Rattle.hold_sdf.specs.Shapes.{
  behind_atom,
  behind_colon,
  is_colon,
  begins_part,
  is_triple,
  is_value,
  is_value_group,
  are_values,
  number_within,
  is_delay,
  is_delay_group,
  are_all_delays,
  are_delays,
};

use crate::items::{count_up_to, is_empty};
use hold_sdflex::{Group, Item, Items};

/// The most delays of one path.
const DELAYS: usize = 12;

/// The most values of one delay.
const VALUES: usize = 3;

/// Whether these items stand in a value's group: `()`, `(a)` or `(a:b:c)`, whose parts may be left out.
#[tactic(auto, unfolding(crate::specs::Shapes::is_value))]
pub(crate) fn is_value(inner: &Items<'_>) -> bool
    ensures { result ≡ is_value (items_in inner.now) }
{
    let mut rest = inner.fork();
    pass_atom(&mut rest);
    if is_empty(&rest) {
        return true;
    }
    is_triple(inner.fork())
}

fn is_triple(parts: Items<'_>) -> bool
    ensures { result ≡ is_triple (items_in parts.entry) }
{
    let mut rest = parts;
    if !pass_part(&mut rest) || !pass_part(&mut rest) {
        return false;
    }
    pass_atom(&mut rest);
    is_empty(&rest)
}

// Reads an atom, where one is next.
#[tactic(auto, using(crate::proofs::ShapeLemmas::behind_atom_of))]
fn pass_atom(rest: &mut Items<'_>)
    ensures { items_in rest.new ≡ behind_atom (items_in rest.old) }
{
    let mut ahead = rest.fork();
    if ahead.next_atom().is_some() {
        *rest = ahead;
    }
}

// Reads an atom that may be left out and the next item, and answers whether that is a colon.
fn pass_part(rest: &mut Items<'_>) -> bool
    ensures colon { result ≡ begins_part (items_in rest.old) }
    ensures rest { items_in rest.new ≡ behind_colon (items_in rest.old) }
{
    pass_atom(rest);
    let colon = rest.next();
    is_colon(&colon)
}

fn is_colon(item: &Option<Item<'_>>) -> bool
    ensures { result ≡ is_colon (option_map item_read item.now) }
{
    matches!(item, Some(Item::Colon))
}

fn has_value(group: &Option<Group<'_>>) -> bool
    ensures { result ≡ is_value_group (option_map group_read group.now) }
{
    match group {
        Some(group) => is_value(&group.inner),
        None => false,
    }
}

// Whether each item is a value's group.
fn are_values(inner: &Items<'_>) -> bool
    ensures { result ≡ are_values (items_in inner.now) }
{
    let mut rest = inner.fork();
    while !is_empty(&rest) {
        let group = rest.next_group();
        if !has_value(&group) {
            return false;
        }
    }
    true
}

/// Whether these items stand in a delay's group: those of a value, or one to three values' groups.
#[tactic(auto, unfolding(crate::specs::Shapes::is_delay))]
fn is_delay(inner: &Items<'_>) -> bool
    ensures { result ≡ is_delay (items_in inner.now) }
{
    is_value(inner) || (numbers(inner, VALUES) && are_values(inner))
}

// Whether there is an item, and no more than so many.
fn numbers(inner: &Items<'_>, most: usize) -> bool
    requires { most < 100 }
    ensures { result ≡ number_within 1 most (items_in inner.now) }
{
    let count = count_up_to(inner, most + 1);
    1 <= count && count <= most
}

fn has_delay(group: &Option<Group<'_>>) -> bool
    ensures { result ≡ is_delay_group (option_map group_read group.now) }
{
    match group {
        Some(group) => is_delay(&group.inner),
        None => false,
    }
}

fn are_all_delays(inner: &Items<'_>) -> bool
    ensures { result ≡ are_all_delays (items_in inner.now) }
{
    let mut rest = inner.fork();
    while !is_empty(&rest) {
        let group = rest.next_group();
        if !has_delay(&group) {
            return false;
        }
    }
    true
}

/// Whether these items are the delays of a path: one to twelve.
#[tactic(auto, unfolding(crate::specs::Shapes::are_delays))]
pub(crate) fn are_delays(inner: &Items<'_>) -> bool
    ensures { result ≡ are_delays (items_in inner.now) }
{
    numbers(inner, DELAYS) && are_all_delays(inner)
}

ghost use Rattle.std.specs.Prelude.{◌≡◌, IfOk, option_map};
ghost use Rattle.hold_sdflex.specs.Items.{items_in, group_of};
ghost use Rattle.hold_sdflex.specs.ItemsRead.{word_read, group_read, item_read};
ghost use Rattle.hold_sdflex.specs.Backslashes.{plain};
ghost use Rattle.hold_sdf.specs.Shapes.{is_text, is_cell_type, is_type_group, named, instance_of, instance_in, is_star, is_star_group, has_star, head_of};
ghost use Rattle.hold_sdf.specs.Entries.{cell_entries};
ghost use Rattle.hold_sdf.specs.inner.Adds.{Adds};
ghost use Rattle.hold_sdf.specs.inner.Shown.{shown_instance, shown_settings};

use crate::entry::Entry;
use crate::fault::SdfFault;
use crate::items::{are_groups, behind_keyword, is_empty, keyword};
use crate::keyword::{is_cell, is_cell_type_word, is_instance};
use crate::scene::{Scene, left_out, syntax};
use crate::settings::Settings;
use crate::timing::timings;
use hold_base::{Memory, Name, Stop};
use hold_sdflex::{Atom, Group, Item, Items, plain_name};
use std::alloc::Global;

/// Adds the entries of a group behind the headers, which has to be a cell.
#[tactic(auto, unfolding(crate::specs::Entries::cell_entries))]
pub(crate) fn cell(
    alloc: Global,
    entries: &mut Vec<Entry>,
    settings: &Settings,
    group: &Group<'_>,
) -> Result<(), Stop<SdfFault>>
    ensures { Adds result entries.old.items entries.new.items (cell_entries (shown_settings settings.now) (group_read group.now)) }
{
    if !is_cell(keyword(&group.inner)) {
        return Err(syntax(group.at));
    }
    if has_star(&group.inner) {
        return Err(left_out(alloc, b"*", group.at));
    }
    let Some(inst) = head_of(&group.inner) else {
        return Err(syntax(group.at));
    };
    let scene = Scene {
        inst: instance_name(alloc, inst)?,
        divider: settings.divider(),
        scale: settings.scale(),
    };
    let rest = behind_keyword(&behind_keyword(&behind_keyword(&group.inner)));
    timings(alloc, entries, &scene, rest)
}

fn instance_name(alloc: Global, inst: Option<Atom<'_>>) -> Result<Option<Name>, Memory>
    ensures { IfOk result (λ name. name ≡ option_map (λ w. plain w.bytes) (option_map word_read inst.entry)) }
{
    match inst {
        Some(inst) => {
            let name = plain_name(alloc, inst.bytes)?;
            Ok(Some(name))
        }
        None => Ok(None),
    }
}

// The atom of the instance that a cell's items name, if it has one; None where the cell doesn't begin with its type and
// its instance, or something else than groups follows.
#[tactic(auto, unfolding(crate::specs::Shapes::head_of))]
fn head_of<'a>(inner: &Items<'a>) -> Option<Option<Atom<'a>>>
    ensures { option_map shown_instance result ≡ head_of (items_in inner.now) }
{
    let mut rest = behind_keyword(inner);
    let cell_type = rest.next_group();
    let instance = rest.next_group();
    if is_type_group(&cell_type) && are_groups(&rest) {
        instance_in(&instance)
    } else {
        None
    }
}

fn is_type_group(group: &Option<Group<'_>>) -> bool
    ensures { result ≡ is_type_group (option_map group_read group.now) }
{
    match group {
        Some(group) => is_cell_type(&group.inner),
        None => false,
    }
}

// Whether these items stand in a cell's type: a string.
#[tactic(auto, unfolding(crate::specs::Shapes::is_cell_type))]
fn is_cell_type(inner: &Items<'_>) -> bool
    ensures { result ≡ is_cell_type (items_in inner.now) }
{
    let mut rest = behind_keyword(inner);
    let name = rest.next();
    is_cell_type_word(keyword(inner)) && is_text(&name) && is_empty(&rest)
}

fn is_text(item: &Option<Item<'_>>) -> bool
    ensures { result ≡ is_text (option_map item_read item.now) }
{
    matches!(item, Some(Item::Text))
}

fn instance_in<'a>(group: &Option<Group<'a>>) -> Option<Option<Atom<'a>>>
    ensures { option_map shown_instance result ≡ instance_in (option_map group_read group.now) }
{
    match group {
        Some(group) => instance_of(&group.inner),
        None => None,
    }
}

// The atom of an instance's items, if there is one; None where they have another shape.
#[tactic(auto, unfolding(crate::specs::Shapes::instance_of))]
fn instance_of<'a>(inner: &Items<'a>) -> Option<Option<Atom<'a>>>
    ensures { option_map shown_instance result ≡ instance_of (items_in inner.now) }
{
    let mut rest = behind_keyword(inner);
    let is_design = is_empty(&rest);
    let name = rest.next_atom();
    if !is_instance(keyword(inner)) || !is_empty(&rest) {
        None
    } else if is_design {
        Some(None)
    } else {
        named(name)
    }
}

fn named<'a>(name: Option<Atom<'a>>) -> Option<Option<Atom<'a>>>
    ensures { option_map shown_instance result ≡ named (option_map word_read name.entry) }
{
    match name {
        Some(name) => Some(Some(name)),
        None => None,
    }
}

// Whether one of the items is the group of any instance, `(INSTANCE *)`.
#[tactic(auto, using(crate::proofs::ShapeLemmas::star_steps))]
fn has_star(inner: &Items<'_>) -> bool
    ensures { result ≡ has_star (items_in inner.now) }
{
    let mut rest = inner.fork();
    while let Some(item) = rest.next() {
        if is_star_group(&item) {
            return true;
        }
    }
    false
}

fn is_star_group(item: &Item<'_>) -> bool
    ensures { result ≡ is_star_group (group_of (item_read item.now)) }
{
    match item {
        Item::Group(group) => is_star(&group.inner),
        Item::Atom(_) | Item::Text | Item::Colon => false,
    }
}

#[tactic(auto, unfolding(crate::specs::Shapes::is_star))]
fn is_star(inner: &Items<'_>) -> bool
    ensures { result ≡ is_star (items_in inner.now) }
{
    let rest = behind_keyword(inner);
    is_instance(keyword(inner))
        && is_empty(&behind_keyword(&rest))
        && keyword(&rest) == b"*".as_slice()
}

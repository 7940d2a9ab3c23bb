ghost use Rattle.std.specs.Prelude.{◌≡◌, ℕ, Some, option_map};
ghost use Rattle.hold_sdflex.specs.Items.{items_in};
ghost use Rattle.hold_sdflex.specs.ItemsRead.{group_read};
ghost use Rattle.hold_sdf.specs.Shapes.{last_of, wire_of};
ghost use Rattle.hold_sdf.specs.Entries.{arc_entries, wire_entries, iopath_entries, group_last, conditional_entries, path_entries, inner_entries};
ghost use Rattle.hold_sdf.specs.inner.Adds.{Adds};
ghost use Rattle.hold_sdf.specs.inner.Shown.{shown_path, shown_scene};

use crate::entry::Entry;
use crate::fault::SdfFault;
use crate::iopath::{IoPath, iopath_of, retain_among, wire_of};
use crate::items::{are_groups, behind_keyword, is_empty, keyword, last_of};
use crate::keyword::{PathKind, is_iopath};
use crate::scene::{Scene, copy_of, left_out, path_in, syntax};
use crate::span::span_of_delays;
use hold_base::Stop;
use hold_sdflex::{Group, Item, Items, plain_name};
use std::alloc::Global;

/// Adds the entries of an ABSOLUTE group.
#[tactic(auto, unfolding(crate::specs::Entries::inner_entries), using(crate::proofs::AddLemmas::each_steps))]
pub(crate) fn paths(
    alloc: Global,
    entries: &mut Vec<Entry>,
    scene: &Scene,
    group: &Group<'_>,
) -> Result<(), Stop<SdfFault>>
    ensures { Adds result entries.old.items entries.new.items (inner_entries (path_entries (shown_scene scene.now)) (group_read group.now)) }
{
    let mut rest = behind_keyword(&group.inner);
    if !are_groups(&rest) {
        return Err(syntax(group.at));
    }
    while let Some(inner) = rest.next_group() {
        path(alloc, entries, scene, &inner)?;
    }
    Ok(())
}

// Adds the entries of a group in ABSOLUTE.
#[tactic(auto, unfolding(crate::specs::Entries::path_entries))]
fn path(
    alloc: Global,
    entries: &mut Vec<Entry>,
    scene: &Scene,
    group: &Group<'_>,
) -> Result<(), Stop<SdfFault>>
    ensures { Adds result entries.old.items entries.new.items (path_entries (shown_scene scene.now) (group_read group.now)) }
{
    let word = keyword(&group.inner);
    match PathKind::of(word) {
        PathKind::IoPath => iopath(alloc, entries, scene, group.at, true, group),
        PathKind::Cond => conditional(alloc, entries, scene, true, group),
        PathKind::CondElse => {
            let one_item = is_empty(&behind_keyword(&behind_keyword(&group.inner)));
            conditional(alloc, entries, scene, one_item, group)
        }
        PathKind::Interconnect => wire(alloc, entries, scene, group),
        PathKind::LeftOut => Err(left_out(alloc, word, group.at)),
        PathKind::Other => Err(syntax(group.at)),
    }
}

// Adds the entry of a COND or CONDELSE, of which `right` says whether its shape is right but for its last item.
#[tactic(auto, unfolding(crate::specs::Entries::conditional_entries))]
fn conditional(
    alloc: Global,
    entries: &mut Vec<Entry>,
    scene: &Scene,
    right: bool,
    group: &Group<'_>,
) -> Result<(), Stop<SdfFault>>
    ensures { Adds result entries.old.items entries.new.items (conditional_entries (shown_scene scene.now) right (group_read group.now)) }
{
    let Some(last) = last_group(&group.inner) else {
        return Err(syntax(group.at));
    };
    if !is_iopath(keyword(&last.inner)) {
        return Err(syntax(group.at));
    }
    iopath(alloc, entries, scene, group.at, right, &last)
}

// The last item, where it is a group.
fn last_group<'a>(inner: &Items<'a>) -> Option<Group<'a>>
    ensures { option_map group_read result ≡ group_last (last_of (items_in inner.now)) }
{
    match last_of(inner) {
        Some(Item::Group(group)) => Some(group),
        Some(Item::Atom(_) | Item::Text | Item::Colon) | None => None,
    }
}

// Adds the entry of an IOPATH. The group at `blamed`, itself or the one around it, is at fault for what is wrong with it;
// `right` says whether that group has the right shape but for the IOPATH.
#[tactic(auto, unfolding(crate::specs::Entries::iopath_entries))]
fn iopath(
    alloc: Global,
    entries: &mut Vec<Entry>,
    scene: &Scene,
    blamed: u64,
    right: bool,
    group: &Group<'_>,
) -> Result<(), Stop<SdfFault>>
    ensures { Adds result entries.old.items entries.new.items (iopath_entries (shown_scene scene.now) blamed right (group_read group.now)) }
{
    if let Some(word) = retain_among(&group.inner) {
        return Err(left_out(alloc, word, blamed));
    }
    if !right {
        return Err(syntax(blamed));
    }
    let Some(path) = iopath_of(&group.inner) else {
        return Err(syntax(blamed));
    };
    add_arc(alloc, entries, scene, group.at, &path)
}

// Adds the entry of a cell's path.
fn add_arc(
    alloc: Global,
    entries: &mut Vec<Entry>,
    scene: &Scene,
    at: u64,
    path: &IoPath<'_>,
) -> Result<(), Stop<SdfFault>>
    ensures { (blamed : ℕ) → Adds result entries.old.items entries.new.items (arc_entries (shown_scene scene.now) blamed at (Some (shown_path path.now))) }
{
    let span = span_of_delays(&path.delays, scene.scale)?;
    let inst = copy_of(&scene.inst)?;
    let from = plain_name(alloc, path.from.bytes)?;
    let to = plain_name(alloc, path.to.bytes)?;
    entries.push(Entry::Cell {
        at,
        inst,
        from,
        to,
        span,
    })?;
    Ok(())
}

// Adds the entry of an INTERCONNECT.
fn wire(
    alloc: Global,
    entries: &mut Vec<Entry>,
    scene: &Scene,
    group: &Group<'_>,
) -> Result<(), Stop<SdfFault>>
    ensures { Adds result entries.old.items entries.new.items (wire_entries (shown_scene scene.now) group.now.at (wire_of (items_in group.now.inner))) }
{
    let Some(path) = wire_of(&group.inner) else {
        return Err(syntax(group.at));
    };
    add_wire(alloc, entries, scene, group.at, &path)
}

// Adds the entry of a wire.
fn add_wire(
    alloc: Global,
    entries: &mut Vec<Entry>,
    scene: &Scene,
    at: u64,
    path: &IoPath<'_>,
) -> Result<(), Stop<SdfFault>>
    ensures { Adds result entries.old.items entries.new.items (wire_entries (shown_scene scene.now) at (Some (shown_path path.now))) }
{
    let span = span_of_delays(&path.delays, scene.scale)?;
    let inst = copy_of(&scene.inst)?;
    let from = path_in(alloc, scene.divider, path.from.bytes)?;
    let to = path_in(alloc, scene.divider, path.to.bytes)?;
    entries.push(Entry::Wire {
        at,
        inst,
        from,
        to,
        span,
    })?;
    Ok(())
}

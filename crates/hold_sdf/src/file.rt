ghost use Rattle.std.specs.Prelude.{◌≡◌, ◌^◌, ◌<◌, length, IfOk, Ok, Err};
ghost use Rattle.std.specs.List.{AllByRecursion};
ghost use Rattle.hold_base.specs.Answers.{IfFault};
ghost use Rattle.hold_sdflex.specs.Items.{items_in};
ghost use Rattle.hold_sdflex.specs.ItemsRead.{group_read};
ghost use Rattle.hold_sdf.specs.Entries.{each, cell_entries, file_entries, entries_of};
ghost use Rattle.hold_sdf.specs.Range.{IsInRange};
ghost use Rattle.hold_sdf.specs.inner.Adds.{Adds};
ghost use Rattle.hold_sdf.specs.inner.Shown.{shown_settings};

use crate::cell::cell;
use crate::entry::Entry;
use crate::fault::SdfFault;
use crate::items::{are_groups, behind_keyword, keyword};
use crate::keyword::is_file;
use crate::scene::syntax;
use crate::settings::Settings;
use hold_base::Stop;
use hold_sdflex::{Group, GroupFault, Items, read_groups};
use std::alloc::Global;

/// The entries of an SDF text, in its order. `entries_of` tells of each text either its entries or its fault, so both clauses
/// hold the other way round too, unless memory runs out. The time is linear in the text.
#[tactic(auto, unfolding(crate::specs::Entries::entries_of), using(crate::proofs::AddLemmas::from_nothing))]
pub fn read(alloc: Global, text: &[u8]) -> Result<Vec<Entry>, Stop<SdfFault>>
    requires { length text.now < 2 ^ 32 }
    ensures found { IfOk result (λ entries. entries_of text.now ≡ Ok entries.items) }
    ensures fault { IfFault result (λ fault. entries_of text.now ≡ Err fault) }
    ensures in_range { IfOk result (λ entries. AllByRecursion IsInRange entries.items) }
{
    let groups = match read_groups(alloc, text) {
        Ok(groups) => groups,
        Err(Stop::Memory) => return Err(Stop::Memory),
        Err(Stop::Fault(GroupFault::At(at))) => return Err(syntax(at)),
    };
    let mut whole = Items::of(&groups, text);
    let Some(group) = whole.next_group() else {
        return Err(syntax(0));
    };
    let mut entries = Vec::new(alloc);
    file(alloc, &mut entries, &group)?;
    Ok(entries)
}

// Adds the entries of the file's group.
#[tactic(auto, unfolding(crate::specs::Entries::file_entries))]
fn file(alloc: Global, entries: &mut Vec<Entry>, group: &Group<'_>) -> Result<(), Stop<SdfFault>>
    ensures { Adds result entries.old.items entries.new.items (file_entries (group_read group.now)) }
{
    let mut rest = behind_keyword(&group.inner);
    if !is_file(keyword(&group.inner)) || !are_groups(&rest) {
        return Err(syntax(group.at));
    }
    let settings = Settings::read(&mut rest)?;
    cells(alloc, entries, &settings, rest)
}

// Adds the entries of the groups behind the headers.
#[tactic(auto, using(crate::proofs::AddLemmas::each_steps))]
fn cells(
    alloc: Global,
    entries: &mut Vec<Entry>,
    settings: &Settings,
    groups: Items<'_>,
) -> Result<(), Stop<SdfFault>>
    ensures { Adds result entries.old.items entries.new.items (each (cell_entries (shown_settings settings.now)) (items_in groups.entry)) }
{
    let mut rest = groups;
    while let Some(group) = rest.next_group() {
        cell(alloc, entries, settings, &group)?;
    }
    Ok(())
}

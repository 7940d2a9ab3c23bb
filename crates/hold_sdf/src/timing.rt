ghost use Rattle.std.specs.Prelude.{◌≡◌, Some, option_map};
ghost use Rattle.hold_sdflex.specs.Items.{items_in};
ghost use Rattle.hold_sdflex.specs.ItemsRead.{group_read};
ghost use Rattle.hold_sdf.specs.Shapes.{check_of};
ghost use Rattle.hold_sdf.specs.Entries.{each, check_entry, check_entries, delay_entries, timing_entries, inner_entries};
ghost use Rattle.hold_sdf.specs.inner.Adds.{Adds};
ghost use Rattle.hold_sdf.specs.inner.Shown.{shown_check, shown_scene};

use crate::check::{Check, check_of};
use crate::entry::Entry;
use crate::fault::SdfFault;
use crate::items::{are_groups, behind_keyword, keyword};
use crate::keyword::{CheckKind, DelayKind, TimingKind};
use crate::path::paths;
use crate::scene::{Scene, copy_of, left_out, syntax};
use crate::span::latest_of_value;
use hold_base::Stop;
use hold_sdflex::{Group, Items, plain_name};
use std::alloc::Global;

/// Adds the entries of a cell's groups behind its type and its instance.
#[tactic(auto, using(crate::proofs::AddLemmas::each_steps))]
pub(crate) fn timings(
    alloc: Global,
    entries: &mut Vec<Entry>,
    scene: &Scene,
    groups: Items<'_>,
) -> Result<(), Stop<SdfFault>>
    ensures { Adds result entries.old.items entries.new.items (each (timing_entries (shown_scene scene.now)) (items_in groups.entry)) }
{
    let mut rest = groups;
    while let Some(group) = rest.next_group() {
        timing(alloc, entries, scene, &group)?;
    }
    Ok(())
}

// Adds the entries of a group in a cell.
#[tactic(auto, unfolding(crate::specs::Entries::timing_entries))]
fn timing(
    alloc: Global,
    entries: &mut Vec<Entry>,
    scene: &Scene,
    group: &Group<'_>,
) -> Result<(), Stop<SdfFault>>
    ensures { Adds result entries.old.items entries.new.items (timing_entries (shown_scene scene.now) (group_read group.now)) }
{
    match TimingKind::of(keyword(&group.inner)) {
        TimingKind::Delay => delays(alloc, entries, scene, group),
        TimingKind::TimingCheck => checks(alloc, entries, scene, group),
        TimingKind::ReadPast => Ok(()),
        TimingKind::Other => Err(syntax(group.at)),
    }
}

// Adds the entries of a DELAY group.
#[tactic(auto, unfolding(crate::specs::Entries::inner_entries), using(crate::proofs::AddLemmas::each_steps))]
fn delays(
    alloc: Global,
    entries: &mut Vec<Entry>,
    scene: &Scene,
    group: &Group<'_>,
) -> Result<(), Stop<SdfFault>>
    ensures { Adds result entries.old.items entries.new.items (inner_entries (delay_entries (shown_scene scene.now)) (group_read group.now)) }
{
    let mut rest = behind_keyword(&group.inner);
    if !are_groups(&rest) {
        return Err(syntax(group.at));
    }
    while let Some(inner) = rest.next_group() {
        delay(alloc, entries, scene, &inner)?;
    }
    Ok(())
}

// Adds the entries of a group in DELAY.
#[tactic(auto, unfolding(crate::specs::Entries::delay_entries))]
fn delay(
    alloc: Global,
    entries: &mut Vec<Entry>,
    scene: &Scene,
    group: &Group<'_>,
) -> Result<(), Stop<SdfFault>>
    ensures { Adds result entries.old.items entries.new.items (delay_entries (shown_scene scene.now) (group_read group.now)) }
{
    let word = keyword(&group.inner);
    match DelayKind::of(word) {
        DelayKind::Absolute => paths(alloc, entries, scene, group),
        DelayKind::ReadPast => Ok(()),
        DelayKind::LeftOut => Err(left_out(alloc, word, group.at)),
        DelayKind::Other => Err(syntax(group.at)),
    }
}

// Adds the entries of a TIMINGCHECK group.
#[tactic(auto, unfolding(crate::specs::Entries::inner_entries), using(crate::proofs::AddLemmas::each_steps))]
fn checks(
    alloc: Global,
    entries: &mut Vec<Entry>,
    scene: &Scene,
    group: &Group<'_>,
) -> Result<(), Stop<SdfFault>>
    ensures { Adds result entries.old.items entries.new.items (inner_entries (check_entries (shown_scene scene.now)) (group_read group.now)) }
{
    let mut rest = behind_keyword(&group.inner);
    if !are_groups(&rest) {
        return Err(syntax(group.at));
    }
    while let Some(inner) = rest.next_group() {
        check(alloc, entries, scene, &inner)?;
    }
    Ok(())
}

// Adds the entry of a group in TIMINGCHECK.
#[tactic(auto, unfolding(crate::specs::Entries::check_entries))]
fn check(
    alloc: Global,
    entries: &mut Vec<Entry>,
    scene: &Scene,
    group: &Group<'_>,
) -> Result<(), Stop<SdfFault>>
    ensures { Adds result entries.old.items entries.new.items (check_entries (shown_scene scene.now) (group_read group.now)) }
{
    let kind = CheckKind::of(keyword(&group.inner));
    match kind {
        CheckKind::Setup | CheckKind::Hold | CheckKind::SetupHold => {
            timed(alloc, entries, scene, kind, group)
        }
        CheckKind::ReadPast => Ok(()),
        CheckKind::Other => Err(syntax(group.at)),
    }
}

// Adds the entry of a SETUP, HOLD or SETUPHOLD.
fn timed(
    alloc: Global,
    entries: &mut Vec<Entry>,
    scene: &Scene,
    kind: CheckKind,
    group: &Group<'_>,
) -> Result<(), Stop<SdfFault>>
    ensures { Adds result entries.old.items entries.new.items (check_entry (shown_scene scene.now) group.now.at (check_of kind (items_in group.now.inner))) }
{
    let Some(check) = check_of(kind, &group.inner) else {
        return Err(syntax(group.at));
    };
    add_check(alloc, entries, scene, group.at, check)
}

fn add_check(
    alloc: Global,
    entries: &mut Vec<Entry>,
    scene: &Scene,
    at: u64,
    check: Check<'_>,
) -> Result<(), Stop<SdfFault>>
    ensures { Adds result entries.old.items entries.new.items (check_entry (shown_scene scene.now) at (Some (shown_check check.entry))) }
{
    let setup = latest_of_value(check.setup, scene.scale)?;
    let hold = latest_of_value(check.hold, scene.scale)?;
    let inst = copy_of(&scene.inst)?;
    let pin = plain_name(alloc, check.pin.bytes)?;
    let clock = plain_name(alloc, check.clock.bytes)?;
    entries.push(Entry::Check {
        at,
        inst,
        pin,
        clock,
        setup,
        hold,
    })?;
    Ok(())
}

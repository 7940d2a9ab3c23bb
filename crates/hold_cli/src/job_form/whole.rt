//! Cell types whose arcs and checks are of their own pins, and stand once.
ghost use Rattle.std.specs.Prelude.{◌≡◌, ℕ, ◌++◌, List, map, true, is_none, IfOk};
ghost use Rattle.std.specs.Hash.DefaultHasher as sip;
ghost use Rattle.std.specs.List.{list_all};
ghost use Rattle.hold_netlist.specs.Doubles.{first_repeat};
ghost use Rattle.hold_netlist.specs.Names.{is_among};
ghost use Rattle.hold_netlist.specs.Seed.{start_of};
ghost use Rattle.hold_netlist.specs.inner.Seed.{with_texts};
ghost use Rattle.hold_cli.specs.JobFormNames.{names_differ};
ghost use Rattle.hold_cli.specs.JobFormCells.{clock_pins, sources_of, pins_of, pair_name, leads_between, is_whole};

use crate::job_form::arcs::{all_lead, pair_names};
use crate::job_form::checks::all_of;
use crate::job_form::doubles::{differ, see_all};
use crate::job_form::name_set::NameSet;
use crate::job_form::seeds::{add_names, seed_of};
use hold_base::{Memory, Name};
use hold_netlist::Seed;
use hold_plain::{Cell, CellCheck, Role};
use std::alloc::Global;
use std::slice;

/// The clock pin of a cell, which is none or one.
fn clock_pins(cell: &Cell) -> &[Name]
    ensures { result.now ≡ clock_pins cell.now.clock }
{
    match &cell.clock {
        Some(clock) => slice::from_ref(clock),
        None => &[],
    }
}

/// The pins that arcs lead from.
fn sources_of(cell: &Cell) -> &[Name]
    ensures { result.now ≡ sources_of cell.now }
{
    match cell.role {
        Role::Comb => cell.inputs.as_slice(),
        Role::Register => clock_pins(cell),
    }
}

/// Writes the names of these pins behind what the seed is of.
fn add_pins(seed: &mut Seed, pins: &[Name])
    ensures { start_of seed.new ≡ with_texts (start_of seed.old) pins.now }
{
    add_names::<Name>(seed, pins);
}

/// The seed of the names of all pins of the cell.
fn pins_seed(cell: &Cell) -> Seed
    ensures { start_of result ≡ with_texts (with_texts (with_texts sip.initial (clock_pins cell.now.clock)) cell.now.inputs) cell.now.outputs }
{
    let mut seed = Seed::new();
    add_pins(&mut seed, clock_pins(cell));
    add_pins(&mut seed, cell.inputs.as_slice());
    add_pins(&mut seed, cell.outputs.as_slice());
    seed
}

/// Sees these pins up to the first that isn't new, and answers whether there is none.
fn see_pins(alloc: Global, seen: &mut NameSet, pins: &[Name]) -> Result<bool, Memory>
    ensures new { IfOk result (λ all_new. all_new ≡ is_none (first_repeat seen.old pins.now)) }
    ensures seen { IfOk result (λ all_new. all_new ≡ true → seen.new ≡ seen.old ++ pins.now) }
{
    see_all::<Name>(alloc, seen, pins)
}

/// Whether no two pins of the cell have the same name.
#[tactic(auto, using(crate::proofs::JobFormSets::first_old, crate::proofs::JobFormSets::second_old, crate::proofs::JobFormSets::three_new))]
fn pins_differ(alloc: Global, cell: &Cell) -> Result<bool, Memory>
    ensures { IfOk result (λ differ. differ ≡ names_differ (pins_of cell.now)) }
{
    let mut seen = NameSet::new(alloc, pins_seed(cell));
    if !see_pins(alloc, &mut seen, clock_pins(cell))? {
        return Ok(false);
    }
    if !see_pins(alloc, &mut seen, cell.inputs.as_slice())? {
        return Ok(false);
    }
    see_pins(alloc, &mut seen, cell.outputs.as_slice())
}

/// A set of exactly these names.
fn set_of(alloc: Global, names: &[Name]) -> Result<NameSet, Memory>
    ensures { IfOk result (λ set. (name : List ℕ) → is_among name set ≡ is_among name names.now) }
{
    let mut set = NameSet::new(alloc, seed_of::<Name>(names));
    for name in names {
        set.add(alloc, name.bytes())?;
    }
    Ok(set)
}

/// Whether each arc of the cell leads from one of the pins that arcs lead from to an output.
fn arcs_lead(alloc: Global, cell: &Cell) -> Result<bool, Memory>
    ensures { IfOk result (λ lead. lead ≡ list_all (leads_between (sources_of cell.now) cell.now.outputs) cell.now.arcs) }
{
    let sources = set_of(alloc, sources_of(cell))?;
    let outputs = set_of(alloc, cell.outputs.as_slice())?;
    Ok(all_lead(cell.arcs.as_slice(), &sources, &outputs))
}

/// Whether no two arcs of the cell lead from the same pin to the same pin.
fn pairs_differ(alloc: Global, cell: &Cell) -> Result<bool, Memory>
    ensures { IfOk result (λ differ. differ ≡ names_differ (map pair_name cell.now.arcs)) }
{
    let pairs = pair_names(alloc, cell.arcs.as_slice())?;
    differ::<Name>(alloc, pairs.as_slice())
}

/// Whether each check of the cell is of one of its inputs.
fn checks_are_of_inputs(alloc: Global, cell: &Cell) -> Result<bool, Memory>
    ensures { IfOk result (λ are. are ≡ list_all (λ entry. is_among entry.pin cell.now.inputs) cell.now.checks) }
{
    let inputs = set_of(alloc, cell.inputs.as_slice())?;
    Ok(all_of(cell.checks.as_slice(), &inputs))
}

/// Whether the cell's pins differ, and its arcs and checks are of these pins and stand once.
pub fn is_whole(alloc: Global, cell: &Cell) -> Result<bool, Memory>
    ensures { IfOk result (λ whole. whole ≡ is_whole cell.now) }
{
    if !pins_differ(alloc, cell)? {
        return Ok(false);
    }
    if !arcs_lead(alloc, cell)? || !pairs_differ(alloc, cell)? {
        return Ok(false);
    }
    if !checks_are_of_inputs(alloc, cell)? {
        return Ok(false);
    }
    differ::<CellCheck>(alloc, cell.checks.as_slice())
}

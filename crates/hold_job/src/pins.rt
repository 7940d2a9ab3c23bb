//! Lists of a type's pins.
ghost use Rattle.std.specs.Prelude.{◌≡◌, ◌++◌, ◌∷◌, [], IfOk, OnOk, OnErr};
ghost use Rattle.toml.specs.View.{view, array_view};
ghost use Rattle.hold_base.specs.Answers.{Answers};
ghost use Rattle.hold_job.specs.Lists.{in_turn};
ghost use Rattle.hold_job.specs.Names.{new_name};
ghost use Rattle.hold_job.specs.CellTypes.{pin_names};

use crate::fault::JobFault;
use crate::form::{Form, not_its_kind};
use crate::name_set::{NameSet, add_to_seed, set_of};
use crate::path::told_from_item;
use crate::text::TextRule;
use hold_base::{List, Memory, Name, Stop};
use hold_netlist::Seed;
use std::alloc::Global;
use toml::Value;
use toml::value::Array;

/// A list of names of pins, of which none is taken and none stands twice.
#[derive(Drop)]
pub struct Pins<'a> {
    pub taken: &'a [Name],
}

/// The seed of the names that are taken and of the texts in the list.
fn pins_seed(taken: &[Name], items: &Array) -> Seed {
    let mut seed = Seed::new();
    add_to_seed(&mut seed, taken);
    for item in items {
        if let Some(text) = item.as_str() {
            seed.add(text.as_bytes());
        }
    }
    seed
}

/// A name that isn't in the set, which it is put into.
fn new_name(alloc: Global, taken: &mut NameSet, value: &Value) -> Result<Name, Stop<JobFault>>
    ensures name { Answers result (new_name taken.old (view value.now)) }
    ensures added { IfOk result (λ name. taken.new ≡ taken.old ++ name ∷ []) }
{
    let name = TextRule::NewName(taken).read(alloc, value)?;
    taken.add(alloc, name.bytes())?;
    Ok(name)
}

/// The names in a list, none of which is taken and none of which stands twice.
fn new_names(alloc: Global, taken: NameSet, items: &Array) -> Result<List<Name>, Stop<JobFault>>
    ensures { Answers result (in_turn (λ so_far. new_name (taken ++ so_far)) [] (array_view items.now)) }
{
    let mut seen = taken;
    let mut so_far = Vec::new(alloc);
    for (place, item) in items.iter().enumerate() {
        match new_name(alloc, &mut seen, item) {
            Ok(name) => so_far.push(name)?,
            Err(stop) => return Err(told_from_item(alloc, place, stop)),
        }
    }
    Ok(List::from_vec(so_far))
}

impl Form for Pins<'_> {
    type Given = List<Name>;

    ghost form = { λ f. pin_names f.taken.now };

    fn read(&self, alloc: Global, value: &Value) -> Result<List<Name>, Stop<JobFault>> {
        let Some(items) = value.as_array() else {
            return Err(not_its_kind(alloc));
        };
        let taken = set_of(alloc, pins_seed(self.taken, items), self.taken)?;
        new_names(alloc, taken, items)
    }
}

/// Puts these names behind those of the list.
fn push_all(names: &mut Vec<Name>, more: &[Name]) -> Result<(), Memory>
    ensures { OnOk result (names.new.items ≡ names.old.items ++ more.now) }
{
    for name in more {
        names.push(name.clone()?)?;
    }
    Ok(())
}

/// A name, and then those of two lists.
pub fn joined(
    alloc: Global,
    first: &Name,
    second: &[Name],
    third: &[Name],
) -> Result<Vec<Name>, Memory>
    ensures { IfOk result (λ names. names.items ≡ first.now ∷ second.now ++ third.now) }
{
    let mut names = Vec::new(alloc);
    names.push(first.clone()?)?;
    push_all(&mut names, second)?;
    push_all(&mut names, third)?;
    Ok(names)
}

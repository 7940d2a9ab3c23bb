//! Lists whose items are read in turn.
ghost use Rattle.std.specs.Prelude.{◌≡◌, []};
ghost use Rattle.toml.specs.View.{view, array_view};
ghost use Rattle.hold_base.specs.Answers.{Answers};
ghost use Rattle.hold_job.specs.Lists.{each, every, every_within};

use crate::fault::JobFault;
use crate::form::{Form, not_its_kind, out_of_range};
use crate::path::told_from_item;
use hold_base::{List, Stop};
use std::alloc::Global;
use toml::Value;
use toml::value::Array;

/// A list of nothing. Takes no memory.
pub fn none<T>(alloc: Global) -> List<T>
    ensures { result ≡ [] }
{
    List::from_vec(Vec::new(alloc))
}

/// What each item of a list gives, in order.
fn each<F: Form>(alloc: Global, form: &F, items: &Array) -> Result<List<F::Given>, Stop<JobFault>>
    ensures { Answers result (each (F.form form.now) (array_view items.now)) }
{
    let mut so_far = Vec::new(alloc);
    for (place, item) in items.iter().enumerate() {
        match form.read(alloc, item) {
            Ok(given) => so_far.push(given)?,
            Err(stop) => return Err(told_from_item(alloc, place, stop)),
        }
    }
    Ok(List::from_vec(so_far))
}

/// A list of any length, whose items all have one form.
#[derive(Drop)]
pub struct Every<F> {
    pub form: F,
}

impl<F: Form> Form for Every<F> {
    type Given = List<F::Given>;

    ghost form = { λ f. every (F.form f.form) };

    fn read(&self, alloc: Global, value: &Value) -> Result<List<F::Given>, Stop<JobFault>> {
        match value.as_array() {
            Some(items) => each(alloc, &self.form, items),
            None => Err(not_its_kind(alloc)),
        }
    }
}

/// A list of at least and at most so many items, which all have one form.
#[derive(Drop)]
pub struct EveryWithin<F> {
    pub least: usize,
    pub most: usize,
    pub form: F,
}

impl<F: Form> Form for EveryWithin<F> {
    type Given = List<F::Given>;

    ghost form = { λ f. every_within f.least f.most (F.form f.form) };

    #[tactic(auto, using(crate::proofs::Items::item_count_view))]
    fn read(&self, alloc: Global, value: &Value) -> Result<List<F::Given>, Stop<JobFault>> {
        let Some(items) = value.as_array() else {
            return Err(not_its_kind(alloc));
        };
        if items.len() < self.least || self.most < items.len() {
            return Err(out_of_range(alloc));
        }
        each(alloc, &self.form, items)
    }
}

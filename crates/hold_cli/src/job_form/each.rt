//! Lists whose items are all read alike.
ghost use Rattle.std.specs.Prelude.{◌≡◌, Option, IfOk, option_map};
ghost use Rattle.toml.specs.Data.{Data};
ghost use Rattle.toml.specs.View.{view, table_view, array_view};
ghost use Rattle.hold_cli.specs.JobFormKeys.{each_of, each_at};

use crate::job_form::value::value_at;
use hold_base::{List, Memory};
use std::alloc::Global;
use toml::value::Array;
use toml::{Table, Value};

/// What a value of a job's tree may give.
pub trait FromValue: Sized + Drop {
    ghost given_by: { Data → Option Self };

    /// What the value gives, or None exactly where it gives nothing.
    fn from_value(alloc: Global, value: &Value) -> Result<Option<Self>, Memory>
        ensures { IfOk result (λ found. found ≡ given_by (view value.now)) };
}

/// What each item of a list gives, or None where one gives nothing.
#[tactic(auto, using(crate::proofs::JobFormEach::each_of_spoilt, crate::proofs::JobFormEach::each_of_step, crate::proofs::JobFormEach::each_of_end))]
fn each_of<T: FromValue>(alloc: Global, items: &Array) -> Result<Option<List<T>>, Memory>
    ensures { IfOk result (λ found. found ≡ each_of T.given_by (array_view items.now)) }
{
    let mut read = Vec::new(alloc);
    for item in items {
        match T::from_value(alloc, item)? {
            Some(value) => read.push(value)?,
            None => return Ok(None),
        }
    }
    Ok(Some(List::from_vec(read)))
}

/// What each item of the list at a key gives, if the key isn't missing.
pub fn each_at<T: FromValue>(
    alloc: Global,
    table: &Table,
    key: &str,
) -> Result<Option<List<T>>, Memory>
    ensures { IfOk result (λ found. found ≡ each_at T.given_by key.now (table_view table.now)) }
{
    match value_at(table, key) {
        Some(value) => match value.as_array() {
            Some(items) => each_of(alloc, items),
            None => Ok(None),
        },
        None => Ok(Some(List::from_vec(Vec::new(alloc)))),
    }
}

//! What a value of the job's tree gives, by its kind and its rule, and what the value at a key gives.
ghost use Rattle.std.specs.Prelude.{◌≡◌, [], Result, option_map};
ghost use Rattle.toml.specs.Data.{Data, get_member};
ghost use Rattle.toml.specs.View.{view, table_view};
ghost use Rattle.hold_base.specs.Answers.{Answers, IfStopFault};
ghost use Rattle.hold_job.specs.declared.fault.JobFault.{JobFault};
ghost use Rattle.hold_job.specs.Keys.{required, or_else, if_any};

use crate::fault::JobFault;
use crate::path::told_from;
use hold_base::{Name, Stop};
use std::alloc::Global;
use toml::{Table, Value};

/// A kind of values with its rule.
pub trait Form {
    type Given: Drop;

    ghost form: { Self → Data → Result Self.Given JobFault };

    /// What a value of this form gives.
    fn read(&self, alloc: Global, value: &Value) -> Result<Self::Given, Stop<JobFault>>
        ensures { Answers result (form self.now (view value.now)) };
}

/// The value at a key.
pub fn value_at<'a>(table: &'a Table, key: &str) -> Option<&'a Value>
    ensures { option_map (λ v. view v.now) result ≡ get_member key.now (table_view table.now) }
{
    table.get(key)
}

/// The fault of a value that is missing or isn't of its kind.
pub fn not_its_kind(alloc: Global) -> Stop<JobFault>
    ensures { IfStopFault result (λ fault. fault ≡ JobFault.Key []) }
{
    match Name::from_bytes(alloc, b"") {
        Ok(path) => Stop::Fault(JobFault::Key(path)),
        Err(_) => Stop::Memory,
    }
}

/// The fault of a value that breaks its rule.
pub fn out_of_range(alloc: Global) -> Stop<JobFault>
    ensures { IfStopFault result (λ fault. fault ≡ JobFault.Range []) }
{
    match Name::from_bytes(alloc, b"") {
        Ok(path) => Stop::Fault(JobFault::Range(path)),
        Err(_) => Stop::Memory,
    }
}

/// What the value at a key gives, which may not be missing.
pub fn required<F: Form>(
    alloc: Global,
    form: &F,
    table: &Table,
    key: &str,
) -> Result<F::Given, Stop<JobFault>>
    ensures { Answers result (required (F.form form.now) key.now (table_view table.now)) }
{
    let answer = match value_at(table, key) {
        Some(value) => form.read(alloc, value),
        None => Err(not_its_kind(alloc)),
    };
    match answer {
        Ok(given) => Ok(given),
        Err(stop) => Err(told_from(alloc, key.as_bytes(), stop)),
    }
}

/// What the value at a key gives, or `otherwise` where the key is missing.
pub fn or_else<F: Form>(
    alloc: Global,
    form: &F,
    table: &Table,
    key: &str,
    otherwise: F::Given,
) -> Result<F::Given, Stop<JobFault>>
    ensures { Answers result (or_else otherwise (F.form form.now) key.now (table_view table.now)) }
{
    let Some(value) = value_at(table, key) else {
        return Ok(otherwise);
    };
    match form.read(alloc, value) {
        Ok(given) => Ok(given),
        Err(stop) => Err(told_from(alloc, key.as_bytes(), stop)),
    }
}

/// What the value at a key gives, or nothing where the key is missing.
pub fn if_any<F: Form>(
    alloc: Global,
    form: &F,
    table: &Table,
    key: &str,
) -> Result<Option<F::Given>, Stop<JobFault>>
    ensures { Answers result (if_any (F.form form.now) key.now (table_view table.now)) }
{
    let Some(value) = value_at(table, key) else {
        return Ok(None);
    };
    match form.read(alloc, value) {
        Ok(given) => Ok(Some(given)),
        Err(stop) => Err(told_from(alloc, key.as_bytes(), stop)),
    }
}

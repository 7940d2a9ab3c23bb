//! Keys that a table may have.
ghost use Rattle.std.specs.Prelude.{◌≡◌, option_copied};
ghost use Rattle.toml.specs.View.{table_view};
ghost use Rattle.hold_base.specs.Answers.{Answers};
ghost use Rattle.hold_netlist.specs.Names.{is_among};
ghost use Rattle.hold_job.specs.Keys.{unknown, known};
ghost use Rattle.hold_job.specs.inner.Texts.{texts};

use crate::fault::JobFault;
use crate::form::not_its_kind;
use crate::path::told_from;
use hold_base::Stop;
use std::alloc::Global;
use toml::Table;

/// Whether the key is one of these, which are few.
fn is_known(keys: &[&str], key: &str) -> bool
    ensures { result ≡ is_among key.now (texts keys.now) }
{
    for known in keys {
        if key == *known {
            return true;
        }
    }
    false
}

/// The first key of a table that isn't one of these.
#[tactic(auto, using(crate::proofs::KeyLemmas::unknown_keys))]
fn first_unknown<'a>(table: &'a Table, keys: &[&str]) -> Option<&'a str>
    ensures { option_copied result ≡ unknown (texts keys.now) (table_view table.now) }
{
    for key in table.keys() {
        if !is_known(keys, key.as_str()) {
            return Some(key.as_str());
        }
    }
    None
}

/// Tests that a table has no other keys than these.
pub fn test_keys(alloc: Global, table: &Table, keys: &[&str]) -> Result<(), Stop<JobFault>>
    ensures { Answers result (known (texts keys.now) (table_view table.now)) }
{
    match first_unknown(table, keys) {
        Some(key) => Err(told_from(alloc, key.as_bytes(), not_its_kind(alloc))),
        None => Ok(()),
    }
}

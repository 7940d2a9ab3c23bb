//! Names in a job: of files, of the corner, and of cell types, instances and pins.
ghost use Rattle.std.specs.Prelude.{◌≡◌, IfOk, option_copied};
ghost use Rattle.std.specs.List.{list_all};
ghost use Rattle.hold_base.specs.NameBytes.{is_printed};
ghost use Rattle.toml.specs.View.{view, table_view};
ghost use Rattle.hold_cli.specs.JobFormNames.{file_name_at, is_file_name, is_name, name_of, name_at, corner_name_at, corner_name_of, is_corner_name};

use crate::job_form::each::FromValue;
use crate::job_form::key::JobTable;
use crate::job_form::value::{array_at, only_item, text_at};
use hold_base::{Memory, Name, is_printed, limits};
use std::alloc::Global;
use toml::{Table, Value};

/// Whether a file may have the name.
fn is_file_name(name: &[u8]) -> bool
    ensures { result ≡ is_file_name name.now }
{
    !name.is_empty() && name.len() <= limits::NAME_BYTES
}

/// Whether each byte prints and is no space.
fn are_printed(text: &[u8]) -> bool
    ensures { result ≡ list_all is_printed text.now }
{
    text.iter().all(|byte| is_printed(*byte))
}

/// Whether a cell type, an instance or a pin may have the name.
fn is_name(name: &[u8]) -> bool
    ensures { result ≡ is_name name.now }
{
    is_file_name(name) && are_printed(name)
}

/// Whether a corner may have the name.
fn is_corner_name(name: &[u8]) -> bool
    ensures { result ≡ is_corner_name name.now }
{
    !name.is_empty() && name.len() <= limits::CORNER_NAME_BYTES && are_printed(name)
}

/// The name of a file at a key, if the key holds one.
pub fn file_name_at<'a>(table: &'a Table, key: &str) -> Option<&'a [u8]>
    ensures { option_copied result ≡ file_name_at key.now (table_view table.now) }
{
    match text_at(table, key) {
        Some(name) if is_file_name(name) => Some(name),
        _ => None,
    }
}

/// The name of a cell type, an instance or a pin at a key, if the key holds one.
pub fn name_at<'a>(table: &'a Table, key: &str) -> Option<&'a [u8]>
    ensures { option_copied result ≡ name_at key.now (table_view table.now) }
{
    match text_at(table, key) {
        Some(name) if is_name(name) => Some(name),
        _ => None,
    }
}

impl FromValue for Name {
    ghost given_by = { name_of };

    fn from_value(alloc: Global, value: &Value) -> Result<Option<Name>, Memory> {
        match value.as_str() {
            Some(text) if is_name(text.as_bytes()) => {
                Ok(Some(Name::from_bytes(alloc, text.as_bytes())?))
            }
            _ => Ok(None),
        }
    }
}

/// The name of the one corner, if there is exactly one.
#[tactic(auto, unfolding(crate::specs::JobFormNames::corner_name_at))]
pub fn corner_name_at(table: &Table) -> Option<&[u8]>
    ensures { option_copied result ≡ corner_name_at (table_view table.now) }
{
    let Some(corners) = array_at(table, "corner") else {
        return None;
    };
    let Some(corner) = only_item(corners) else {
        return None;
    };
    match corner.as_table() {
        Some(corner) => corner_name_of(corner),
        None => None,
    }
}

/// The name in a corner's table, if it says a name and nothing else.
fn corner_name_of(corner: &Table) -> Option<&[u8]>
    ensures { option_copied result ≡ corner_name_of (table_view corner.now) }
{
    if !JobTable::Corner.has_all_keys(corner) {
        return None;
    }
    match text_at(corner, "name") {
        Some(name) if is_corner_name(name) => Some(name),
        _ => None,
    }
}

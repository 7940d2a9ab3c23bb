//! Values of a table by their keys.
ghost use Rattle.std.specs.Prelude.{◌≡◌, option_map, option_copied};
ghost use Rattle.toml.specs.Data.{get_member};
ghost use Rattle.toml.specs.View.{view, table_view, array_view};
ghost use Rattle.hold_cli.specs.JobFormKeys.{text_at, integer_at, array_at, only_item};

use toml::value::Array;
use toml::{Table, Value};

/// The value at a key.
pub fn value_at<'a>(table: &'a Table, key: &str) -> Option<&'a Value>
    ensures { option_map (λ v. view v.now) result ≡ get_member key.now (table_view table.now) }
{
    table.get(key)
}

/// The text at a key, if the key holds a text.
pub fn text_at<'a>(table: &'a Table, key: &str) -> Option<&'a [u8]>
    ensures { option_copied result ≡ text_at key.now (table_view table.now) }
{
    match value_at(table, key) {
        Some(value) => match value.as_str() {
            Some(text) => Some(text.as_bytes()),
            None => None,
        },
        None => None,
    }
}

/// The whole number at a key, if the key holds one.
pub fn integer_at(table: &Table, key: &str) -> Option<i64>
    ensures { result ≡ integer_at key.now (table_view table.now) }
{
    match value_at(table, key) {
        Some(value) => value.as_integer(),
        None => None,
    }
}

/// The list at a key, if the key holds one.
pub fn array_at<'a>(table: &'a Table, key: &str) -> Option<&'a Array>
    ensures { option_map (λ v. array_view v.now) result ≡ array_at key.now (table_view table.now) }
{
    match value_at(table, key) {
        Some(value) => value.as_array(),
        None => None,
    }
}

/// The item of a list that has exactly one.
#[tactic(auto, using(crate::proofs::JobFormLemmas::only_item_one, crate::proofs::JobFormLemmas::only_item_other))]
pub fn only_item(items: &Array) -> Option<&Value>
    ensures { option_map (λ v. view v.now) result ≡ only_item (array_view items.now) }
{
    match items.as_slice() {
        [item] => Some(item),
        _ => None,
    }
}

//! The rows of a document, by key.

ghost use Rattle.std.specs.Prelude.{◌≡◌, map, option_map};
ghost use Rattle.toml.specs.Data.{as_array, get_member};
ghost use Rattle.toml.specs.View.{table_view, view};
ghost use Rattle.hg_policy_text.specs.Document.{tree_of};
ghost use Rattle.hg_policy_text.specs.Faults.{Gives, or_fault, not_toml};
ghost use Rattle.hg_show.specs.Rows.{elements_at, elements_or_none, is_empty_at, rows_at};
ghost use Rattle.hg_show.specs.Rows.{text_at, text_in, text_of};

use hg_policy_text::PolicyFault;
use std::alloc::Global;
use toml::{Table, Value};

/// The tree of a document.
pub(crate) fn tree(alloc: Global, text: &[u8]) -> Result<Table, PolicyFault>
    ensures { Gives (λ table. table_view table) result (or_fault not_toml (tree_of text.now)) }
{
    match toml::table_from_slice(alloc, text) {
        Ok(table) => Ok(table),
        Err(fault) => {
            if fault.is_memory() {
                Err(PolicyFault::Memory)
            } else {
                Err(PolicyFault::NotToml)
            }
        }
    }
}

/// The value at a key, if there is one.
fn field<'a>(table: &'a Table, key: &str) -> Option<&'a Value>
    ensures { option_map (λ value. view value.now) result
        ≡ get_member key.now (table_view table.now) }
{
    table.get(key)
}

/// The elements of an array, and none of another value.
fn elements(value: &Value) -> &[Value]
    ensures { map view result.now ≡ elements_or_none (as_array (view value.now)) }
{
    match value.as_array() {
        Some(array) => array.as_slice(),
        None => &[],
    }
}

/// The elements of the array at a key.
pub fn rows<'a>(table: &'a Table, key: &str) -> &'a [Value]
    ensures { map view result.now ≡ rows_at key.now (table_view table.now) }
{
    match field(table, key) {
        Some(value) => elements(value),
        None => &[],
    }
}

/// The elements of the array at a key of a row.
pub(crate) fn elements_at<'a>(row: &'a Value, key: &str) -> &'a [Value]
    ensures { map view result.now ≡ elements_at key.now (view row.now) }
{
    match row.as_table() {
        Some(table) => rows(table, key),
        None => &[],
    }
}

/// Whether that array has no element.
pub(crate) fn is_empty_at(row: &Value, key: &str) -> bool
    ensures { result ≡ is_empty_at key.now (view row.now) }
{
    elements_at(row, key).is_empty()
}

/// The text that a value is, and no text of another one.
pub(crate) fn text_of(value: &Value) -> &str
    ensures { result.now ≡ text_of (view value.now) }
{
    match value.as_str() {
        Some(text) => text,
        None => "",
    }
}

/// The text that stands somewhere, if any.
fn text_in<'a>(value: Option<&'a Value>) -> &'a str
    ensures { result.now ≡ text_in (option_map (λ value. view value.now) value.entry) }
{
    match value {
        Some(value) => text_of(value),
        None => "",
    }
}

/// The text at a key of a row.
pub fn text_at<'a>(row: &'a Value, key: &str) -> &'a str
    ensures { result.now ≡ text_at key.now (view row.now) }
{
    match row.as_table() {
        Some(table) => text_in(field(table, key)),
        None => "",
    }
}

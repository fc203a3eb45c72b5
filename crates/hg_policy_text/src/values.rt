//! The values at keys.

ghost use Rattle.std.specs.Prelude.{◌≡◌, ◌≤◌, true, [], length, map, option_map, IfOk};
ghost use Rattle.toml.specs.View.{view, table_view};
ghost use Rattle.hg_policy_text.specs.Faults.{Gives, in_turn};
ghost use Rattle.hg_policy_text.specs.Values.{field_at, value_at, whole_in, whole_at, known_keys};
ghost use Rattle.hg_policy_text.specs.Values.{elements_in, with_table, entries_in, entries_at};

use crate::fault::PolicyFault;
use crate::key::{Counted, Key, Level};
use std::alloc::Global;
use toml::{Table, Value};

/// The value at a key, if there is one.
pub(crate) fn field<'a>(table: &'a Table, key: Key) -> Option<&'a Value>
    ensures { option_map (λ value. view value.now) result ≡ field_at key (table_view table.now) }
{
    table.get(key.text())
}

#[tactic(auto, unfolding(crate::specs::Values::value_at))]
pub(crate) fn value_at<'a>(table: &'a Table, key: Key) -> Result<&'a Value, PolicyFault>
    ensures { Gives (λ value. view value.now) result (value_at key (table_view table.now)) }
{
    match field(table, key) {
        Some(value) => Ok(value),
        None => Err(PolicyFault::Missing(key)),
    }
}

/// The whole number at a key, from `low` to `high`.
#[tactic(auto, unfolding(crate::specs::Values::whole_at))]
pub(crate) fn whole(table: &Table, key: Key, low: u64, high: u64) -> Result<u64, PolicyFault>
    ensures value { Gives (λ n. n) result (whole_at key low high (table_view table.now)) }
    ensures range { IfOk result (λ n. n ≤ high) }
{
    let value = value_at(table, key)?;
    whole_in(value, key, low, high)
}

pub(crate) fn whole_in(value: &Value, key: Key, low: u64, high: u64) -> Result<u64, PolicyFault>
    ensures value { Gives (λ n. n) result (whole_in key low high (view value.now)) }
    ensures range { IfOk result (λ n. n ≤ high) }
{
    match value.as_integer() {
        Some(n) if n >= 0 && low <= n as u64 && n as u64 <= high => Ok(n as u64),
        _ => Err(PolicyFault::Kind(key)),
    }
}

/// A key that such a table may not have is a fault.
pub(crate) fn known(alloc: Global, level: Level, table: &Table) -> Result<(), PolicyFault>
    ensures { Gives (λ _. true) result (known_keys level (table_view table.now)) }
{
    for key in table.keys() {
        if !level.knows(key.as_str()) {
            return Err(PolicyFault::Unknown(String::from_str(alloc, key.as_str())?));
        }
    }
    Ok(())
}

/// The entries at a key, at most so many.
#[tactic(auto, unfolding(crate::specs::Values::entries_at))]
pub(crate) fn entries<'a>(
    alloc: Global,
    table: &'a Table,
    key: Key,
    counted: Counted,
    most: usize,
) -> Result<Vec<&'a Table>, PolicyFault>
    ensures entries { Gives (λ entries. map (λ entry. table_view entry.now) entries.items) result
        (entries_at key counted most (table_view table.now)) }
    ensures few { IfOk result (λ entries. length entries.items ≤ most) }
{
    let value = value_at(table, key)?;
    let entries = entries_in(alloc, value, key)?;
    if most < entries.len() {
        return Err(PolicyFault::TooMany(counted));
    }
    Ok(entries)
}

/// The tables of an array that has nothing else.
#[tactic(auto, unfolding(crate::specs::Values::entries_in))]
pub(crate) fn entries_in<'a>(
    alloc: Global,
    value: &'a Value,
    key: Key,
) -> Result<Vec<&'a Table>, PolicyFault>
    ensures { Gives (λ entries. map (λ entry. table_view entry.now) entries.items) result
        (entries_in key (view value.now)) }
{
    let array = elements(value, key)?;
    tables_in(alloc, array, key)
}

/// The elements of an array.
pub(crate) fn elements<'a>(value: &'a Value, key: Key) -> Result<&'a Vec<Value>, PolicyFault>
    ensures { Gives (λ array. map view array.now.items) result (elements_in key (view value.now)) }
{
    match value.as_array() {
        Some(array) => Ok(array),
        None => Err(PolicyFault::Kind(key)),
    }
}

fn tables_in<'a>(
    alloc: Global,
    array: &'a Vec<Value>,
    key: Key,
) -> Result<Vec<&'a Table>, PolicyFault>
    ensures { Gives (λ entries. map (λ entry. table_view entry.now) entries.items) result
        (in_turn (with_table key) [] (map view array.now.items)) }
{
    let mut tables = Vec::with_capacity(alloc, array.len())?;
    for element in array {
        match element.as_table() {
            Some(table) => tables.push(table)?,
            None => return Err(PolicyFault::Kind(key)),
        }
    }
    Ok(tables)
}

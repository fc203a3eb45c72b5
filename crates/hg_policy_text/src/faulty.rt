//! At which row of a document its first fault stands.

ghost use Rattle.std.specs.Prelude.{◌≡◌, ◌≤◌, length, map, position, is_none, IfOk};
ghost use Rattle.toml.specs.Data.{as_table};
ghost use Rattle.toml.specs.View.{view, table_view};
ghost use Rattle.hg_policy.specs.Kept.{tenants_of};
ghost use Rattle.hg_policy_text.specs.ReadTables.{heads_of, groups_of};
ghost use Rattle.hg_policy_text.specs.Values.{field_at};
ghost use Rattle.hg_policy_text.specs.Heads.{AreHeads};
ghost use Rattle.hg_policy_text.specs.Tenants.{tenants_in};
ghost use Rattle.hg_policy_text.specs.Groups.{groups_in};
ghost use Rattle.hg_policy_text.specs.Arenas.{arenas_in};
ghost use Rattle.hg_policy_text.specs.Lines.{lines_in};
ghost use Rattle.hg_policy_text.specs.FaultyRow.{Tells, row_in, row_of_tables, row_behind_tenants};
ghost use Rattle.hg_policy_text.specs.FaultyRow.{row_behind_groups, row_of_lines, element_in, row_at};
ghost use Rattle.hg_policy_text.specs.FaultyRow.{faulty_row};

use crate::arenas::arenas;
use crate::document::{heads, tree};
use crate::fault::PolicyFault;
use crate::groups::groups;
use crate::heads::Heads;
use crate::key::Key;
use crate::lines::read_line;
use crate::row::Row;
use crate::tenants::tenants;
use crate::values::field;
use hg_policy::TenantSet;
use indexmap::IndexMap;
use std::alloc::{AllocError, Global};
use toml::{Table, Value};

/// The row at which the first fault of a document stands: none where the document is a policy, and
/// none where its fault is of no one row. Those are a text that is no TOML, a version, a key or a
/// count of the document itself, and a table that is no array.
///
/// It reads the document once more, and the rows of a table of tenants, groups or arenas that is
/// refused once for each row up to the faulty one.
pub fn faulty_row(alloc: Global, text: &[u8]) -> Result<Option<Row>, AllocError>
    ensures { IfOk result (λ row. row ≡ faulty_row text.now) }
{
    match if_read(tree(alloc, text))? {
        Some(table) => row_at(alloc, &table),
        None => Ok(None),
    }
}

/// What was read, or nothing where the document has a fault.
fn if_read<T: Drop>(read: Result<T, PolicyFault>) -> Result<Option<T>, AllocError>
    ensures { IfOk result (λ found. Tells read found) }
{
    match read {
        Ok(value) => Ok(Some(value)),
        Err(PolicyFault::Memory) => Err(AllocError),
        Err(_) => Ok(None),
    }
}

fn row_at(alloc: Global, table: &Table) -> Result<Option<Row>, AllocError>
    ensures { IfOk result (λ row. row ≡ row_at (table_view table.now)) }
{
    match heads(alloc, table) {
        Ok(heads) => row_of_tables(alloc, &heads),
        Err(PolicyFault::Memory) => Err(AllocError),
        Err(PolicyFault::Kind(key)) if key.has_rows() => Ok(element_row(table, key)),
        Err(_) => Ok(None),
    }
}

/// The first element of an array at a key that is no table.
fn element_row(document: &Table, table: Key) -> Option<Row>
    ensures { result ≡ element_in table (field_at table (table_view document.now)) }
{
    let elements = field(document, table)?.as_array()?;
    let number = no_table(elements.as_slice())?;
    Some(Row {
        table,
        number,
        rows: elements.len(),
    })
}

/// The first that is no table.
fn no_table(elements: &[Value]) -> Option<usize>
    ensures { result ≡ position (λ element. is_none (as_table (view element))) elements.now }
{
    elements
        .iter()
        .position(|element| element.as_table().is_none())
}

fn row_of_tables(alloc: Global, heads: &Heads<'_>) -> Result<Option<Row>, AllocError>
    requires { AreHeads (heads_of heads.now) }
    ensures { IfOk result (λ row. row ≡ row_of_tables (heads_of heads.now)) }
{
    let entries = heads.tenants.as_slice();
    match if_read(tenants(alloc, entries))? {
        Some(tenants) => row_behind_tenants(alloc, &tenants, heads),
        None => tenant_row(alloc, entries),
    }
}

fn row_behind_tenants(
    alloc: Global,
    tenants: &IndexMap<String, u32>,
    heads: &Heads<'_>,
) -> Result<Option<Row>, AllocError>
    requires few { length tenants.now.entries ≤ 64 }
    requires heads { AreHeads (heads_of heads.now) }
    ensures { IfOk result (λ row. row ≡ row_behind_tenants (tenants_of tenants.now.entries)
        (heads_of heads.now)) }
{
    let entries = heads.groups.as_slice();
    match if_read(groups(alloc, tenants, entries))? {
        Some(groups) => row_behind_groups(alloc, tenants, &groups, heads),
        None => group_row(alloc, tenants, entries),
    }
}

fn row_behind_groups(
    alloc: Global,
    tenants: &IndexMap<String, u32>,
    groups: &IndexMap<String, TenantSet>,
    heads: &Heads<'_>,
) -> Result<Option<Row>, AllocError>
    requires few { length tenants.now.entries ≤ 64 }
    requires heads { AreHeads (heads_of heads.now) }
    ensures { IfOk result (λ row. row ≡ row_behind_groups (tenants_of tenants.now.entries)
        (groups_of (length tenants.now.entries) groups.now.entries) (heads_of heads.now)) }
{
    let entries = heads.arenas.as_slice();
    match if_read(arenas(alloc, tenants, groups, entries))? {
        Some(_) => row_of_lines(alloc, tenants, groups, heads),
        None => arena_row(alloc, tenants, groups, entries),
    }
}

fn row_of_lines(
    alloc: Global,
    tenants: &IndexMap<String, u32>,
    groups: &IndexMap<String, TenantSet>,
    heads: &Heads<'_>,
) -> Result<Option<Row>, AllocError>
    requires { length tenants.now.entries ≤ 64 }
    ensures { IfOk result (λ row. row ≡ row_of_lines (tenants_of tenants.now.entries)
        (groups_of (length tenants.now.entries) groups.now.entries) (heads_of heads.now)) }
{
    match line_row(alloc, tenants, groups, Key::Grant, heads.grants.as_slice())? {
        Some(row) => Ok(Some(row)),
        None => line_row(alloc, tenants, groups, Key::Deny, heads.denies.as_slice()),
    }
}

fn tenant_row(alloc: Global, entries: &[&Table]) -> Result<Option<Row>, AllocError>
    ensures { IfOk result (λ row. row ≡ row_in Key.Tenant tenants_in
        (map (λ entry. table_view entry.now) entries.now)) }
{
    for number in 0..entries.len() {
        if if_read(tenants(alloc, &entries[..number + 1]))?.is_none() {
            return Ok(Some(row(Key::Tenant, number, entries)));
        }
    }
    Ok(None)
}

fn group_row(
    alloc: Global,
    tenants: &IndexMap<String, u32>,
    entries: &[&Table],
) -> Result<Option<Row>, AllocError>
    requires { length tenants.now.entries ≤ 64 }
    ensures { IfOk result (λ row. row ≡ row_in Key.Group
        (groups_in (tenants_of tenants.now.entries))
        (map (λ entry. table_view entry.now) entries.now)) }
{
    for number in 0..entries.len() {
        if if_read(groups(alloc, tenants, &entries[..number + 1]))?.is_none() {
            return Ok(Some(row(Key::Group, number, entries)));
        }
    }
    Ok(None)
}

fn arena_row(
    alloc: Global,
    tenants: &IndexMap<String, u32>,
    groups: &IndexMap<String, TenantSet>,
    entries: &[&Table],
) -> Result<Option<Row>, AllocError>
    requires few_tenants { length tenants.now.entries ≤ 64 }
    requires few_entries { length entries.now ≤ 16 }
    ensures { IfOk result (λ row. row ≡ row_in Key.Arena
        (arenas_in (tenants_of tenants.now.entries)
        (groups_of (length tenants.now.entries) groups.now.entries))
        (map (λ entry. table_view entry.now) entries.now)) }
{
    for number in 0..entries.len() {
        if if_read(arenas(alloc, tenants, groups, &entries[..number + 1]))?.is_none() {
            return Ok(Some(row(Key::Arena, number, entries)));
        }
    }
    Ok(None)
}

/// Each line is read by itself, so each of them once.
fn line_row(
    alloc: Global,
    tenants: &IndexMap<String, u32>,
    groups: &IndexMap<String, TenantSet>,
    table: Key,
    entries: &[&Table],
) -> Result<Option<Row>, AllocError>
    requires { length tenants.now.entries ≤ 64 }
    ensures { IfOk result (λ row. row ≡ row_in table
        (lines_in (tenants_of tenants.now.entries)
        (groups_of (length tenants.now.entries) groups.now.entries))
        (map (λ entry. table_view entry.now) entries.now)) }
{
    for (number, entry) in entries.iter().enumerate() {
        if if_read(read_line(alloc, tenants, groups, *entry))?.is_none() {
            return Ok(Some(row(table, number, entries)));
        }
    }
    Ok(None)
}

fn row(table: Key, number: usize, entries: &[&Table]) -> Row
    ensures { result ≡ record { table = table; number = number; rows = length entries.now } }
{
    Row {
        table,
        number,
        rows: entries.len(),
    }
}

//! What a document has beside its version: its numbers, and the entries of its tables.

ghost use Rattle.std.specs.Prelude.{map, IfOk};
ghost use Rattle.toml.specs.View.{table_view};
ghost use Rattle.hg_policy_text.specs.Faults.{Gives};
ghost use Rattle.hg_policy_text.specs.ReadTables.{heads_of};
ghost use Rattle.hg_policy_text.specs.Heads.{workers_at, max_generation_at, group_entries_at};
ghost use Rattle.hg_policy_text.specs.Heads.{line_entries_at, heads_at, AreHeads};

use crate::fault::PolicyFault;
use crate::key::{Counted, Key};
use crate::values::{entries, entries_in, field, whole, whole_in};
use std::alloc::Global;
use toml::Table;

/// The numbers of a document, and the entries of each of its tables before they are read.
#[derive(Drop)]
pub(crate) struct Heads<'a> {
    pub(crate) workers: u8,
    pub(crate) max_generation: u32,
    pub(crate) tenants: Vec<&'a Table>,
    pub(crate) arenas: Vec<&'a Table>,
    pub(crate) groups: Vec<&'a Table>,
    pub(crate) grants: Vec<&'a Table>,
    pub(crate) denies: Vec<&'a Table>,
}

#[tactic(auto, unfolding(crate::specs::Heads::heads_at))]
pub(crate) fn read_heads<'a>(alloc: Global, table: &'a Table) -> Result<Heads<'a>, PolicyFault>
    ensures heads { Gives heads_of result (heads_at (table_view table.now)) }
    ensures ranges { IfOk result (λ heads. AreHeads (heads_of heads)) }
{
    let workers = workers(table)?;
    let max_generation = max_generation(table)?;
    let tenants = entries(alloc, table, Key::Tenant, Counted::Tenants, 64)?;
    let arenas = entries(alloc, table, Key::Arena, Counted::Arenas, 16)?;
    let groups = group_entries(alloc, table)?;
    let grants = line_entries(alloc, table, Key::Grant)?;
    let denies = line_entries(alloc, table, Key::Deny)?;
    Ok(Heads {
        workers,
        max_generation,
        tenants,
        arenas,
        groups,
        grants,
        denies,
    })
}

#[tactic(auto, unfolding(crate::specs::Heads::workers_at))]
fn workers(table: &Table) -> Result<u8, PolicyFault>
    ensures { Gives (λ n. n) result (workers_at (table_view table.now)) }
{
    let n = whole(table, Key::Workers, 1, 9_223_372_036_854_775_807)?;
    if n > 16 {
        return Err(PolicyFault::TooMany(Counted::Workers));
    }
    Ok(n as u8)
}

#[tactic(auto, unfolding(crate::specs::Heads::max_generation_at))]
fn max_generation(table: &Table) -> Result<u32, PolicyFault>
    ensures { Gives (λ n. n) result (max_generation_at (table_view table.now)) }
{
    match field(table, Key::MaxGeneration) {
        Some(value) => Ok(whole_in(value, Key::MaxGeneration, 1, 4_294_967_295)? as u32),
        None => Ok(4_294_967_295),
    }
}

#[tactic(auto, unfolding(crate::specs::Heads::group_entries_at))]
fn group_entries<'a>(alloc: Global, table: &'a Table) -> Result<Vec<&'a Table>, PolicyFault>
    ensures { Gives (λ entries. map (λ entry. table_view entry.now) entries.items) result
        (group_entries_at (table_view table.now)) }
{
    match field(table, Key::Group) {
        Some(value) => {
            let groups = entries_in(alloc, value, Key::Group)?;
            if groups.len() > 64 {
                return Err(PolicyFault::TooMany(Counted::Groups));
            }
            Ok(groups)
        }
        None => Ok(Vec::new(alloc)),
    }
}

#[tactic(auto, unfolding(crate::specs::Heads::line_entries_at))]
fn line_entries<'a>(
    alloc: Global,
    table: &'a Table,
    key: Key,
) -> Result<Vec<&'a Table>, PolicyFault>
    ensures { Gives (λ entries. map (λ entry. table_view entry.now) entries.items) result
        (line_entries_at key (table_view table.now)) }
{
    match field(table, key) {
        Some(value) => entries_in(alloc, value, key),
        None => Ok(Vec::new(alloc)),
    }
}

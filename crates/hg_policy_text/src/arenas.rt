//! The entries of arenas.

ghost use Rattle.std.specs.Prelude.{◌≡◌, ◌≤◌, ◌<◌, ◌^◌, ℕ, length, map};
ghost use Rattle.toml.specs.View.{table_view};
ghost use Rattle.hg_policy_text.specs.Faults.{Gives};
ghost use Rattle.hg_policy.specs.Kept.{tenants_of};
ghost use Rattle.hg_policy_text.specs.ReadTables.{groups_of, arenas_of};
ghost use Rattle.hg_policy_text.specs.Arenas.{with_arena, arena_at, arenas_in};
ghost use Rattle.hg_policy.specs.TenantSets.{flags_of};

use crate::exclusive::admitted;
use crate::fault::PolicyFault;
use crate::key::{Counted, Key, Level};
use crate::name_form::name;
use crate::values::{known, whole};
use hg_place::MAX_SEGMENTS;
use hg_policy::TenantSet;
use indexmap::IndexMap;
use std::alloc::Global;
use toml::Table;

/// By arena its name and the tenants that it admits, and by segment its arena.
#[derive(Drop)]
pub(crate) struct ArenaTables {
    pub(crate) named: IndexMap<String, TenantSet>,
    pub(crate) segments: Vec<u8>,
}

/// The arenas in the order of their entries.
pub(crate) fn arenas(
    alloc: Global,
    tenants: &IndexMap<String, u32>,
    groups: &IndexMap<String, TenantSet>,
    entries: &[&Table],
) -> Result<ArenaTables, PolicyFault>
    requires few_tenants { length tenants.now.entries ≤ 64 }
    requires few_entries { length entries.now ≤ 16 }
    ensures { Gives (arenas_of (length tenants.now.entries)) result
        (arenas_in (tenants_of tenants.now.entries)
        (groups_of (length tenants.now.entries) groups.now.entries)
        (map (λ entry. table_view entry.now) entries.now)) }
{
    let mut arenas = ArenaTables {
        named: IndexMap::with_capacity(alloc, entries.len())?,
        segments: Vec::with_capacity(alloc, MAX_SEGMENTS)?,
    };
    for entry in entries {
        arena(alloc, tenants, groups, &mut arenas, *entry)?;
    }
    Ok(arenas)
}

#[tactic(auto, unfolding(crate::specs::Arenas::arena_at))]
fn arena(
    alloc: Global,
    tenants: &IndexMap<String, u32>,
    groups: &IndexMap<String, TenantSet>,
    arenas: &mut ArenaTables,
    entry: &Table,
) -> Result<(), PolicyFault>
    requires few_tenants { length tenants.now.entries ≤ 64 }
    requires few { length arenas.old.named.entries < 256 }
    ensures { Gives (λ _. arenas_of (length tenants.now.entries) arenas.new) result
        (arena_at (tenants_of tenants.now.entries)
        (groups_of (length tenants.now.entries) groups.now.entries)
        (arenas_of (length tenants.now.entries) arenas.old) (table_view entry.now)) }
{
    known(alloc, Level::Arena, entry)?;
    let name = name(entry, Key::Name)?;
    let segments = whole(entry, Key::Segments, 0, 9_223_372_036_854_775_807)?;
    let admitted = admitted(alloc, tenants, groups, entry)?;
    add_arena(alloc, arenas, name, segments, admitted)
}

fn add_arena(
    alloc: Global,
    arenas: &mut ArenaTables,
    name: &str,
    segments: u64,
    admitted: TenantSet,
) -> Result<(), PolicyFault>
    requires few { length arenas.old.named.entries < 256 }
    requires fits { segments < 2 ^ 63 }
    ensures { (tenants : ℕ) → Gives (λ _. arenas_of tenants arenas.new) result
        (with_arena (arenas_of tenants arenas.old) name.now segments (flags_of tenants admitted)) }
{
    let name = String::from_str(alloc, name)?;
    if arenas.named.contains_key(name.as_str()) {
        return Err(PolicyFault::Repeated(name));
    }
    let total = arenas.segments.len() as u64 + segments;
    if total > MAX_SEGMENTS as u64 {
        return Err(PolicyFault::TooMany(Counted::Segments));
    }
    let number = arenas.named.len() as u8;
    arenas.segments.resize(total as usize, number)?;
    arenas.named.insert(name, admitted)?;
    Ok(())
}

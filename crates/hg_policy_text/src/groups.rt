//! The entries of groups, and for whom a name stands.

ghost use Rattle.std.specs.Prelude.{◌≡◌, ◌≤◌, [], length, map};
ghost use Rattle.toml.specs.View.{view, table_view};
ghost use Rattle.hg_policy_text.specs.Faults.{Gives, in_turn};
ghost use Rattle.hg_policy.specs.Kept.{tenants_of};
ghost use Rattle.hg_policy_text.specs.ReadTables.{groups_of};
ghost use Rattle.hg_policy.specs.TenantSets.{just};
ghost use Rattle.hg_policy.specs.TenantSets.{flags_of};
ghost use Rattle.hg_policy_text.specs.Groups.{and_member, group_members_in, with_group, group_at};
ghost use Rattle.hg_policy_text.specs.Groups.{groups_in, named_in, named_at};

use crate::fault::PolicyFault;
use crate::key::{Key, Level};
use crate::name_form::name;
use crate::tenants::number_in;
use crate::values::{elements, known, value_at};
use hg_policy::TenantSet;
use indexmap::IndexMap;
use std::alloc::Global;
use toml::{Table, Value};

/// Names and members of the groups, in the order of their entries.
pub(crate) fn groups(
    alloc: Global,
    tenants: &IndexMap<String, u32>,
    entries: &[&Table],
) -> Result<IndexMap<String, TenantSet>, PolicyFault>
    requires { length tenants.now.entries ≤ 64 }
    ensures { Gives (λ groups. groups_of (length tenants.now.entries) groups.entries) result
        (groups_in (tenants_of tenants.now.entries)
        (map (λ entry. table_view entry.now) entries.now)) }
{
    let mut groups = IndexMap::with_capacity(alloc, entries.len())?;
    for entry in entries {
        group(alloc, tenants, &mut groups, *entry)?;
    }
    Ok(groups)
}

#[tactic(auto, unfolding(crate::specs::Groups::group_at))]
fn group(
    alloc: Global,
    tenants: &IndexMap<String, u32>,
    groups: &mut IndexMap<String, TenantSet>,
    entry: &Table,
) -> Result<(), PolicyFault>
    requires { length tenants.now.entries ≤ 64 }
    ensures { Gives (λ _. groups_of (length tenants.now.entries) groups.new.entries) result
        (group_at (tenants_of tenants.now.entries)
        (groups_of (length tenants.now.entries) groups.old.entries) (table_view entry.now)) }
{
    known(alloc, Level::Group, entry)?;
    let name = name(entry, Key::Name)?;
    let value = value_at(entry, Key::Members)?;
    let members = members(alloc, tenants, value)?;
    add_group(alloc, tenants, groups, name, members)
}

/// The tenants that a list of members names.
fn members(
    alloc: Global,
    tenants: &IndexMap<String, u32>,
    value: &Value,
) -> Result<TenantSet, PolicyFault>
    requires { length tenants.now.entries ≤ 64 }
    ensures { Gives (flags_of (length tenants.now.entries)) result
        (group_members_in (tenants_of tenants.now.entries) (view value.now)) }
{
    let names = elements(value, Key::Members)?;
    members_of(alloc, tenants, names)
}

fn members_of(
    alloc: Global,
    tenants: &IndexMap<String, u32>,
    names: &Vec<Value>,
) -> Result<TenantSet, PolicyFault>
    requires { length tenants.now.entries ≤ 64 }
    ensures { Gives (flags_of (length tenants.now.entries)) result
        (in_turn (and_member (tenants_of tenants.now.entries))
        (just (length (tenants_of tenants.now.entries)) []) (map view names.now.items)) }
{
    let mut members = TenantSet::none();
    for name in names {
        let tenant = number_in(alloc, tenants, name, Key::Members)?;
        members = members.with(tenant);
    }
    Ok(members)
}

fn add_group(
    alloc: Global,
    tenants: &IndexMap<String, u32>,
    groups: &mut IndexMap<String, TenantSet>,
    name: &str,
    members: TenantSet,
) -> Result<(), PolicyFault>
    ensures { Gives (λ _. groups_of (length tenants.now.entries) groups.new.entries) result
        (with_group (tenants_of tenants.now.entries)
        (groups_of (length tenants.now.entries) groups.old.entries) name.now
        (flags_of (length tenants.now.entries) members)) }
{
    let name = String::from_str(alloc, name)?;
    if tenants.contains_key(name.as_str()) {
        return Err(PolicyFault::Repeated(name));
    }
    if groups.contains_key(name.as_str()) {
        return Err(PolicyFault::Repeated(name));
    }
    groups.insert(name, members)?;
    Ok(())
}

/// For whom the text at a key stands: a tenant alone, or the members of a group.
#[tactic(auto, unfolding(crate::specs::Groups::named_at))]
pub(crate) fn named(
    alloc: Global,
    tenants: &IndexMap<String, u32>,
    groups: &IndexMap<String, TenantSet>,
    table: &Table,
    key: Key,
) -> Result<TenantSet, PolicyFault>
    requires { length tenants.now.entries ≤ 64 }
    ensures { Gives (flags_of (length tenants.now.entries)) result
        (named_at key (tenants_of tenants.now.entries)
        (groups_of (length tenants.now.entries) groups.now.entries) (table_view table.now)) }
{
    let value = value_at(table, key)?;
    named_in(alloc, tenants, groups, value, key)
}

/// For whom a text stands.
pub(crate) fn named_in(
    alloc: Global,
    tenants: &IndexMap<String, u32>,
    groups: &IndexMap<String, TenantSet>,
    value: &Value,
    key: Key,
) -> Result<TenantSet, PolicyFault>
    requires { length tenants.now.entries ≤ 64 }
    ensures { Gives (flags_of (length tenants.now.entries)) result
        (named_in key (tenants_of tenants.now.entries)
        (groups_of (length tenants.now.entries) groups.now.entries) (view value.now)) }
{
    let Some(text) = value.as_str() else {
        return Err(PolicyFault::Kind(key));
    };
    match tenants.get_index_of(text) {
        Some(tenant) => Ok(TenantSet::none().with(tenant as u8)),
        None => match groups.get(text) {
            Some(members) => Ok(*members),
            None => Err(PolicyFault::NoSuchName(String::from_str(alloc, text)?)),
        },
    }
}

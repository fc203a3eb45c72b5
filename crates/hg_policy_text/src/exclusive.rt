//! Which tenants an arena admits.

ghost use Rattle.std.specs.Prelude.{◌≡◌, ◌≤◌, [], length, map};
ghost use Rattle.toml.specs.View.{view, table_view};
ghost use Rattle.hg_policy_text.specs.Faults.{Gives, in_turn};
ghost use Rattle.hg_policy.specs.Kept.{tenants_of};
ghost use Rattle.hg_policy_text.specs.ReadTables.{groups_of};
ghost use Rattle.hg_policy_text.specs.Arenas.{admitted_at, admitted_in, with_named};
ghost use Rattle.hg_policy.specs.TenantSets.{just, flags_of};

use crate::fault::PolicyFault;
use crate::groups::named_in;
use crate::key::Key;
use crate::values::{elements, field};
use hg_policy::TenantSet;
use indexmap::IndexMap;
use std::alloc::Global;
use toml::{Table, Value};

/// The tenants that the arena of an entry admits.
#[tactic(auto, unfolding(crate::specs::Arenas::admitted_at))]
pub(crate) fn admitted(
    alloc: Global,
    tenants: &IndexMap<String, u32>,
    groups: &IndexMap<String, TenantSet>,
    entry: &Table,
) -> Result<TenantSet, PolicyFault>
    requires { length tenants.now.entries ≤ 64 }
    ensures { Gives (flags_of (length tenants.now.entries)) result
        (admitted_at (tenants_of tenants.now.entries)
        (groups_of (length tenants.now.entries) groups.now.entries) (table_view entry.now)) }
{
    match field(entry, Key::Exclusive) {
        Some(value) => exclusive(alloc, tenants, groups, value),
        None => Ok(TenantSet::each()),
    }
}

fn exclusive(
    alloc: Global,
    tenants: &IndexMap<String, u32>,
    groups: &IndexMap<String, TenantSet>,
    value: &Value,
) -> Result<TenantSet, PolicyFault>
    requires { length tenants.now.entries ≤ 64 }
    ensures { Gives (flags_of (length tenants.now.entries)) result
        (admitted_in (tenants_of tenants.now.entries)
        (groups_of (length tenants.now.entries) groups.now.entries) (view value.now)) }
{
    let names = elements(value, Key::Exclusive)?;
    just_named(alloc, tenants, groups, names)
}

/// Those for whom the names stand.
fn just_named(
    alloc: Global,
    tenants: &IndexMap<String, u32>,
    groups: &IndexMap<String, TenantSet>,
    names: &Vec<Value>,
) -> Result<TenantSet, PolicyFault>
    requires { length tenants.now.entries ≤ 64 }
    ensures { Gives (flags_of (length tenants.now.entries)) result
        (in_turn (with_named (tenants_of tenants.now.entries)
        (groups_of (length tenants.now.entries) groups.now.entries))
        (just (length (tenants_of tenants.now.entries)) []) (map view names.now.items)) }
{
    let mut admitted = TenantSet::none();
    for name in names {
        let named = named_in(alloc, tenants, groups, name, Key::Exclusive)?;
        admitted = admitted.or(named);
    }
    Ok(admitted)
}

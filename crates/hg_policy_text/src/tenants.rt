//! The entries of tenants.

ghost use Rattle.std.specs.Prelude.{◌≡◌, ◌≤◌, length, map};
ghost use Rattle.toml.specs.View.{view, table_view};
ghost use Rattle.hg_policy_text.specs.Faults.{Gives};
ghost use Rattle.hg_policy.specs.Kept.{tenants_of};
ghost use Rattle.hg_policy_text.specs.Tenants.{with_tenant, tenant_at, tenants_in, number_in};

use crate::fault::PolicyFault;
use crate::key::{Key, Level};
use crate::name_form::name;
use crate::values::{known, whole};
use indexmap::IndexMap;
use std::alloc::Global;
use toml::{Table, Value};

/// Names and limits of the tenants, in the order of their entries.
pub(crate) fn tenants(
    alloc: Global,
    entries: &[&Table],
) -> Result<IndexMap<String, u32>, PolicyFault>
    ensures { Gives (λ tenants. tenants_of tenants.entries) result
        (tenants_in (map (λ entry. table_view entry.now) entries.now)) }
{
    let mut tenants = IndexMap::with_capacity(alloc, entries.len())?;
    for entry in entries {
        tenant(alloc, &mut tenants, *entry)?;
    }
    Ok(tenants)
}

#[tactic(auto, unfolding(crate::specs::Tenants::tenant_at))]
fn tenant(
    alloc: Global,
    tenants: &mut IndexMap<String, u32>,
    entry: &Table,
) -> Result<(), PolicyFault>
    ensures { Gives (λ _. tenants_of tenants.new.entries) result
        (tenant_at (tenants_of tenants.old.entries) (table_view entry.now)) }
{
    known(alloc, Level::Tenant, entry)?;
    let name = name(entry, Key::Name)?;
    let limit = whole(entry, Key::Limit, 0, 4_294_967_295)? as u32;
    add_tenant(alloc, tenants, name, limit)
}

fn add_tenant(
    alloc: Global,
    tenants: &mut IndexMap<String, u32>,
    name: &str,
    limit: u32,
) -> Result<(), PolicyFault>
    ensures { Gives (λ _. tenants_of tenants.new.entries) result
        (with_tenant (tenants_of tenants.old.entries) name.now limit) }
{
    let name = String::from_str(alloc, name)?;
    if tenants.contains_key(name.as_str()) {
        return Err(PolicyFault::Repeated(name));
    }
    tenants.insert(name, limit)?;
    Ok(())
}

/// The number of the tenant that a text names.
pub(crate) fn number_in(
    alloc: Global,
    tenants: &IndexMap<String, u32>,
    value: &Value,
    key: Key,
) -> Result<u8, PolicyFault>
    requires { length tenants.now.entries ≤ 64 }
    ensures { Gives (λ n. n) result
        (number_in key (tenants_of tenants.now.entries) (view value.now)) }
{
    match value.as_str() {
        Some(text) => match tenants.get_index_of(text) {
            Some(tenant) => Ok(tenant as u8),
            None => Err(PolicyFault::NoSuchName(String::from_str(alloc, text)?)),
        },
        None => Err(PolicyFault::Kind(key)),
    }
}

//! For whom a name in a row stands.

ghost use Rattle.std.specs.Prelude.{◌≡◌, map, IfOk};
ghost use Rattle.std.specs.List.{list_any};
ghost use Rattle.toml.specs.View.{view};
ghost use Rattle.hg_show.specs.Meant.{has_member, is_meant, is_text, meant, stands_for};

use crate::by_key::{elements_at, text_at, text_of};
use crate::parts::name_of;
use hg_policy::Policy;
use std::alloc::{AllocError, Global};
use toml::Value;

fn is_text(text: &str, value: &Value) -> bool
    ensures { result ≡ is_text text.now (view value.now) }
{
    text_of(value) == text
}

/// Whether some value is this text.
fn is_some_text(text: &str, values: &[Value]) -> bool
    ensures { result ≡ list_any (is_text text.now) (map view values.now) }
{
    values.iter().any(|value| is_text(text, value))
}

/// Whether a row is of a group of this name that has a tenant among its members.
fn has_member(name: &str, tenant: &str, group: &Value) -> bool
    ensures { result ≡ has_member name.now tenant.now (view group.now) }
{
    text_at(group, "name") == name && is_some_text(tenant, elements_at(group, "members"))
}

/// Whether a tenant is a member of a group of this name.
fn is_member(groups: &[Value], name: &str, tenant: &str) -> bool
    ensures { result ≡ list_any (has_member name.now tenant.now) (map view groups.now) }
{
    groups.iter().any(|group| has_member(name, tenant, group))
}

/// Whether a name stands for a tenant.
fn stands_for(groups: &[Value], name: &str, tenant: &str) -> bool
    ensures { result ≡ stands_for (map view groups.now) name.now tenant.now }
{
    tenant == name || is_member(groups, name, tenant)
}

fn is_meant(policy: &Policy, groups: &[Value], name: &str, tenant: u8) -> bool
    ensures { result ≡ is_meant policy.now (map view groups.now) name.now tenant }
{
    stands_for(groups, name, name_of(policy, tenant))
}

/// The tenants for whom a name stands.
pub(crate) fn meant(
    alloc: Global,
    policy: &Policy,
    groups: &[Value],
    name: &str,
) -> Result<Vec<u8>, AllocError>
    ensures { IfOk result (λ tenants. tenants.items
        ≡ meant policy.now (map view groups.now) name.now) }
{
    (0..policy.tenants())
        .filter(|tenant| is_meant(policy, groups, name, *tenant))
        .collect(alloc)
}

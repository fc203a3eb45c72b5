//! Tenants as JSON.

ghost use Rattle.std.specs.Prelude.{◌≡◌, map, IfOk};
ghost use Rattle.std.specs.List.{flat_map};
ghost use Rattle.toml.specs.View.{view};
ghost use Rattle.hg_show.specs.Json.{arena_value, tenant_object};
ghost use Rattle.hg_show.specs.Parts.{tenants_in};
ghost use Rattle.hg_show.specs.Rows.{names_in};
ghost use Rattle.hg_show.specs.Texts.{texts_in};

use crate::by_key::text_at;
use crate::json::{add_quoted_where, push_array, push_quoted};
use crate::parts::{limit_of, may_be_in, name_of};
use crate::push::{push, push_count};
use crate::texts::add;
use hg_policy::Policy;
use std::alloc::{AllocError, Global};
use toml::Value;

/// The names of the arenas that a tenant may be in.
fn arena_values(
    alloc: Global,
    policy: &Policy,
    arenas: &[Value],
    tenant: u8,
) -> Result<Vec<Vec<u8>>, AllocError>
    ensures { IfOk result (λ values. texts_in values.items
        ≡ flat_map (arena_value policy.now tenant) (names_in (map view arenas.now))) }
{
    let mut values = Vec::new(alloc);
    for arena in arenas {
        let name = text_at(arena, "name");
        add_quoted_where(alloc, &mut values, may_be_in(policy, name, tenant), name)?;
    }
    Ok(values)
}

/// A tenant: its limit, and where it may be.
#[tactic(auto, unfolding(crate::specs::Json::tenant_object))]
fn tenant_object(
    alloc: Global,
    policy: &Policy,
    arenas: &[Value],
    tenant: u8,
) -> Result<Vec<u8>, AllocError>
    ensures { IfOk result (λ text. text.items
        ≡ tenant_object policy.now (names_in (map view arenas.now)) tenant) }
{
    let values = arena_values(alloc, policy, arenas, tenant)?;
    let mut text = Vec::new(alloc);
    push(&mut text, "{\"name\":")?;
    push_quoted(&mut text, name_of(policy, tenant).as_bytes())?;
    push_count(&mut text, ",\"limit\":", limit_of(policy, tenant))?;
    push(&mut text, ",\"arenas\":")?;
    push_array(&mut text, values.as_slice())?;
    push(&mut text, "}")?;
    Ok(text)
}

/// Each tenant.
pub(crate) fn tenant_objects(
    alloc: Global,
    policy: &Policy,
    arenas: &[Value],
) -> Result<Vec<Vec<u8>>, AllocError>
    ensures { IfOk result (λ texts. texts_in texts.items
        ≡ map (tenant_object policy.now (names_in (map view arenas.now)))
        (tenants_in policy.now)) }
{
    let mut texts = Vec::new(alloc);
    for tenant in 0..policy.tenants() {
        add(&mut texts, tenant_object(alloc, policy, arenas, tenant)?)?;
    }
    Ok(texts)
}

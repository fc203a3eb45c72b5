//! Arenas as JSON.

ghost use Rattle.std.specs.Prelude.{◌≡◌, map, IfOk};
ghost use Rattle.std.specs.List.{flat_map};
ghost use Rattle.toml.specs.View.{view};
ghost use Rattle.hg_show.specs.Json.{arena_object, tenant_value};
ghost use Rattle.hg_show.specs.Parts.{tenants_in};
ghost use Rattle.hg_show.specs.Rows.{names_in};
ghost use Rattle.hg_show.specs.Texts.{texts_in};

use crate::by_key::text_at;
use crate::json::{add_quoted_where, push_array, push_quoted};
use crate::parts::{may_be_in, name_of, segments_at};
use crate::push::{push, push_count};
use crate::texts::add;
use hg_policy::Policy;
use std::alloc::{AllocError, Global};
use toml::Value;

/// The names of the tenants that may be in an arena.
fn tenant_values(alloc: Global, policy: &Policy, arena: &str) -> Result<Vec<Vec<u8>>, AllocError>
    ensures { IfOk result (λ values. texts_in values.items
        ≡ flat_map (tenant_value policy.now arena.now) (tenants_in policy.now)) }
{
    let mut values = Vec::new(alloc);
    for tenant in 0..policy.tenants() {
        let tells = may_be_in(policy, arena, tenant);
        add_quoted_where(alloc, &mut values, tells, name_of(policy, tenant))?;
    }
    Ok(values)
}

/// An arena: how many segments it has, and who may be in it.
#[tactic(auto, unfolding(crate::specs::Json::arena_object))]
fn arena_object(alloc: Global, policy: &Policy, arena: &str) -> Result<Vec<u8>, AllocError>
    ensures { IfOk result (λ text. text.items ≡ arena_object policy.now arena.now) }
{
    let values = tenant_values(alloc, policy, arena)?;
    let mut text = Vec::new(alloc);
    push(&mut text, "{\"name\":")?;
    push_quoted(&mut text, arena.as_bytes())?;
    push_count(
        &mut text,
        ",\"segments\":",
        segments_at(policy, arena) as u64,
    )?;
    push(&mut text, ",\"tenants\":")?;
    push_array(&mut text, values.as_slice())?;
    push(&mut text, "}")?;
    Ok(text)
}

/// Each arena.
pub(crate) fn arena_objects(
    alloc: Global,
    policy: &Policy,
    arenas: &[Value],
) -> Result<Vec<Vec<u8>>, AllocError>
    ensures { IfOk result (λ texts. texts_in texts.items
        ≡ map (arena_object policy.now) (names_in (map view arenas.now))) }
{
    let mut texts = Vec::new(alloc);
    for arena in arenas {
        add(
            &mut texts,
            arena_object(alloc, policy, text_at(arena, "name"))?,
        )?;
    }
    Ok(texts)
}

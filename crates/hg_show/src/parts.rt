//! Tenants and arenas as text.

ghost use Rattle.std.specs.Prelude.{◌≡◌, ◌<◌, ◌^◌, ◌++◌, map, OnOk};
ghost use Rattle.std.specs.List.{flat_map};
ghost use Rattle.toml.specs.View.{view};
ghost use Rattle.hg_machine.specs.Policy.{limit_of};
ghost use Rattle.hg_policy.specs.Names.{arena_number};
ghost use Rattle.hg_show.specs.Parts.{arena_line, arena_word, arenas_text, head_text};
ghost use Rattle.hg_show.specs.Parts.{is_segment_of, may_be_in, name_of, segments_at, segments_of};
ghost use Rattle.hg_show.specs.Parts.{tenant_line, tenant_word, tenants_in, tenants_text, told};
ghost use Rattle.hg_show.specs.Rows.{names_in};

use crate::by_key::text_at;
use crate::push::{push, push_count};
use hg_place::Actor;
use hg_policy::Policy;
use std::alloc::AllocError;
use toml::Value;

/// The name of a tenant.
pub(crate) fn name_of<'a>(policy: &'a Policy, tenant: u8) -> &'a str
    ensures { result.now ≡ name_of policy.now tenant }
{
    match policy.tenant_name(tenant) {
        Some(name) => name,
        None => "",
    }
}

/// Whether the arena of this name admits a tenant.
pub(crate) fn may_be_in(policy: &Policy, arena: &str, tenant: u8) -> bool
    ensures { result ≡ may_be_in policy.now arena.now tenant }
{
    match policy.arena(arena) {
        Some(arena) => policy.admits(arena, Actor(tenant)),
        None => false,
    }
}

/// Whether a segment is of an arena.
fn is_segment_of(policy: &Policy, arena: u8, segment: u8) -> bool
    ensures { result ≡ is_segment_of policy.now arena segment }
{
    match policy.arena_of(segment) {
        Some(other) => other == arena,
        None => false,
    }
}

/// How many segments an arena has.
fn segments_of(policy: &Policy, arena: u8) -> usize
    ensures { result ≡ segments_of policy.now arena }
{
    (0..policy.segments())
        .filter(|segment| is_segment_of(policy, arena, *segment))
        .count()
}

/// How many segments the arena of a name has.
pub(crate) fn segments_at(policy: &Policy, arena: &str) -> usize
    ensures { result ≡ segments_at policy.now (arena_number policy.now arena.now) }
{
    match policy.arena(arena) {
        Some(arena) => segments_of(policy, arena),
        None => 0,
    }
}

/// Appends a name behind a blank, where it is to be told.
#[tactic(auto, unfolding(crate::specs::Parts::told))]
fn push_told(out: &mut Vec<u8>, tells: bool, name: &str) -> Result<(), AllocError>
    ensures { OnOk result (out.new.items ≡ out.old.items ++ told tells name.now) }
{
    if tells {
        push(out, " ")?;
        push(out, name)?;
    }
    Ok(())
}

/// Appends how many workers and generations there are.
#[tactic(auto, unfolding(crate::specs::Parts::head_text))]
pub(crate) fn push_head(out: &mut Vec<u8>, policy: &Policy) -> Result<(), AllocError>
    ensures { OnOk result (out.new.items ≡ out.old.items ++ head_text policy.now) }
{
    push_count(out, "workers ", u64::from(policy.workers()))?;
    push_count(out, "\nmax_generation ", u64::from(policy.max_generation()))?;
    push(out, "\n")
}

/// Appends the arenas that a tenant may be in.
fn push_arena_words(
    out: &mut Vec<u8>,
    policy: &Policy,
    arenas: &[Value],
    tenant: u8,
) -> Result<(), AllocError>
    ensures { OnOk result (out.new.items ≡ out.old.items
        ++ flat_map (arena_word policy.now tenant) (names_in (map view arenas.now))) }
{
    for arena in arenas {
        let name = text_at(arena, "name");
        push_told(out, may_be_in(policy, name, tenant), name)?;
    }
    Ok(())
}

/// Appends the tenants that may be in an arena.
fn push_tenant_words(out: &mut Vec<u8>, policy: &Policy, arena: &str) -> Result<(), AllocError>
    ensures { OnOk result (out.new.items ≡ out.old.items
        ++ flat_map (tenant_word policy.now arena.now) (tenants_in policy.now)) }
{
    for tenant in 0..policy.tenants() {
        push_told(
            out,
            may_be_in(policy, arena, tenant),
            name_of(policy, tenant),
        )?;
    }
    Ok(())
}

/// How many bytes a tenant may have.
pub(crate) fn limit_of(policy: &Policy, tenant: u8) -> u64
    ensures limit { result ≡ limit_of policy.now tenant }
    ensures range { result < 2 ^ 32 }
{
    match policy.limit(tenant) {
        Some(limit) => limit,
        None => 0,
    }
}

/// Appends a tenant: its limit, and where it may be.
#[tactic(auto, unfolding(crate::specs::Parts::tenant_line))]
fn push_tenant(
    out: &mut Vec<u8>,
    policy: &Policy,
    arenas: &[Value],
    tenant: u8,
) -> Result<(), AllocError>
    ensures { OnOk result (out.new.items ≡ out.old.items
        ++ tenant_line policy.now (names_in (map view arenas.now)) tenant) }
{
    push(out, "  ")?;
    push(out, name_of(policy, tenant))?;
    push_count(out, " limit ", limit_of(policy, tenant))?;
    push(out, " arenas")?;
    push_arena_words(out, policy, arenas, tenant)?;
    push(out, "\n")
}

/// Appends a line for each tenant.
fn push_tenant_lines(out: &mut Vec<u8>, policy: &Policy, arenas: &[Value]) -> Result<(), AllocError>
    ensures { OnOk result (out.new.items ≡ out.old.items
        ++ flat_map (tenant_line policy.now (names_in (map view arenas.now)))
        (tenants_in policy.now)) }
{
    for tenant in 0..policy.tenants() {
        push_tenant(out, policy, arenas, tenant)?;
    }
    Ok(())
}

/// Appends the tenants.
#[tactic(auto, unfolding(crate::specs::Parts::tenants_text))]
pub(crate) fn push_tenants(
    out: &mut Vec<u8>,
    policy: &Policy,
    arenas: &[Value],
) -> Result<(), AllocError>
    ensures { OnOk result (out.new.items ≡ out.old.items
        ++ tenants_text policy.now (names_in (map view arenas.now))) }
{
    push_count(out, "\ntenants ", u64::from(policy.tenants()))?;
    push(out, "\n")?;
    push_tenant_lines(out, policy, arenas)
}

/// Appends an arena: how many segments it has, and who may be in it.
#[tactic(auto, unfolding(crate::specs::Parts::arena_line))]
fn push_arena(out: &mut Vec<u8>, policy: &Policy, arena: &str) -> Result<(), AllocError>
    ensures { OnOk result (out.new.items ≡ out.old.items ++ arena_line policy.now arena.now) }
{
    push(out, "  ")?;
    push(out, arena)?;
    push_count(out, " segments ", segments_at(policy, arena) as u64)?;
    push(out, " tenants")?;
    push_tenant_words(out, policy, arena)?;
    push(out, "\n")
}

/// Appends a line for each arena.
fn push_arena_lines(out: &mut Vec<u8>, policy: &Policy, arenas: &[Value]) -> Result<(), AllocError>
    ensures { OnOk result (out.new.items ≡ out.old.items
        ++ flat_map (arena_line policy.now) (names_in (map view arenas.now))) }
{
    for arena in arenas {
        push_arena(out, policy, text_at(arena, "name"))?;
    }
    Ok(())
}

/// Appends the arenas.
#[tactic(auto, unfolding(crate::specs::Parts::arenas_text))]
pub(crate) fn push_arenas(
    out: &mut Vec<u8>,
    policy: &Policy,
    arenas: &[Value],
) -> Result<(), AllocError>
    ensures { OnOk result (out.new.items ≡ out.old.items
        ++ arenas_text policy.now (names_in (map view arenas.now))) }
{
    push_count(out, "\narenas ", u64::from(policy.arenas()))?;
    push(out, "\n")?;
    push_arena_lines(out, policy, arenas)
}

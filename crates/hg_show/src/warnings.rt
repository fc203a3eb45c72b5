//! Rows that can't be of use.

ghost use Rattle.std.specs.Prelude.{◌≡◌, ◌++◌, ◌&&◌, map, IfOk, OnOk};
ghost use Rattle.std.specs.List.{flat_map, list_any};
ghost use Rattle.toml.specs.View.{table_view, view};
ghost use Rattle.hg_show.specs.Parts.{may_be_in, tenants_in};
ghost use Rattle.hg_show.specs.Rows.{names_in};
ghost use Rattle.hg_show.specs.Texts.{texts_in};
ghost use Rattle.hg_show.specs.Warnings.{arena_warnings, is_above, is_somewhere, segments_for};
ghost use Rattle.hg_show.specs.Warnings.{tenant_warnings, warning_line, warning_lines, warnings};

use crate::by_key::{rows, text_at};
use crate::groups::warn_of_groups;
use crate::lines::{warn_of_denies, warn_of_grants};
use crate::parts::{limit_of, may_be_in, name_of, segments_at};
use crate::push::push;
use crate::standings::may_hold;
use crate::texts::warn;
use hg_place::Actor;
use hg_policy::Policy;
use std::alloc::{AllocError, Global};
use toml::{Table, Value};

/// Whether some arena admits a tenant.
fn is_somewhere(policy: &Policy, tenant: u8) -> bool
    ensures { result ≡ is_somewhere policy.now tenant }
{
    (0..policy.arenas()).any(|arena| policy.admits(arena, Actor(tenant)))
}

/// How many segments the arenas have that admit a tenant.
fn segments_for(policy: &Policy, tenant: u8) -> usize
    ensures { result ≡ segments_for policy.now tenant }
{
    (0..policy.segments())
        .filter(|segment| may_hold(policy, tenant, *segment))
        .count()
}

/// Whether the limit of a tenant is more than these have bytes.
fn is_above(policy: &Policy, tenant: u8) -> bool
    ensures { result ≡ is_above policy.now tenant }
{
    let needed = (limit_of(policy, tenant) + 65_535) / 65_536;
    (segments_for(policy, tenant) as u64) < needed
}

/// Whether a tenant may be somewhere, and its limit is more than there is.
fn is_greedy(policy: &Policy, tenant: u8) -> bool
    ensures { result ≡ (is_somewhere policy.now tenant && is_above policy.now tenant) }
{
    is_somewhere(policy, tenant) && is_above(policy, tenant)
}

/// Adds what there is to warn of a tenant.
fn warn_of_tenant(
    alloc: Global,
    texts: &mut Vec<Vec<u8>>,
    policy: &Policy,
    tenant: u8,
) -> Result<(), AllocError>
    ensures { OnOk result (texts_in texts.new.items
        ≡ texts_in texts.old.items ++ tenant_warnings policy.now tenant) }
{
    let name = name_of(policy, tenant).as_bytes();
    let small = limit_of(policy, tenant) < 8;
    let lost = !is_somewhere(policy, tenant);
    let greedy = is_greedy(policy, tenant);
    warn(
        alloc,
        texts,
        small,
        "tenant ",
        name,
        ": its limit is below 8, so it can have no block",
    )?;
    warn(alloc, texts, lost, "tenant ", name, ": no arena admits it")?;
    warn(
        alloc,
        texts,
        greedy,
        "tenant ",
        name,
        ": its limit is above the bytes of the arenas that admit it",
    )?;
    Ok(())
}

/// Whether an arena admits some tenant.
fn admits_some(policy: &Policy, arena: &str) -> bool
    ensures { result ≡ list_any (may_be_in policy.now arena.now) (tenants_in policy.now) }
{
    (0..policy.tenants()).any(|tenant| may_be_in(policy, arena, tenant))
}

/// Adds what there is to warn of an arena.
fn warn_of_arena(
    alloc: Global,
    texts: &mut Vec<Vec<u8>>,
    policy: &Policy,
    arena: &str,
) -> Result<(), AllocError>
    ensures { OnOk result (texts_in texts.new.items
        ≡ texts_in texts.old.items ++ arena_warnings policy.now arena.now) }
{
    let name = arena.as_bytes();
    let is_empty = segments_at(policy, arena) == 0;
    let is_closed = !admits_some(policy, arena);
    warn(
        alloc,
        texts,
        is_empty,
        "arena ",
        name,
        ": it has no segment",
    )?;
    warn(
        alloc,
        texts,
        is_closed,
        "arena ",
        name,
        ": it admits no tenant",
    )?;
    Ok(())
}

/// Adds what there is to warn of each tenant.
fn warn_of_tenants(
    alloc: Global,
    texts: &mut Vec<Vec<u8>>,
    policy: &Policy,
) -> Result<(), AllocError>
    ensures { OnOk result (texts_in texts.new.items ≡ texts_in texts.old.items
        ++ flat_map (tenant_warnings policy.now) (tenants_in policy.now)) }
{
    for tenant in 0..policy.tenants() {
        warn_of_tenant(alloc, texts, policy, tenant)?;
    }
    Ok(())
}

/// Adds what there is to warn of each arena.
fn warn_of_arenas(
    alloc: Global,
    texts: &mut Vec<Vec<u8>>,
    policy: &Policy,
    arenas: &[Value],
) -> Result<(), AllocError>
    ensures { OnOk result (texts_in texts.new.items ≡ texts_in texts.old.items
        ++ flat_map (arena_warnings policy.now) (names_in (map view arenas.now))) }
{
    for arena in arenas {
        warn_of_arena(alloc, texts, policy, text_at(arena, "name"))?;
    }
    Ok(())
}

/// What there is to warn of a policy: of tenants, of arenas, of groups, and of lines.
#[tactic(auto, unfolding(crate::specs::Warnings::warnings))]
pub(crate) fn warnings(
    alloc: Global,
    policy: &Policy,
    table: &Table,
) -> Result<Vec<Vec<u8>>, AllocError>
    ensures { IfOk result (λ texts. texts_in texts.items
        ≡ warnings policy.now (table_view table.now)) }
{
    let groups = rows(table, "group");
    let grants = rows(table, "grant");
    let denies = rows(table, "deny");
    let mut texts = Vec::new(alloc);
    warn_of_tenants(alloc, &mut texts, policy)?;
    warn_of_arenas(alloc, &mut texts, policy, rows(table, "arena"))?;
    warn_of_groups(alloc, &mut texts, grants, denies, groups)?;
    warn_of_grants(alloc, &mut texts, policy, groups, grants)?;
    warn_of_denies(alloc, &mut texts, policy, groups, denies)?;
    Ok(texts)
}

/// Appends a warning as a line.
#[tactic(auto, unfolding(crate::specs::Warnings::warning_line))]
fn push_warning_line(out: &mut Vec<u8>, text: &[u8]) -> Result<(), AllocError>
    ensures { OnOk result (out.new.items ≡ out.old.items ++ warning_line text.now) }
{
    push(out, "warning: ")?;
    out.extend_from_slice(text)?;
    push(out, "\n")
}

/// Appends warnings as lines.
pub(crate) fn push_warnings(out: &mut Vec<u8>, texts: &[Vec<u8>]) -> Result<(), AllocError>
    ensures { OnOk result (out.new.items
        ≡ out.old.items ++ warning_lines (texts_in texts.now)) }
{
    for text in texts {
        push_warning_line(out, text.as_slice())?;
    }
    Ok(())
}

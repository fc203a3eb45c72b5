//! Names of a policy, and one that is like another.

ghost use Rattle.std.specs.Prelude.{◌≡◌, ◌++◌, IfOk, OnOk, length, map, option_map};
ghost use Rattle.std.specs.List.{range_with_len};
ghost use Rattle.hg_hints.specs.PolicyNames.{arena_at, names_of, near_text, near_to, tenant_at};

use crate::alike::near;
use crate::push::push;
use hg_policy::Policy;
use std::alloc::{AllocError, Global};

/// What a name stands for.
#[derive(Clone, Copy, Debug, PartialEq, Eq)]
pub enum Kind {
    Tenant,
    Arena,
}

/// The name of a tenant.
fn tenant_at(policy: &Policy, tenant: u8) -> &str
    ensures { result.now ≡ tenant_at policy.now tenant }
{
    policy.tenant_name(tenant).unwrap_or("")
}

/// The name of an arena.
fn arena_at(policy: &Policy, arena: u8) -> &str
    ensures { result.now ≡ arena_at policy.now arena }
{
    policy.arena_name(arena).unwrap_or("")
}

/// The names of the tenants.
fn tenants(alloc: Global, policy: &Policy) -> Result<Vec<&str>, AllocError>
    ensures { IfOk result (λ names. map (λ name. name.now) names.items
        ≡ map (tenant_at policy.now) (range_with_len 0 (length policy.now.tenants))) }
{
    let mut names = Vec::new(alloc);
    for tenant in 0..policy.tenants() {
        names.push(tenant_at(policy, tenant))?;
    }
    Ok(names)
}

/// The names of the arenas.
fn arenas(alloc: Global, policy: &Policy) -> Result<Vec<&str>, AllocError>
    ensures { IfOk result (λ names. map (λ name. name.now) names.items
        ≡ map (arena_at policy.now) (range_with_len 0 (length policy.now.arenas))) }
{
    let mut names = Vec::new(alloc);
    for arena in 0..policy.arenas() {
        names.push(arena_at(policy, arena))?;
    }
    Ok(names)
}

/// The names that a policy has of a kind.
fn names_of(alloc: Global, policy: &Policy, kind: Kind) -> Result<Vec<&str>, AllocError>
    ensures { IfOk result (λ names. map (λ name. name.now) names.items
        ≡ names_of policy.now kind) }
{
    match kind {
        Kind::Tenant => tenants(alloc, policy),
        Kind::Arena => arenas(alloc, policy),
    }
}

/// Appends a name that is like the one that is lacked, if there is one, as ` (host?)`. Its one error is
/// want of memory.
#[tactic(auto, unfolding(crate::specs::PolicyNames::near_text))]
pub fn push_near(out: &mut Vec<u8>, name: Option<&str>) -> Result<(), AllocError>
    ensures { OnOk result (out.new.items
        ≡ out.old.items ++ near_text (option_map (λ name. name.now) name.entry)) }
{
    match name {
        Some(name) => {
            push(out, " (")?;
            push(out, name)?;
            push(out, "?)")
        }
        None => Ok(()),
    }
}

/// The name of a tenant or an arena of the policy that is like another, if there is one (`near`).
/// Its one error is want of memory.
pub fn near_to<'a>(
    alloc: Global,
    policy: &'a Policy,
    kind: Kind,
    name: &str,
) -> Result<Option<&'a str>, AllocError>
    ensures { IfOk result (λ found. option_map (λ name. name.now) found
        ≡ near_to policy.now kind name.now) }
{
    let names = names_of(alloc, policy, kind)?;
    near(alloc, &names, name)
}

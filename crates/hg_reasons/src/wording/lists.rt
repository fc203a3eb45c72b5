//! Lists of tenants and rights, in words.

ghost use Rattle.std.specs.Prelude.{◌≡◌, ◌++◌, ◌∷◌, ℕ, List, [], true, IfOk, OnOk, if◌then◌else◌};
ghost use Rattle.hg_place.specs.declared.Right.{Right};
ghost use Rattle.hg_machine.specs.Policy.{lets};
ghost use Rattle.hg_reasons.specs.Wording.{admitted_from, admitted_text, rights_from, comma};
ghost use Rattle.hg_reasons.specs.Wording.{conjunction, right_text, rights_text};

use crate::reason::Between;
use crate::wording::naming::tenant_text;
use hg_place::{Actor, Right};
use hg_policy::Policy;
use hg_text::push;
use std::alloc::AllocError;

fn comma(first: bool) -> &'static str
    ensures { result.now ≡ comma first }
{
    if first { " " } else { ", " }
}

fn conjunction(first: bool) -> &'static str
    ensures { result.now ≡ conjunction first }
{
    if first { " " } else { " and " }
}

/// Appends a tenant where an arena admits it, and tells whether the next one is the first.
fn push_if_admitted(
    out: &mut Vec<u8>,
    policy: &Policy,
    arena: u8,
    tenant: u8,
    first: bool,
) -> Result<bool, AllocError>
    ensures { IfOk result (λ next. (rest : List ℕ)
        → out.new.items ++ admitted_from policy.now arena next rest
        ≡ out.old.items ++ admitted_from policy.now arena first (tenant ∷ rest)) }
{
    if !policy.admits(arena, Actor(tenant)) {
        return Ok(first);
    }
    push(out, comma(first))?;
    push(out, tenant_text(policy, tenant))?;
    Ok(false)
}

/// Appends a word where no other was.
fn push_if_first(out: &mut Vec<u8>, first: bool, word: &str) -> Result<(), AllocError>
    ensures { OnOk result (out.new.items ≡ out.old.items ++ (if first then word.now else [])) }
{
    if first {
        push(out, word)?;
    }
    Ok(())
}

/// Appends those of the tenants that an arena admits, or that it admits nobody.
pub(super) fn push_admitted(out: &mut Vec<u8>, policy: &Policy, arena: u8) -> Result<(), AllocError>
    ensures { OnOk result (out.new.items ≡ out.old.items ++ admitted_text policy.now arena) }
{
    let mut first = true;
    for tenant in 0..policy.tenants() {
        first = push_if_admitted(out, policy, arena, tenant, first)?;
    }
    push_if_first(out, first, " nobody")
}

pub(super) fn right_text(right: Right) -> &'static str
    ensures { result.now ≡ right_text right }
{
    match right {
        Right::Read => "read",
        Right::Write => "write",
        Right::List => "list",
        Right::Free => "free",
    }
}

/// Whether an owner lets an actor have a right.
fn lets(policy: &Policy, owner: u8, actor: u8, right: Right) -> bool
    ensures { result ≡ lets policy.now owner actor right }
{
    !policy.forbids(owner, Actor(actor), right) && policy.grants(owner, Actor(actor), right)
}

/// Appends a right where an owner lets an actor have it, and tells whether the next one is the
/// first.
fn push_if_let(
    out: &mut Vec<u8>,
    policy: &Policy,
    between: Between,
    first: bool,
) -> Result<bool, AllocError>
    ensures { IfOk result (λ next. (rest : List Right)
        → out.new.items ++ rights_from policy.now between.owner between.actor next rest
        ≡ out.old.items
        ++ rights_from policy.now between.owner between.actor first (between.right ∷ rest)) }
{
    if !lets(policy, between.owner, between.actor, between.right) {
        return Ok(first);
    }
    push(out, conjunction(first))?;
    push(out, right_text(between.right))?;
    Ok(false)
}

/// Appends those of these rights that an owner lets an actor have, and tells whether there are
/// none.
fn push_lets_of(
    out: &mut Vec<u8>,
    policy: &Policy,
    owner: u8,
    actor: u8,
    rights: &[Right],
) -> Result<bool, AllocError>
    ensures { IfOk result (λ none. out.new.items ++ rights_from policy.now owner actor none []
        ≡ out.old.items ++ rights_from policy.now owner actor true rights.now) }
{
    let mut first = true;
    for right in rights {
        let between = Between {
            owner,
            actor,
            right: *right,
        };
        first = push_if_let(out, policy, between, first)?;
    }
    Ok(first)
}

/// Appends those of the rights that an owner lets an actor have, or that it has none.
pub(super) fn push_rights(
    out: &mut Vec<u8>,
    policy: &Policy,
    owner: u8,
    actor: u8,
) -> Result<(), AllocError>
    ensures { OnOk result (out.new.items ≡ out.old.items ++ rights_text policy.now owner actor) }
{
    let rights = [Right::Read, Right::Write, Right::List, Right::Free];
    let none = push_lets_of(out, policy, owner, actor, &rights)?;
    push_if_first(out, none, " do nothing")
}

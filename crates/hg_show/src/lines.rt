//! Lines that grant and deny, and what there is to warn of them.

ghost use Rattle.std.specs.Prelude.{◌≡◌, ◌++◌, map, IfOk, OnOk};
ghost use Rattle.std.specs.List.{list_any};
ghost use Rattle.toml.specs.View.{view};
ghost use Rattle.hg_show.specs.Lines.{has_itself, has_other, is_apart, is_to_itself};
ghost use Rattle.hg_show.specs.Lines.{line_name, shares, shares_with_some};
ghost use Rattle.hg_show.specs.Texts.{texts_in};
ghost use Rattle.hg_show.specs.Warnings.{by_place, deny_warnings, grant_warnings};

use crate::by_key::{is_empty_at, text_at};
use crate::meant::meant;
use crate::push::{push, push_number};
use crate::standings::may_share;
use crate::texts::warn;
use hg_policy::Policy;
use std::alloc::{AllocError, Global};
use toml::Value;

/// Whether another tenant than an owner is among the actors.
fn has_other(actors: &[u8], owner: u8) -> bool
    ensures { result ≡ has_other actors.now owner }
{
    actors.iter().any(|actor| *actor != owner)
}

/// Whether an owner is among the actors.
fn has_itself(actors: &[u8], owner: u8) -> bool
    ensures { result ≡ has_itself actors.now owner }
{
    actors.iter().any(|actor| *actor == owner)
}

/// Whether an actor is another tenant, and may share a segment with an owner.
fn shares(policy: &Policy, owner: u8, actor: u8) -> bool
    ensures { result ≡ shares policy.now owner actor }
{
    actor != owner && may_share(policy, owner, actor)
}

/// Whether some actor may.
fn shares_with_some(policy: &Policy, actors: &[u8], owner: u8) -> bool
    ensures { result ≡ shares_with_some policy.now actors.now owner }
{
    actors.iter().any(|actor| shares(policy, owner, *actor))
}

/// Whether there are an owner and an actor that are different tenants.
fn names_others(owners: &[u8], actors: &[u8]) -> bool
    ensures { result ≡ list_any (has_other actors.now) owners.now }
{
    owners.iter().any(|owner| has_other(actors, *owner))
}

/// Whether some owner is an actor.
fn names_owners(owners: &[u8], actors: &[u8]) -> bool
    ensures { result ≡ list_any (has_itself actors.now) owners.now }
{
    owners.iter().any(|owner| has_itself(actors, *owner))
}

/// Whether some owner may share a segment with an actor that is another tenant.
fn some_share(policy: &Policy, owners: &[u8], actors: &[u8]) -> bool
    ensures { result ≡ list_any (shares_with_some policy.now actors.now) owners.now }
{
    owners
        .iter()
        .any(|owner| shares_with_some(policy, actors, *owner))
}

/// Whether a line is to other tenants than its owners, and none may share a segment with an owner.
fn is_apart(policy: &Policy, owners: &[u8], actors: &[u8]) -> bool
    ensures { result ≡ is_apart policy.now owners.now actors.now }
{
    names_others(owners, actors) && !some_share(policy, owners, actors)
}

/// Whether a line is to an owner, and to no other tenant.
fn is_to_itself(owners: &[u8], actors: &[u8]) -> bool
    ensures { result ≡ is_to_itself owners.now actors.now }
{
    names_owners(owners, actors) && !names_others(owners, actors)
}

/// What a row is called: its place, and the names of its owner and of those whom it is to.
#[tactic(auto, unfolding(crate::specs::Lines::line_name))]
fn line_name(alloc: Global, place: usize, row: &Value) -> Result<Vec<u8>, AllocError>
    ensures { IfOk result (λ name. name.items ≡ line_name place (view row.now)) }
{
    let mut name = Vec::new(alloc);
    push_number(&mut name, place as u64)?;
    push(&mut name, " (")?;
    push(&mut name, text_at(row, "owner"))?;
    push(&mut name, " to ")?;
    push(&mut name, text_at(row, "to"))?;
    push(&mut name, ")")?;
    Ok(name)
}

/// Adds what there is to warn of a line that grants.
fn warn_of_grant(
    alloc: Global,
    texts: &mut Vec<Vec<u8>>,
    policy: &Policy,
    groups: &[Value],
    place: usize,
    row: &Value,
) -> Result<(), AllocError>
    ensures { OnOk result (texts_in texts.new.items ≡ texts_in texts.old.items
        ++ grant_warnings policy.now (map view groups.now) place (view row.now)) }
{
    let owners = meant(alloc, policy, groups, text_at(row, "owner"))?;
    let actors = meant(alloc, policy, groups, text_at(row, "to"))?;
    let name = line_name(alloc, place, row)?;
    warn(
        alloc,
        texts,
        is_apart(policy, owners.as_slice(), actors.as_slice()),
        "grant ",
        name.as_slice(),
        ": no arena admits both",
    )?;
    warn(
        alloc,
        texts,
        is_to_itself(owners.as_slice(), actors.as_slice()),
        "grant ",
        name.as_slice(),
        ": it is to the owner itself",
    )?;
    warn(
        alloc,
        texts,
        is_empty_at(row, "rights"),
        "grant ",
        name.as_slice(),
        ": it names no right",
    )?;
    Ok(())
}

/// Adds what there is to warn of a line that denies.
fn warn_of_deny(
    alloc: Global,
    texts: &mut Vec<Vec<u8>>,
    policy: &Policy,
    groups: &[Value],
    place: usize,
    row: &Value,
) -> Result<(), AllocError>
    ensures { OnOk result (texts_in texts.new.items ≡ texts_in texts.old.items
        ++ deny_warnings policy.now (map view groups.now) place (view row.now)) }
{
    let owners = meant(alloc, policy, groups, text_at(row, "owner"))?;
    let actors = meant(alloc, policy, groups, text_at(row, "to"))?;
    let name = line_name(alloc, place, row)?;
    warn(
        alloc,
        texts,
        is_to_itself(owners.as_slice(), actors.as_slice()),
        "deny ",
        name.as_slice(),
        ": it is to the owner itself",
    )?;
    warn(
        alloc,
        texts,
        is_empty_at(row, "rights"),
        "deny ",
        name.as_slice(),
        ": it names no right",
    )?;
    Ok(())
}

/// Adds what there is to warn of each line that grants.
pub(crate) fn warn_of_grants(
    alloc: Global,
    texts: &mut Vec<Vec<u8>>,
    policy: &Policy,
    groups: &[Value],
    rows: &[Value],
) -> Result<(), AllocError>
    ensures { OnOk result (texts_in texts.new.items ≡ texts_in texts.old.items
        ++ by_place (grant_warnings policy.now (map view groups.now)) (map view rows.now)) }
{
    for (i, row) in rows.iter().enumerate() {
        warn_of_grant(alloc, texts, policy, groups, i + 1, row)?;
    }
    Ok(())
}

/// Adds what there is to warn of each line that denies.
pub(crate) fn warn_of_denies(
    alloc: Global,
    texts: &mut Vec<Vec<u8>>,
    policy: &Policy,
    groups: &[Value],
    rows: &[Value],
) -> Result<(), AllocError>
    ensures { OnOk result (texts_in texts.new.items ≡ texts_in texts.old.items
        ++ by_place (deny_warnings policy.now (map view groups.now)) (map view rows.now)) }
{
    for (i, row) in rows.iter().enumerate() {
        warn_of_deny(alloc, texts, policy, groups, i + 1, row)?;
    }
    Ok(())
}

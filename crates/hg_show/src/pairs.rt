//! Owners and actors as JSON.

ghost use Rattle.std.specs.Prelude.{◌≡◌, ◌++◌, IfOk, OnOk};
ghost use Rattle.std.specs.List.{flat_map};
ghost use Rattle.hg_show.specs.Json.{pair_object, pair_objects, right_value, word_of};
ghost use Rattle.hg_show.specs.Parts.{tenants_in};
ghost use Rattle.hg_show.specs.Texts.{texts_in};

use crate::json::push_quoted;
use crate::parts::name_of;
use crate::push::push;
use crate::standings::{Standing, standing_of};
use crate::texts::add;
use hg_place::Right;
use hg_policy::Policy;
use std::alloc::{AllocError, Global};

/// How an actor stands, in words.
fn word_of(standing: Standing) -> &'static str
    ensures { result.now ≡ word_of standing }
{
    match standing {
        Standing::Granted => "granted",
        Standing::Apart => "no arena in common",
        Standing::NotGranted => "not granted",
        Standing::Denied => "denied",
    }
}

/// Appends how an actor stands to a right on the blocks of an owner.
#[tactic(auto, unfolding(crate::specs::Json::right_value))]
fn push_right(
    out: &mut Vec<u8>,
    policy: &Policy,
    owner: u8,
    actor: u8,
    right: Right,
) -> Result<(), AllocError>
    ensures { OnOk result (out.new.items
        ≡ out.old.items ++ right_value policy.now owner actor right) }
{
    let word = word_of(standing_of(policy, owner, actor, right));
    push_quoted(out, word.as_bytes())
}

/// An owner and an actor: how this stands to each right on the blocks of that.
#[tactic(auto, unfolding(crate::specs::Json::pair_object))]
fn pair_object(alloc: Global, policy: &Policy, owner: u8, actor: u8) -> Result<Vec<u8>, AllocError>
    ensures { IfOk result (λ text. text.items ≡ pair_object policy.now owner actor) }
{
    let mut text = Vec::new(alloc);
    push(&mut text, "{\"owner\":")?;
    push_quoted(&mut text, name_of(policy, owner).as_bytes())?;
    push(&mut text, ",\"actor\":")?;
    push_quoted(&mut text, name_of(policy, actor).as_bytes())?;
    push(&mut text, ",\"read\":")?;
    push_right(&mut text, policy, owner, actor, Right::Read)?;
    push(&mut text, ",\"write\":")?;
    push_right(&mut text, policy, owner, actor, Right::Write)?;
    push(&mut text, ",\"list\":")?;
    push_right(&mut text, policy, owner, actor, Right::List)?;
    push(&mut text, ",\"free\":")?;
    push_right(&mut text, policy, owner, actor, Right::Free)?;
    push(&mut text, "}")?;
    Ok(text)
}

/// Adds an owner with each actor, itself too.
fn add_pairs(
    alloc: Global,
    texts: &mut Vec<Vec<u8>>,
    policy: &Policy,
    owner: u8,
) -> Result<(), AllocError>
    ensures { OnOk result (texts_in texts.new.items
        ≡ texts_in texts.old.items ++ pair_objects policy.now owner) }
{
    for actor in 0..policy.tenants() {
        add(texts, pair_object(alloc, policy, owner, actor)?)?;
    }
    Ok(())
}

/// Each owner with each actor.
pub(crate) fn all_pairs(alloc: Global, policy: &Policy) -> Result<Vec<Vec<u8>>, AllocError>
    ensures { IfOk result (λ texts. texts_in texts.items
        ≡ flat_map (pair_objects policy.now) (tenants_in policy.now)) }
{
    let mut texts = Vec::new(alloc);
    for owner in 0..policy.tenants() {
        add_pairs(alloc, &mut texts, policy, owner)?;
    }
    Ok(texts)
}

//! How an actor stands to a right on the blocks of an owner.

ghost use Rattle.std.specs.Prelude.{◌≡◌};
ghost use Rattle.hg_show.specs.Standings.{may_both_hold, may_hold, may_share, standing_of};

use hg_place::{Actor, Right};
use hg_policy::{Policy, Refusal};

/// How an actor stands to a right on the blocks of an owner.
#[derive(Clone, Copy)]
pub(crate) enum Standing {
    /// It has the right, and some segment may be held by both.
    Granted,
    /// It has the right, which is of no use: no segment may be held by both.
    Apart,
    NotGranted,
    Denied,
}

/// Whether the arena of a segment admits a tenant.
pub(crate) fn may_hold(policy: &Policy, tenant: u8, segment: u8) -> bool
    ensures { result ≡ may_hold policy.now tenant segment }
{
    match policy.arena_of(segment) {
        Some(arena) => policy.admits(arena, Actor(tenant)),
        None => false,
    }
}

fn may_both_hold(policy: &Policy, owner: u8, actor: u8, segment: u8) -> bool
    ensures { result ≡ may_both_hold policy.now owner actor segment }
{
    may_hold(policy, owner, segment) && may_hold(policy, actor, segment)
}

/// Whether there is a segment that both may hold.
pub(crate) fn may_share(policy: &Policy, owner: u8, actor: u8) -> bool
    ensures { result ≡ may_share policy.now owner actor }
{
    (0..policy.segments()).any(|segment| may_both_hold(policy, owner, actor, segment))
}

/// How an actor stands to a right on the blocks of an owner.
pub(crate) fn standing_of(policy: &Policy, owner: u8, actor: u8, right: Right) -> Standing
    ensures { result ≡ standing_of policy.now owner actor right }
{
    match policy.refusal(owner, Actor(actor), right) {
        Some(Refusal::Forbidden) => Standing::Denied,
        Some(Refusal::NotGranted) => Standing::NotGranted,
        None => {
            if may_share(policy, owner, actor) {
                Standing::Granted
            } else {
                Standing::Apart
            }
        }
    }
}

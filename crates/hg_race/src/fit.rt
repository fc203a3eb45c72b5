//! What a race is run with, and under which policies.

ghost use Rattle.std.specs.Prelude.{◌≡◌, not, option_map, is_some};
ghost use Rattle.hg_race.specs.Fit.{has_segment, is_first, is_fit, lack_text};

use hg_place::Actor;
use hg_policy::Policy;

/// Whose blocks they are: the first tenant's.
pub(crate) const TENANT: Actor = Actor(0);

/// Where they lie: in the first arena.
pub(crate) const ARENA: u8 = 0;

/// What is asked for, in bytes.
pub(crate) const BYTES: u64 = 8;

/// Whether this is the first arena.
fn is_first(arena: Option<u8>) -> bool
    ensures { result ≡ is_first arena }
{
    match arena {
        Some(arena) => arena == ARENA,
        None => false,
    }
}

/// Whether the first arena has a segment.
fn has_segment(policy: &Policy) -> bool
    ensures { result ≡ has_segment policy.now }
{
    for segment in 0..policy.segments() {
        if is_first(policy.arena_of(segment)) {
            return true;
        }
    }
    false
}

/// What a policy lacks for a race, of several the first; nothing where one can be run under it.
#[tactic(auto, unfolding(crate::specs::Fit::lack_text))]
pub(crate) fn lack(policy: &Policy) -> Option<&'static str>
    ensures text { option_map (λ text. text.now) result ≡ lack_text policy.now }
    ensures unfit { is_some result ≡ not (is_fit policy.now) }
{
    if policy.workers() < 2 {
        return Some("a race takes two workers, and the policy has one");
    }
    match policy.limit(TENANT.0) {
        None => Some("a race takes a tenant, and the policy has none"),
        Some(limit) if limit < BYTES => {
            Some("a race takes 8 bytes, and the first tenant's limit is below that")
        }
        Some(_) if !has_segment(policy) => {
            Some("a race takes a segment of the first arena, and there is none")
        }
        Some(_) if !policy.admits(ARENA, TENANT) => Some(
            "a race takes an arena for the first tenant, and the first one doesn't admit it",
        ),
        Some(_) => None,
    }
}

/// Whether a race can be run under a policy.
pub(crate) fn is_fit(policy: &Policy) -> bool
    ensures { result ≡ is_fit policy.now }
{
    lack(policy).is_none()
}

//! Why an event is denied.

ghost use Rattle.std.specs.Prelude.{◌≡◌};
ghost use Rattle.hg_machine.specs.Policy.{arena_of};
ghost use Rattle.hg_reasons.specs.Reasons.{alloc_reason, arena_reason, asked, block_bytes};
ghost use Rattle.hg_reasons.specs.Reasons.{block_reason, denial_reason, limit_reason};
ghost use Rattle.hg_reasons.specs.Reasons.{segment_reason, stale_reason};

use crate::past::Past;
use crate::reason::{Asked, Between, Charged, Reason};
use hg_core::Core;
use hg_machine::{Event, Rule};
use hg_place::{Actor, Right, WORD_BYTES};
use hg_policy::Policy;
use hg_size::{block_words, class_of, words_of};

/// Who asks for which right on the block of which place, where an event asks for one.
pub(super) fn asked_by(event: Event) -> Option<Asked>
    ensures { result ≡ asked event }
{
    let (actor, right, place) = match event {
        Event::Free { actor, handle } => (actor, Right::Free, handle.place),
        Event::Read { actor, handle, .. } => (actor, Right::Read, handle.place),
        Event::Write { actor, handle, .. } => (actor, Right::Write, handle.place),
        Event::Look { actor, place } => (actor, Right::List, place),
        _ => return None,
    };
    Some(Asked {
        actor: actor.0,
        right,
        place,
    })
}

/// Whom an arena admits, if there is such an arena.
fn arena_reason(policy: &Policy, arena: u8) -> Reason
    ensures { result ≡ arena_reason policy.now arena }
{
    if arena < policy.arenas() {
        return Reason::Admits(arena);
    }
    Reason::NoArena
}

/// Whom the arena of a segment admits, if there is such a segment.
fn segment_reason(policy: &Policy, segment: u8) -> Reason
    ensures { result ≡ segment_reason policy.now segment (arena_of policy.now segment) }
{
    match policy.arena_of(segment) {
        Some(arena) => arena_reason(policy, arena),
        None => Reason::NoSegment(segment),
    }
}

/// Which generation a place of a segment is in, if there is such a segment.
fn stale_reason(policy: &Policy, segment: u8, generation: u32) -> Reason
    ensures { result ≡ stale_reason policy.now segment generation }
{
    match policy.arena_of(segment) {
        Some(_) => Reason::Generation(generation),
        None => Reason::NoSegment(segment),
    }
}

/// Why a right on a block is denied.
fn block_reason(policy: &Policy, past: &Past, asked: Asked, rule: Rule) -> Option<Reason>
    ensures { result ≡ block_reason policy.now past.now asked rule }
{
    let segment = asked.place.segment;
    let life = past.life(asked.place);
    let between = Between {
        owner: life.owner,
        actor: asked.actor,
        right: asked.right,
    };
    match rule {
        Rule::Stranger => Some(Reason::NoTenant),
        Rule::Stale(generation) => Some(stale_reason(policy, segment, generation)),
        Rule::AlreadyFreed => Some(Reason::Freed(life.freed)),
        Rule::ForeignArena => Some(segment_reason(policy, segment)),
        Rule::Forbidden => Some(Reason::Denies(between)),
        Rule::NotGranted => Some(Reason::Lets(between)),
        Rule::OverLimit => None,
    }
}

/// How many bytes the block for a request has, 0 where no block has as many.
pub(super) fn block_bytes(bytes: u64) -> u64
    ensures { result ≡ block_bytes bytes }
{
    match class_of(words_of(bytes)) {
        Some(class) => WORD_BYTES as u64 * u64::from(block_words(class)),
        None => 0,
    }
}

/// What a tenant has of its limit with a worker, and what it asks for.
fn limit_reason(core: &Core, worker: u8, tenant: u8, bytes: u64) -> Reason
    ensures { result ≡ limit_reason core.now.state worker tenant bytes }
{
    Reason::Limit(Charged {
        tenant,
        charge: core.charge(worker, tenant),
        limit: core.policy().limit(tenant).unwrap_or(0),
        bytes,
        block: block_bytes(bytes),
    })
}

/// Why an allocation is denied.
fn alloc_reason(
    core: &Core,
    worker: u8,
    actor: Actor,
    arena: u8,
    bytes: u64,
    rule: Rule,
) -> Option<Reason>
    ensures { result ≡ alloc_reason core.now.state worker actor.0 arena bytes rule }
{
    match rule {
        Rule::Stranger => Some(Reason::NoTenant),
        Rule::ForeignArena => Some(arena_reason(core.policy(), arena)),
        Rule::OverLimit => Some(limit_reason(core, worker, actor.0, bytes)),
        _ => None,
    }
}

/// Why an event is denied.
pub(super) fn denial_reason(
    core: &Core,
    past: &Past,
    worker: u8,
    event: Event,
    rule: Rule,
) -> Option<Reason>
    ensures { result ≡ denial_reason core.now.state past.now worker event rule }
{
    if let Event::Alloc {
        actor,
        arena,
        bytes,
    } = event
    {
        return alloc_reason(core, worker, actor, arena, bytes, rule);
    }
    match asked_by(event) {
        Some(asked) => block_reason(core.policy(), past, asked, rule),
        None => None,
    }
}

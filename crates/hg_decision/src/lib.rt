//! Verdicts: the first rule by which a policy refuses a request, as a function of the policy and of
//! what was observed: one slot word, or one charge.
#![tactic(auto)]

ghost use Rattle.std.specs.Prelude.{◌≡◌, ◌≤◌};
ghost use Rattle.hg_place.specs.Slots.{slot_in};
ghost use Rattle.hg_machine.specs.Denial.{denial_on, verdict_of};
ghost use Rattle.hg_machine.specs.Request.{alloc_verdict};

pub use hg_machine::{AllocVerdict, Rule, Verdict};
use hg_place::{Actor, Handle, Right, WORD_BYTES, word_generation, word_owner};
use hg_policy::{Policy, Refusal};
use hg_size::{block_words, class_of};

/// The verdict on a block, by the slot word that was observed at its place: the first rule that
/// denies it, in the order `Stranger`, `Stale`, `AlreadyFreed`, `ForeignArena`, `Forbidden`,
/// `NotGranted`.
///
/// A word that is no slot word shows a place that was never given out, and where the policy has no
/// such segment the answer is `Stale(0)` whatever the word is.
pub fn judge(policy: &Policy, actor: Actor, right: Right, handle: Handle, word: u64) -> Verdict
    ensures { result ≡ verdict_of
        (denial_on policy.now actor.0 right handle.place.segment handle.generation (slot_in word)) }
{
    if policy.limit(actor.0).is_none() {
        return Verdict::Denied(Rule::Stranger);
    }
    let Some(arena) = policy.arena_of(handle.place.segment) else {
        return Verdict::Denied(Rule::Stale(0));
    };
    let generation = shown_generation(word);
    if generation != handle.generation {
        return Verdict::Denied(Rule::Stale(generation));
    }
    if !is_live(word) {
        return Verdict::Denied(Rule::AlreadyFreed);
    }
    if !policy.admits(arena, actor) {
        return Verdict::Denied(Rule::ForeignArena);
    }
    match policy.refusal(owner_of(word), actor, right) {
        Some(Refusal::Forbidden) => Verdict::Denied(Rule::Forbidden),
        Some(Refusal::NotGranted) => Verdict::Denied(Rule::NotGranted),
        None => Verdict::Allowed,
    }
}

/// The generation that a word shows, 0 where it is no slot word.
fn shown_generation(word: u64) -> u32
    ensures { result ≡ (slot_in word).generation }
{
    if word % 0x1_0000_0000 >= 128 {
        return 0;
    }
    word_generation(word)
}

/// Whether the block of a word lives, which shows a generation.
fn is_live(word: u64) -> bool
    requires { 1 ≤ (slot_in word).generation }
    ensures { result ≡ (slot_in word).live }
{
    word % 2 == 1
}

/// The owner of the block of a word, which shows a generation.
fn owner_of(word: u64) -> u8
    requires { 1 ≤ (slot_in word).generation }
    ensures { result ≡ (slot_in word).owner }
{
    word_owner(word)
}

/// The verdict on an allocation of so many words, where the actor's charge in the worker's heap is
/// so many bytes, before there is a question of room: in the order `Stranger`, `ForeignArena`,
/// `TooLarge`, `OverLimit`.
pub fn judge_alloc(
    policy: &Policy,
    actor: Actor,
    arena: u8,
    words: u64,
    charge: u64,
) -> AllocVerdict
    ensures { result ≡ alloc_verdict policy.now actor.0 arena words charge }
{
    let Some(limit) = policy.limit(actor.0) else {
        return AllocVerdict::Denied(Rule::Stranger);
    };
    if !policy.admits(arena, actor) {
        return AllocVerdict::Denied(Rule::ForeignArena);
    }
    let Some(class) = class_of(words) else {
        return AllocVerdict::TooLarge;
    };
    let bytes = WORD_BYTES as u64 * u64::from(block_words(class));
    if bytes <= limit && charge <= limit - bytes {
        AllocVerdict::Fits(class)
    } else {
        AllocVerdict::Denied(Rule::OverLimit)
    }
}

//! What a call on a worker's heap is answered, and why a block is out of a worker's reach.

ghost use Rattle.std.specs.Prelude.{◌≡◌, max, Option};
ghost use Rattle.hg_place.specs.Slots.{slot_in};
ghost use Rattle.hg_machine.specs.declared.Rule.{Rule};
ghost use Rattle.hg_machine.specs.Denial.{verdict_of};
ghost use Rattle.hg_heap.specs.Answers.{refused_answer, alloc_answer, read_answer, done_answer};
ghost use Rattle.hg_heap.specs.Answers.{look_answer, away_answer, list_denial};
ghost use Rattle.hg_heap.specs.Reading.{use_denial};

use crate::Refused;
use hg_decision::{Verdict, judge};
use hg_machine::{Answer, Row};
use hg_place::{Actor, Handle, Place, Right, word_generation};
use hg_policy::Policy;

/// The answer to a call that is refused.
#[inline(always)]
pub fn refused_answer(refused: Refused) -> Answer
    ensures { result ≡ refused_answer refused }
{
    match refused {
        Refused::Denied(rule) => Answer::Denied(rule),
        Refused::TooLarge => Answer::TooLarge,
        Refused::NoRoom => Answer::NoRoom,
        Refused::Elsewhere => Answer::Elsewhere,
        Refused::OutOfBlock => Answer::OutOfBlock,
    }
}

/// The answer to an Alloc.
#[inline(always)]
pub fn alloc_answer(told: Result<Handle, Refused>) -> Answer
    ensures { result ≡ alloc_answer told }
{
    match told {
        Ok(handle) => Answer::Block(handle),
        Err(refused) => refused_answer(refused),
    }
}

/// The answer to a Read.
#[inline(always)]
pub fn read_answer(told: Result<u64, Refused>) -> Answer
    ensures { result ≡ read_answer told }
{
    match told {
        Ok(value) => Answer::Value(value),
        Err(refused) => refused_answer(refused),
    }
}

/// The answer to a Write.
#[inline(always)]
pub fn done_answer(told: Result<(), Refused>) -> Answer
    ensures { result ≡ done_answer told }
{
    match told {
        Ok(()) => Answer::Done,
        Err(refused) => refused_answer(refused),
    }
}

/// The answer to a Look.
#[inline(always)]
pub fn look_answer(told: Result<Row, Refused>) -> Answer
    ensures { result ≡ look_answer told }
{
    match told {
        Ok(row) => Answer::Listed(row),
        Err(refused) => refused_answer(refused),
    }
}

/// Why the use of a block is refused where the worker doesn't hold its segment: `Denied` by the
/// first rule that its slot word gives, or else `Elsewhere`.
pub fn denied_or_elsewhere(
    policy: &Policy,
    actor: Actor,
    right: Right,
    handle: Handle,
    word: u64,
) -> Refused
    ensures { refused_answer result ≡ away_answer
        (use_denial policy.now actor.0 right handle word) }
{
    refused_by(judge(policy, actor, right, handle, word))
}

/// Why a place's block isn't listed, by its slot word: `Denied` by the first rule that it gives, or
/// else `Elsewhere`.
pub fn unlisted(policy: &Policy, actor: Actor, place: Place, word: u64) -> Refused
    ensures { refused_answer result ≡ away_answer (list_denial policy.now actor place word) }
{
    let generation = listed_generation(word);
    let handle = Handle { place, generation };
    refused_by(judge(policy, actor, Right::List, handle, word))
}

/// The generation that a place's slot word shows, 1 where the place was never given out.
pub(crate) fn listed_generation(word: u64) -> u32
    ensures { result ≡ max 1 (slot_in word).generation }
{
    // what is no slot word shows a place that was never given out
    if word % 0x1_0000_0000 >= 128 {
        return 1;
    }
    word_generation(word).max(1)
}

/// By the rule that denies it, or else because the block is elsewhere.
fn refused_by(verdict: Verdict) -> Refused
    ensures { (denial : Option Rule) → verdict ≡ verdict_of denial
        → refused_answer result ≡ away_answer denial }
{
    match verdict {
        Verdict::Denied(rule) => Refused::Denied(rule),
        Verdict::Allowed => Refused::Elsewhere,
    }
}

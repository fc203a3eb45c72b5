//! Blocks are freed by the worker that holds their segment.

ghost use Rattle.std.specs.Prelude.{◌≡◌, ◌≢◌, ◌==◌, ◌-◌, ℕ, true, false, None, Some, Err};
ghost use Rattle.std.specs.Prelude.{OnOk, IfOk, IfErr, IfSome, IfNone};
ghost use Rattle.hg_place.specs.declared.Right.TheVariants as Right;
ghost use Rattle.hg_place.specs.Lives.{word_owner, IsLiveWord};
ghost use Rattle.hg_place.specs.Places.{page_number};
ghost use Rattle.hg_place.specs.Standings.{IsSane};
ghost use Rattle.hg_machine.specs.declared.Answer.TheVariants as Answer;
ghost use Rattle.hg_machine.specs.declared.Event.TheVariants as Event;
ghost use Rattle.hg_machine.specs.declared.Rule.{Rule};
ghost use Rattle.hg_heap.specs.declared.refused.Refused.TheVariants.{Elsewhere, Denied};
ghost use Rattle.hg_heap.specs.Allowed.{LetsFree, MayFree};
ghost use Rattle.hg_heap.specs.Freeing.{free_denial, IsNeverFreed, IsOnlyFreed};
ghost use Rattle.hg_heap.specs.Judged.{IsJudged};
ghost use Rattle.hg_heap.specs.Keeping.{KeepsAll};
ghost use Rattle.hg_heap.specs.Held.{is_held, lists_on, has_place, greatest_in, KeepsLists};
ghost use Rattle.hg_heap.specs.Lists.{CameHome};
ghost use Rattle.hg_heap.specs.Queues.{key_on};
ghost use Rattle.hg_heap.specs.Records.{IsHomeAlone};
ghost use Rattle.hg_heap.specs.Requeued.{requeued};
ghost use Rattle.hg_heap.specs.Stays.{Looked, Closed};
ghost use Rattle.hg_heap.specs.Ties.{HeapTies, Stepped, shown_at};

use crate::requeue::{block_bytes, page_of, requeue};
use crate::{Heap, Refused};
use hg_decision::{Verdict, judge};
use hg_machine::Rule;
use hg_place::{Actor, Handle, Right, SlotWords, Standing, pack, word_owner};
use hg_policy::Policy;
use hg_segment::Segment;

impl<S: SlotWords> Heap<S> {
    /// Frees a block: its life ends by one step, and its place goes home, in front of its page's
    /// `local_free`, or on no list where its generation is the greatest. `Elsewhere` comes exactly
    /// where the segment isn't held, before any step; `Denied` by the word that one step shows. A
    /// refusal leaves words, records and lists as they are.
    pub fn free_here(
        &mut self,
        policy: &Policy,
        actor: Actor,
        handle: Handle,
    ) -> Result<(), Refused>
        requires allowed { MayFree S.shows S.allows S.number policy.now actor.0 handle
            self.old.segments }
        ensures elsewhere { is_held S.number self.old.segments handle.place.segment ≡ false
            → (result ≡ Err Elsewhere) × (self.new ≡ self.old) }
        ensures freed { OnOk result ((word : ℕ) × IsLiveWord word
            × Stepped S.number S.shows S.steps handle.place word (word - 1)
            self.old.segments self.new.segments
            × HeapTies S.number S.records policy.now (shown_at handle.place word)
            (shown_at handle.place (word - 1)) (Event.Free actor handle) Answer.Done
            self.old.segments self.new.segments) }
        ensures denied { is_held S.number self.old.segments handle.place.segment ≡ true
            → IfErr result (λ refused. (word : ℕ) × (rule : Rule) × (refused ≡ Denied rule)
            × Stepped S.number S.shows S.steps handle.place word word
            self.old.segments self.new.segments
            × HeapTies S.number S.records policy.now (shown_at handle.place word)
            (shown_at handle.place word) (Event.Free actor handle) (Answer.Denied rule)
            self.old.segments self.new.segments) }
        ensures lists { OnOk result (CameHome S.number
            (handle.generation == greatest_in S.number self.old.segments handle.place.segment)
            (page_number handle.place) handle.place.index self.old.segments self.new.segments) }
        ensures queues { OnOk result ((key : ℕ)
            × (key_on S.number self.old.segments (page_number handle.place) ≡ Some key)
            × (self.new.queues ≡ requeued key (page_number handle.place)
            (has_place (lists_on S.number self.new.segments (page_number handle.place)))
            self.old.queues)) }
        ensures same_lists { IfErr result (λ refused.
            KeepsLists S.number self.old.segments self.new.segments) }
        ensures same_queues { IfErr result (λ refused. self.new.queues ≡ self.old.queues) }
        ensures served { OnOk result ((word : ℕ) × Stepped S.number S.shows S.steps handle.place
            word (word - 1) self.old.segments self.new.segments
            × IsJudged policy.now actor.0 Right.Free handle word None) }
        ensures judged { is_held S.number self.old.segments handle.place.segment ≡ true
            → IfErr result (λ refused. (word : ℕ) × (rule : Rule) × (refused ≡ Denied rule)
            × Stepped S.number S.shows S.steps handle.place word word
            self.old.segments self.new.segments
            × IsJudged policy.now actor.0 Right.Free handle word (Some rule)) }
        ensures records { OnOk result (IsHomeAlone S.number S.records handle self.old.segments
            self.new.segments) }
        ensures kept { IfErr result (λ refused.
            KeepsAll S.number S.records self.old.segments self.new.segments) }
    {
        let Some(found) = self.found(handle.place.segment) else {
            return Err(Refused::Elsewhere);
        };
        let segment = &mut self.segments[found as usize];
        let closed = close_block(segment, policy, actor, handle);
        segment.settled();
        let owner = match closed {
            Ok(owner) => owner,
            Err(rule) => return Err(Refused::Denied(rule)),
        };
        let Some(class) = segment.class_of(handle.place.page) else {
            unreachable!()
        };
        let is_full = segment.is_full(handle.place.page);
        let arena = segment.arena();
        self.charges.lower(owner, block_bytes(class));
        requeue(
            &mut self.queues,
            arena,
            class,
            page_of(handle.place),
            is_full,
        );
        Ok(())
    }
}

/// Ends the life of a block of the segment, and tells its owner. An error has the rule that denies
/// it.
fn close_block<S: SlotWords>(
    segment: &mut Segment<S>,
    policy: &Policy,
    actor: Actor,
    handle: Handle,
) -> Result<u8, Rule>
    requires segment { handle.place.segment ≡ S.number segment.old.slots }
    requires allowed { LetsFree S.shows S.allows policy.now actor.0 handle segment.old }
    ensures closed { IfOk result (λ owner. (word : ℕ)
        × Closed S.number S.records S.shows S.steps handle.place word segment.old segment.new
        × (free_denial policy.now actor.0 handle word ≡ None) × (owner ≡ word_owner word)) }
    ensures denied { IfErr result (λ rule. (word : ℕ)
        × Looked S.number S.records S.shows S.steps handle.place word segment.old segment.new
        × (free_denial policy.now actor.0 handle word ≡ Some rule)) }
    ensures words { IfErr result (λ rule. segment.new.words ≡ segment.old.words) }
{
    let place = handle.place;
    let standing = segment.standing(place.page, place.index);
    let Some(expected) = freeable(policy, actor, handle, standing) else {
        let word = segment.look(place.page, place.index);
        return Err(denied(policy, actor, handle, word));
    };
    if let Err(word) = segment.close_here(place, expected) {
        return Err(denied(policy, actor, handle, word));
    }
    Ok(word_owner(expected))
}

/// The word that the place of a handle has if the handle's block may be freed.
fn freeable(policy: &Policy, actor: Actor, handle: Handle, standing: Standing) -> Option<u64>
    requires { IsSane standing }
    ensures none { IfNone result (IsNeverFreed policy.now actor.0 handle standing) }
    ensures some { IfSome result (λ word. IsOnlyFreed policy.now actor.0 handle standing word) }
{
    let Standing::Open(generation, owner) = standing else {
        return None;
    };
    let expected = pack(generation, owner, true);
    match judge(policy, actor, Right::Free, handle, expected) {
        Verdict::Denied(_) => None,
        Verdict::Allowed => Some(expected),
    }
}

/// Why a block may not be freed.
#[cold]
#[inline(never)]
fn denied(policy: &Policy, actor: Actor, handle: Handle, word: u64) -> Rule
    requires { free_denial policy.now actor.0 handle word ≢ None }
    ensures { free_denial policy.now actor.0 handle word ≡ Some result }
{
    match judge(policy, actor, Right::Free, handle, word) {
        Verdict::Denied(rule) => rule,
        Verdict::Allowed => unreachable!(),
    }
}

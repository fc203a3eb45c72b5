//! Many words of a block, read by one step that looks at the place.

ghost use Rattle.std.specs.Prelude.{◌≡◌, ◌<◌, ◌≤◌, ◌+◌, ℕ, true, length, drop, Err};
ghost use Rattle.std.specs.Prelude.{slice_index, Result, IfSome};
ghost use Rattle.hg_place.specs.declared.Right.TheVariants as Right;
ghost use Rattle.hg_segment.specs.Blocks.{block_at};
ghost use Rattle.hg_machine.specs.declared.Answer.TheVariants as Answer;
ghost use Rattle.hg_machine.specs.declared.Event.TheVariants as Event;
ghost use Rattle.hg_heap.specs.Allowed.{LetsLook, MayLook};
ghost use Rattle.hg_heap.specs.declared.refused.Refused.{Refused};
ghost use Rattle.hg_heap.specs.declared.refused.Refused.TheVariants.{OutOfBlock};
ghost use Rattle.hg_heap.specs.Held.{is_held, KeepsLists};
ghost use Rattle.hg_heap.specs.Ties.{HeapTies, Stepped, shown_at};
ghost use Rattle.hg_heap.specs.Answers.{read_answer};
ghost use Rattle.hg_heap.specs.Stays.{Looked};
ghost use Rattle.hg_heap.specs.Reading.{use_denial};
ghost use Rattle.hg_heap.specs.Many.{ReadsMany, ComesTo};
ghost use Rattle.hg_heap.specs.Keeping.{KeepsAll};

use crate::reading::size_of;
use crate::{Heap, HowFar, Refused};
use hg_decision::{Verdict, judge};
use hg_place::{Actor, Handle, Right, SlotWords};
use hg_policy::Policy;
use hg_segment::Segment;

impl<S: SlotWords> Heap<S> {
    /// Reads words of a block of a held segment into a room, from the word of an index on, the
    /// index counted from the block's first: as many as the block has there and the room holds.
    /// Each is what a Read of it is answered by the one word that the step shows, and so is the
    /// refusal of the next, where fewer came than the room holds. What stands in the room behind
    /// them, and words, records and lists, stay as they are.
    pub fn read_words(
        &mut self,
        policy: &Policy,
        actor: Actor,
        handle: Handle,
        first: u32,
        room: &mut [u64],
    ) -> HowFar
        requires held { is_held S.number self.old.segments handle.place.segment ≡ true }
        requires some { 0 < length room.old }
        requires allowed { MayLook S.shows S.allows S.number handle.place self.old.segments }
        ensures ties { (word : ℕ) × (next : Result ℕ Refused)
            × Stepped S.number S.shows S.steps handle.place word word
            self.old.segments self.new.segments
            × ((at : ℕ) → at < result.done → HeapTies S.number S.records policy.now
            (shown_at handle.place word) (shown_at handle.place word)
            (Event.Read actor handle (first + at)) (Answer.Value (slice_index room.new at))
            self.old.segments self.new.segments)
            × HeapTies S.number S.records policy.now (shown_at handle.place word)
            (shown_at handle.place word) (Event.Read actor handle (first + result.done))
            (read_answer next) self.old.segments self.new.segments
            × IfSome result.refused (λ why. next ≡ Err why) }
        ensures end { ComesTo (length room.old) result }
        ensures rest { drop result.done room.new ≡ drop result.done room.old }
        ensures lists { KeepsLists S.number self.old.segments self.new.segments }
        ensures queues { self.new.queues ≡ self.old.queues }
        ensures kept { KeepsAll S.number S.records self.old.segments self.new.segments }
    {
        let Some(found) = self.found(handle.place.segment) else {
            unreachable!()
        };
        let segment = &mut self.segments[found as usize];
        let far = copy_words(segment, policy, actor, handle, first, room);
        segment.settled();
        far
    }
}

/// Reads words of a block of the segment, as many as it has from the first on and the room holds.
fn copy_words<S: SlotWords>(
    segment: &mut Segment<S>,
    policy: &Policy,
    actor: Actor,
    handle: Handle,
    first: u32,
    room: &mut [u64],
) -> HowFar
    requires some { 0 < length room.old }
    requires allowed { LetsLook S.shows S.allows handle.place segment.old }
    ensures read { (word : ℕ) × Looked S.number S.records S.shows S.steps handle.place word
        segment.old segment.new
        × ReadsMany (use_denial policy.now actor.0 Right.Read handle word)
        (block_at segment.new.words segment.new.classes handle.place.page handle.place.index)
        first room.old result room.new }
    ensures words { segment.new.words ≡ segment.old.words }
{
    let word = segment.look(handle.place.page, handle.place.index);
    if let Verdict::Denied(rule) = judge(policy, actor, Right::Read, handle, word) {
        return HowFar {
            done: 0,
            refused: Some(Refused::Denied(rule)),
        };
    }
    let size = size_of(segment, handle.place.page, handle.place.index);
    if first >= u32::from(size) {
        return HowFar {
            done: 0,
            refused: Some(Refused::OutOfBlock),
        };
    }
    let at = first as u16;
    let asked = room.len();
    let count = asked.min(usize::from(size - at));
    segment.read_words(
        handle.place.page,
        handle.place.index,
        at,
        &mut room[..count],
    );
    end_of_block(count, asked)
}

/// So many words of those that were asked for were in the block.
pub(crate) fn end_of_block(done: usize, asked: usize) -> HowFar
    requires { done ≤ asked }
    ensures done { result.done ≡ done }
    ensures end { ComesTo asked result }
    ensures outside { IfSome result.refused (λ why. why ≡ OutOfBlock) }
{
    if done < asked {
        HowFar {
            done,
            refused: Some(Refused::OutOfBlock),
        }
    } else {
        HowFar {
            done,
            refused: None,
        }
    }
}

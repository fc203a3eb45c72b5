//! Many words of a block, written at once.

ghost use Rattle.std.specs.Prelude.{◌≡◌, ◌<◌, ◌+◌, true, length, take, IfSome, slice_index};
ghost use Rattle.hg_segment.specs.Parted.{plain_number};
ghost use Rattle.hg_heap.specs.Answers.{refused_answer};
ghost use Rattle.hg_heap.specs.CopiedIn.{CopiedIn};
ghost use Rattle.hg_heap.specs.Held.{is_held};
ghost use Rattle.hg_heap.specs.Many.{ComesTo};
ghost use Rattle.hg_heap.specs.WriteRuns.{WritesOne, WritesRun};

use crate::many::end_of_block;
use crate::reading::size_of;
use crate::{Heap, HowFar, Refused};
use hg_decision::{Verdict, judge};
use hg_place::{Actor, Handle, PlainWords, Right};
use hg_policy::Policy;
use hg_segment::Segment;

impl Heap<PlainWords> {
    /// Writes words into a block of a held segment, from the word of an index on, the index counted
    /// from the block's first: as many as the block has there. They are the Writes of these words,
    /// one after another; where they are fewer than all, the Write of the next is refused, and
    /// changes nothing. The block is judged once.
    pub fn write_words(
        &mut self,
        policy: &Policy,
        actor: Actor,
        handle: Handle,
        first: u32,
        words: &[u64],
    ) -> HowFar
        requires held { is_held plain_number self.old.segments handle.place.segment ≡ true }
        requires some { 0 < length words.now }
        ensures run { WritesRun policy.now actor handle first (take result.done words.now)
            self.old.segments self.new.segments }
        ensures next { IfSome result.refused (λ why. WritesOne policy.now actor handle
            (first + result.done) (slice_index words.now result.done) (refused_answer why)
            self.new.segments self.new.segments) }
        ensures end { ComesTo (length words.now) result }
        ensures queues { self.new.queues ≡ self.old.queues }
    {
        let Some(found) = self.found(handle.place.segment) else {
            unreachable!()
        };
        let segment = &mut self.segments[found as usize];
        let far = copy_in(segment, policy, actor, handle, first, words);
        segment.settled();
        far
    }
}

/// Writes words into a block of the segment, as many as it has from the first on.
fn copy_in(
    segment: &mut Segment<PlainWords>,
    policy: &Policy,
    actor: Actor,
    handle: Handle,
    first: u32,
    words: &[u64],
) -> HowFar
    requires segment { plain_number segment.old.slots ≡ handle.place.segment }
    requires some { 0 < length words.now }
    ensures { CopiedIn policy.now actor handle first words.now segment.old result segment.new }
{
    let word = segment.word(handle.place);
    if let Verdict::Denied(rule) = judge(policy, actor, Right::Write, handle, word) {
        return HowFar {
            done: 0,
            refused: Some(Refused::Denied(rule)),
        };
    }
    let size = size_of(segment, handle.place.page, handle.place.index);
    if first >= u32::from(size) {
        return HowFar {
            done: 0,
            refused: Some(Refused::OutOfBlock),
        };
    }
    let at = first as u16;
    let asked = words.len();
    let count = asked.min(usize::from(size - at));
    segment.write_words(handle.place.page, handle.place.index, at, &words[..count]);
    end_of_block(count, asked)
}

//! Words and rows of blocks, by a step that looks at the place.

ghost use Rattle.std.specs.Prelude.{◌≡◌, ◌≢◌, ◌<◌, ℕ, true, false, None, Some, Err, length};
ghost use Rattle.std.specs.Prelude.{slice_index, slice_set, IfSome, IfNone, OnOk, OnErr};
ghost use Rattle.hg_place.specs.declared.geometry.TheConstants.{SEGMENT_PAGES, PAGE_PLACES};
ghost use Rattle.hg_place.specs.declared.Right.TheVariants as Right;
ghost use Rattle.hg_place.specs.Lives.{IsLiveWord};
ghost use Rattle.hg_place.specs.Standings.{standing_at, is_home};
ghost use Rattle.hg_segment.specs.Kept.{slot, class_at};
ghost use Rattle.hg_segment.specs.Blocks.{block_at, KeepsOtherBlocks};
ghost use Rattle.hg_machine.specs.declared.Event.TheVariants as Event;
ghost use Rattle.hg_machine.specs.declared.Rule.{Rule};
ghost use Rattle.hg_heap.specs.Allowed.{LetsLook, MayLook};
ghost use Rattle.hg_heap.specs.declared.refused.Refused.TheVariants.{Elsewhere};
ghost use Rattle.hg_heap.specs.Held.{is_held, KeepsLists};
ghost use Rattle.hg_heap.specs.Ties.{HeapTies, Stepped, shown_at};
ghost use Rattle.hg_heap.specs.Answers.{read_answer, done_answer, row_answer, list_denial};
ghost use Rattle.hg_heap.specs.Stays.{Looked};
ghost use Rattle.hg_heap.specs.Reading.{use_denial, reached, block_in, IsRowOf};
ghost use Rattle.hg_heap.specs.Judged.{IsJudged, rule_in};
ghost use Rattle.hg_heap.specs.Keeping.{KeepsAll, Wrote};

use crate::answers::listed_generation;
use crate::{Heap, Refused};
use hg_decision::{Verdict, judge};
use hg_machine::Row;
use hg_place::{Actor, Handle, Place, Right, SlotWords, WORD_BYTES, word_owner};
use hg_policy::Policy;
use hg_segment::Segment;
use hg_size::block_words;

impl<S: SlotWords> Heap<S> {
    /// Reads a word of a block, the index counted from the block's first. `Elsewhere` comes exactly
    /// where the segment isn't held, before any step; `Denied` by the word that one step shows;
    /// `OutOfBlock` where the block has no such word. Words, records and lists stay as they are.
    pub fn read(
        &mut self,
        policy: &Policy,
        actor: Actor,
        handle: Handle,
        index: u32,
    ) -> Result<u64, Refused>
        requires allowed { MayLook S.shows S.allows S.number handle.place self.old.segments }
        ensures elsewhere { is_held S.number self.old.segments handle.place.segment ≡ false
            → (result ≡ Err Elsewhere) × (self.new ≡ self.old) }
        ensures held { is_held S.number self.old.segments handle.place.segment ≡ true
            → (word : ℕ)
            × Stepped S.number S.shows S.steps handle.place word word
            self.old.segments self.new.segments
            × HeapTies S.number S.records policy.now (shown_at handle.place word)
            (shown_at handle.place word) (Event.Read actor handle index) (read_answer result)
            self.old.segments self.new.segments }
        ensures here { is_held S.number self.old.segments handle.place.segment ≡ true
            → result ≢ Err Elsewhere }
        ensures lists { KeepsLists S.number self.old.segments self.new.segments }
        ensures queues { self.new.queues ≡ self.old.queues }
        ensures judged { is_held S.number self.old.segments handle.place.segment ≡ true
            → (word : ℕ) × Stepped S.number S.shows S.steps handle.place word word
            self.old.segments self.new.segments
            × IsJudged policy.now actor.0 Right.Read handle word (rule_in result) }
        ensures kept { KeepsAll S.number S.records self.old.segments self.new.segments }
    {
        let Some(found) = self.found(handle.place.segment) else {
            return Err(Refused::Elsewhere);
        };
        let segment = &mut self.segments[found as usize];
        let value = read_word(segment, policy, actor, handle, index);
        segment.settled();
        value
    }

    /// Writes a word of a block. Each refusal as of `read`, with the right to write; it leaves
    /// words, records and lists as they are, and so does a write but for the one word.
    pub fn write(
        &mut self,
        policy: &Policy,
        actor: Actor,
        handle: Handle,
        index: u32,
        value: u64,
    ) -> Result<(), Refused>
        requires allowed { MayLook S.shows S.allows S.number handle.place self.old.segments }
        ensures elsewhere { is_held S.number self.old.segments handle.place.segment ≡ false
            → (result ≡ Err Elsewhere) × (self.new ≡ self.old) }
        ensures held { is_held S.number self.old.segments handle.place.segment ≡ true
            → (word : ℕ)
            × Stepped S.number S.shows S.steps handle.place word word
            self.old.segments self.new.segments
            × HeapTies S.number S.records policy.now (shown_at handle.place word)
            (shown_at handle.place word) (Event.Write actor handle index value) (done_answer result)
            self.old.segments self.new.segments }
        ensures here { is_held S.number self.old.segments handle.place.segment ≡ true
            → result ≢ Err Elsewhere }
        ensures lists { KeepsLists S.number self.old.segments self.new.segments }
        ensures queues { self.new.queues ≡ self.old.queues }
        ensures judged { is_held S.number self.old.segments handle.place.segment ≡ true
            → (word : ℕ) × Stepped S.number S.shows S.steps handle.place word word
            self.old.segments self.new.segments
            × IsJudged policy.now actor.0 Right.Write handle word (rule_in result) }
        ensures kept { OnErr result
            (KeepsAll S.number S.records self.old.segments self.new.segments) }
        ensures wrote { OnOk result (Wrote S.number S.records handle.place index value
            self.old.segments self.new.segments) }
    {
        let Some(found) = self.found(handle.place.segment) else {
            return Err(Refused::Elsewhere);
        };
        let segment = &mut self.segments[found as usize];
        let written = write_word(segment, policy, actor, handle, index, value);
        segment.settled();
        written
    }

    /// The row of a block of a held segment, if the actor may see it. The word that the step showed
    /// is left in `shown`: where there is no row the verdict on it says why.
    pub fn look(
        &mut self,
        policy: &Policy,
        actor: Actor,
        place: Place,
        shown: &mut u64,
    ) -> Option<Row>
        requires held { is_held S.number self.old.segments place.segment ≡ true }
        requires allowed { MayLook S.shows S.allows S.number place self.old.segments }
        ensures step { Stepped S.number S.shows S.steps place shown.new shown.new
            self.old.segments self.new.segments }
        ensures ties { HeapTies S.number S.records policy.now (shown_at place shown.new)
            (shown_at place shown.new) (Event.Look actor place)
            (row_answer result (list_denial policy.now actor place shown.new))
            self.old.segments self.new.segments }
        ensures lists { KeepsLists S.number self.old.segments self.new.segments }
        ensures queues { self.new.queues ≡ self.old.queues }
        ensures denied { IfNone result ((rule : Rule)
            × (list_denial policy.now actor place shown.new ≡ Some rule)) }
        ensures allowed { IfSome result (λ row.
            list_denial policy.now actor place shown.new ≡ None) }
        ensures live { IfSome result (λ row. IsLiveWord shown.new) }
        ensures row { IfSome result (λ row. IsRowOf place shown.new
            (block_in S.number self.old.segments place) row) }
        ensures kept { KeepsAll S.number S.records self.old.segments self.new.segments }
    {
        let Some(found) = self.found(place.segment) else {
            unreachable!()
        };
        let segment = &mut self.segments[found as usize];
        let row = row_of(segment, policy, actor, place, shown);
        segment.settled();
        row
    }
}

/// Reads a word of a block of the segment.
fn read_word<S: SlotWords>(
    segment: &mut Segment<S>,
    policy: &Policy,
    actor: Actor,
    handle: Handle,
    index: u32,
) -> Result<u64, Refused>
    requires { LetsLook S.shows S.allows handle.place segment.old }
    ensures read { let block = block_at segment.new.words segment.new.classes
        handle.place.page handle.place.index in
        (word : ℕ) × Looked S.number S.records S.shows S.steps handle.place word
        segment.old segment.new
        × (result ≡ reached (use_denial policy.now actor.0 Right.Read handle word) block index
        (slice_index block index)) }
    ensures words { segment.new.words ≡ segment.old.words }
{
    let word = segment.look(handle.place.page, handle.place.index);
    if let Verdict::Denied(rule) = judge(policy, actor, Right::Read, handle, word) {
        return Err(Refused::Denied(rule));
    }
    if index >= u32::from(size_of(segment, handle.place.page, handle.place.index)) {
        return Err(Refused::OutOfBlock);
    }
    Ok(segment.read(handle.place.page, handle.place.index, index as u16))
}

/// Writes a word of a block of the segment.
fn write_word<S: SlotWords>(
    segment: &mut Segment<S>,
    policy: &Policy,
    actor: Actor,
    handle: Handle,
    index: u32,
    value: u64,
) -> Result<(), Refused>
    requires { LetsLook S.shows S.allows handle.place segment.old }
    ensures wrote { (word : ℕ) × Looked S.number S.records S.shows S.steps handle.place word
        segment.old segment.new
        × (result ≡ reached (use_denial policy.now actor.0 Right.Write handle word)
        (block_at segment.old.words segment.old.classes handle.place.page handle.place.index) index
        tt) }
    ensures err { OnErr result (segment.new.words ≡ segment.old.words) }
    ensures ok { OnOk result (block_at segment.new.words segment.old.classes
        handle.place.page handle.place.index
        ≡ slice_set (block_at segment.old.words segment.old.classes
        handle.place.page handle.place.index) index value) }
    ensures others { OnOk result (KeepsOtherBlocks (S.records segment.old.slots) segment.old.classes
        handle.place.page handle.place.index segment.old.words segment.new.words) }
{
    let word = segment.look(handle.place.page, handle.place.index);
    if let Verdict::Denied(rule) = judge(policy, actor, Right::Write, handle, word) {
        return Err(Refused::Denied(rule));
    }
    if index >= u32::from(size_of(segment, handle.place.page, handle.place.index)) {
        return Err(Refused::OutOfBlock);
    }
    segment.write(handle.place.page, handle.place.index, index as u16, value);
    Ok(())
}

/// The row of a block of the segment, if the actor may see it.
fn row_of<S: SlotWords>(
    segment: &mut Segment<S>,
    policy: &Policy,
    actor: Actor,
    place: Place,
    shown: &mut u64,
) -> Option<Row>
    requires { LetsLook S.shows S.allows place segment.old }
    ensures looked { Looked S.number S.records S.shows S.steps place shown.new
        segment.old segment.new }
    ensures words { segment.new.words ≡ segment.old.words }
    ensures none { IfNone result ((rule : Rule)
        × (list_denial policy.now actor place shown.new ≡ Some rule)) }
    ensures allowed { IfSome result (λ row.
        list_denial policy.now actor place shown.new ≡ None) }
    ensures row { IfSome result (λ row. IsRowOf place shown.new
        (block_at segment.new.words segment.new.classes place.page place.index) row) }
{
    let word = segment.look(place.page, place.index);
    *shown = word;
    let handle = Handle {
        place,
        generation: listed_generation(word),
    };
    if let Verdict::Denied(_) = judge(policy, actor, Right::List, handle, word) {
        return None;
    }
    Some(Row {
        handle,
        owner: word_owner(word),
        bytes: WORD_BYTES as u32 * u32::from(size_of(segment, place.page, place.index)),
    })
}

/// How many words the block at an open place has.
pub(crate) fn size_of<S: SlotWords>(segment: &Segment<S>, page: u8, index: u16) -> u16
    requires page { page < SEGMENT_PAGES }
    requires index { index < PAGE_PLACES }
    requires open { is_home (standing_at (S.records segment.now.slots) (slot page index)) ≡ false }
    ensures words { result ≡ length (block_at segment.now.words segment.now.classes page index) }
    ensures class { class_at segment.now.classes page ≡ Some result }
{
    segment.settled();
    let Some(class) = segment.class_of(page) else {
        unreachable!()
    };
    block_words(class)
}

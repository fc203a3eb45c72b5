//! Laws of heaps. Each function does nothing: what it promises is the law.

ghost use Rattle.hg_heap.specs.HeapLaws.{StepsKeepPolicy, KindsKeepPolicy, TakingKeepsKinds};
ghost use Rattle.hg_heap.specs.HeapLaws.{TakingKeepsClasses, TakingKeepsOthers};
ghost use Rattle.hg_heap.specs.HeapLaws.{TakingCountsPlaces, TakingNoneKeepsQueues};
ghost use Rattle.hg_heap.specs.HeapLaws.{MeetingKeepsAll};
ghost use Rattle.hg_heap.specs.Witnessed.{SettledAreRight, NoTieIsEmpty};

use hg_place::SlotWords;

/// A call's step leaves the held segments as a policy has them, so that one test of them, once they
/// are held, serves every allocation that follows.
pub fn steps_keep_policy<S: SlotWords>()
    ensures { StepsKeepPolicy S.number S.shows S.steps }
{}

/// And so does all that keeps the segments' numbers, arenas and greatest generations, in order.
pub fn kinds_keep_policy<S: SlotWords>()
    ensures { KindsKeepPolicy S.number }
{}

/// Places that are taken in leave the segments in their order, each with its number, its arena, its
/// greatest generation and the classes of its pages, and the other segments as they were; no more
/// come home than there are places; and where none does, the queues are as they were.
pub fn taking_keeps<S: SlotWords>()
    ensures kinds { TakingKeepsKinds S.number S.records S.shows S.steps }
    ensures classes { TakingKeepsClasses S.number S.records S.shows S.steps }
    ensures others { TakingKeepsOthers S.number S.records S.shows S.steps }
    ensures count { TakingCountsPlaces S.number S.records S.shows S.steps }
    ensures queues { TakingNoneKeepsQueues S.number S.records S.shows S.steps }
{}

/// Slot words that meet others leave all segments as they were, but for what they know: records,
/// classes, lists and words stay.
pub fn meeting_keeps<S: SlotWords>()
    ensures { MeetingKeepsAll S.number S.records S.shows S.meets }
{}

/// A segment that keeps what it promises, and is as a policy has it, is such as the witness state
/// wants.
pub fn settled_are_right<S: SlotWords>()
    ensures { SettledAreRight S.number S.records S.shows }
{}

/// Where a worker has such segments, and in hand nothing or a block of another's segment, some
/// state agrees, whatever word a step may find at a place of them.
pub fn no_tie_is_empty<S: SlotWords>()
    ensures { NoTieIsEmpty S.number S.records S.shows }
{}

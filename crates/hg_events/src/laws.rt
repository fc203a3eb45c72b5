//! Laws of a core's events. Each function does nothing: what it promises is the law.

ghost use Rattle.hg_events.specs.Delivered.{HandIsUnsent, DeliverIsServed, DeliverIsRefused};
ghost use Rattle.hg_events.specs.LetGo.{HeldIsUnpooled, AbandonIsServed, AbandonIsRefused};
ghost use Rattle.hg_events.specs.Refill.{NextMayBeAdopted, RefillIsServed, NoRefillIsRefused};
ghost use Rattle.hg_events.specs.Take.{TakingIsTake, NoTakeIsTake};
ghost use Rattle.hg_events.specs.Collects.{CollectIsStep};
ghost use Rattle.hg_events.specs.Own.{ReadIsStep, WriteIsStep, LookIsStep, FreeIsDenied};
ghost use Rattle.hg_events.specs.OwnLives.{HeapIsOfPolicy, AllocIsServed, AllocIsRefused};
ghost use Rattle.hg_events.specs.OwnLives.{FreeIsServed};
ghost use Rattle.hg_events.specs.Elsewhere.{HeapWordIsWordAt, PoolWordIsWordAt, HoldsIsHeld};
ghost use Rattle.hg_events.specs.Elsewhere.{NowhereWordIsZero, UnheldIsPooled, UndeniedWordIsLive};
ghost use Rattle.hg_events.specs.Elsewhere.{ReadElsewhere, WriteElsewhere, LookElsewhere};
ghost use Rattle.hg_events.specs.Elsewhere.{FreeIsDeniedElsewhere, FreeIsBusy};
ghost use Rattle.hg_events.specs.PartedAway.{FreeIsPartedInHeap, FreeIsPartedInPool};

/// A place in a hand isn't on the remote list of its segment, which takes it.
pub fn hand_is_unsent()
    ensures { HandIsUnsent }
{}

/// A place that goes from a hand to the remote list of its segment: a Deliver, and tidy parts.
pub fn deliver_is_served()
    ensures { DeliverIsServed }
{}

/// A Deliver is refused where the hand is empty.
pub fn deliver_is_refused()
    ensures { DeliverIsRefused }
{}

/// A segment of a heap isn't in the pool, which takes it.
pub fn held_is_unpooled()
    ensures { HeldIsUnpooled }
{}

/// A segment that leaves a heap and is the last orphan: an Abandon, and tidy parts.
pub fn abandon_is_served()
    ensures { AbandonIsServed }
{}

/// An Abandon is refused where the heap hasn't the segment.
pub fn abandon_is_refused()
    ensures { AbandonIsRefused }
{}

/// The segment that the pool gives next isn't held by the worker, which may adopt it.
pub fn next_may_be_adopted()
    ensures { NextMayBeAdopted }
{}

/// The next segment of an arena goes from the pool to a heap: a Refill, and tidy parts.
pub fn refill_is_served()
    ensures { RefillIsServed }
{}

/// A Refill is refused where the pool has no segment of the arena.
pub fn no_refill_is_refused()
    ensures { NoRefillIsRefused }
{}

/// What was sent to a segment that the worker holds comes home: a Take, and tidy parts.
pub fn taking_is_take()
    ensures { TakingIsTake }
{}

/// A Take is refused where the worker doesn't hold the segment.
pub fn no_take_is_take()
    ensures { NoTakeIsTake }
{}

/// Where a worker's heap is collected, the machine steps by a Collect, answered by the number of
/// pages that lost their class, and tidy parts stay tidy.
pub fn collect_is_step()
    ensures { CollectIsStep }
{}

/// A read of a block of the worker's own heap, whatever it answers: a step, and tidy parts.
pub fn read_is_step()
    ensures { ReadIsStep }
{}

/// And a write.
pub fn write_is_step()
    ensures { WriteIsStep }
{}

/// And a look at a place of that heap.
pub fn look_is_step()
    ensures { LookIsStep }
{}

/// And a free of a block there that is denied.
pub fn free_is_denied()
    ensures { FreeIsDenied }
{}

/// The segments of a worker's heap are as the policy has them.
pub fn heap_is_of_policy()
    ensures { HeapIsOfPolicy }
{}

/// A block that a worker's heap gives out: an Alloc, and tidy parts.
pub fn alloc_is_served()
    ensures { AllocIsServed }
{}

/// An Alloc that the worker's heap refuses changes nothing.
pub fn alloc_is_refused()
    ensures { AllocIsRefused }
{}

/// A live block of a worker's own heap that goes home: a Free, and tidy parts.
pub fn free_is_served()
    ensures { FreeIsServed }
{}

/// The slot word that a heap has of a place is the place's.
pub fn heap_word_is_word_at()
    ensures { HeapWordIsWordAt }
{}

/// So is the one that the pool has.
pub fn pool_word_is_word_at()
    ensures { PoolWordIsWordAt }
{}

/// A worker holds in the machine's state what its heap has.
pub fn holds_is_held()
    ensures { HoldsIsHeld }
{}

/// Where no heap has the segment, nor the pool, the word is 0.
pub fn nowhere_word_is_zero()
    ensures { NowhereWordIsZero }
{}

/// A segment of the policy that no heap has is in the pool.
pub fn unheld_is_pooled()
    ensures { UnheldIsPooled }
{}

/// What no rule denies has the word of a live block, in a segment of the policy.
pub fn undenied_word_is_live()
    ensures { UndeniedWordIsLive }
{}

/// A Read of a block of a segment that the worker doesn't hold is refused.
pub fn read_elsewhere()
    ensures { ReadElsewhere }
{}

/// So is a Write.
pub fn write_elsewhere()
    ensures { WriteElsewhere }
{}

/// And a Look.
pub fn look_elsewhere()
    ensures { LookElsewhere }
{}

/// A Free that a rule denies is refused by it.
pub fn free_is_denied_elsewhere()
    ensures { FreeIsDeniedElsewhere }
{}

/// One of such a block that no rule denies is refused where the worker's hand is full.
pub fn free_is_busy()
    ensures { FreeIsBusy }
{}

/// Else it is answered Parted, once another worker's heap has parted the block and the place is in
/// the worker's hand; and parts stay tidy.
pub fn free_is_parted_in_heap()
    ensures { FreeIsPartedInHeap }
{}

/// And so it is once the pool has.
pub fn free_is_parted_in_pool()
    ensures { FreeIsPartedInPool }
{}

//! Laws of a core's choices. Each function does nothing: what it promises is the law.

ghost use Rattle.hg_chosen.specs.Choice.{ChoiceIsTold};
ghost use Rattle.hg_chosen.specs.Given.{AllocIsChosen};
ghost use Rattle.hg_chosen.specs.Same.{ReadIsChosen, WriteIsChosen, LookIsChosen};
ghost use Rattle.hg_chosen.specs.Same.{DeniedFreeIsChosen};
ghost use Rattle.hg_chosen.specs.Parted.{PartedInHeapIsChosen, PartedInPoolIsChosen};
ghost use Rattle.hg_chosen.specs.Freed.{FreeIsChosen};
ghost use Rattle.hg_chosen.specs.Taken.{TakeIsChosen};
ghost use Rattle.hg_chosen.specs.Refused.{RefusedIsChosen};
ghost use Rattle.hg_chosen.specs.Delivered.{DeliverIsChosen};
ghost use Rattle.hg_chosen.specs.LetGo.{AbandonIsChosen};
ghost use Rattle.hg_chosen.specs.Refilled.{RefillIsChosen};
ghost use Rattle.hg_chosen.specs.Collected.{CollectIsChosen};

/// What a worker's heap gives out next is what a run with its choices does.
pub fn choice_is_told()
    ensures { ChoiceIsTold }
{}

/// A block that a worker's heap gives out: an Alloc with its choices.
pub fn alloc_is_chosen()
    ensures { AllocIsChosen }
{}

/// A read of a block of the worker's own heap, whatever it answers, is a step with its choices.
pub fn read_is_chosen()
    ensures { ReadIsChosen }
{}

/// So is a write.
pub fn write_is_chosen()
    ensures { WriteIsChosen }
{}

/// And a look.
pub fn look_is_chosen()
    ensures { LookIsChosen }
{}

/// And a free that is denied.
pub fn denied_free_is_chosen()
    ensures { DeniedFreeIsChosen }
{}

/// And a free of a block that another worker's heap has parted, once the place is in the
/// worker's hand.
pub fn parted_in_heap_is_chosen()
    ensures { PartedInHeapIsChosen }
{}

/// And of one that the pool has parted.
pub fn parted_in_pool_is_chosen()
    ensures { PartedInPoolIsChosen }
{}

/// And of a live block of the worker's own heap that goes home.
pub fn free_is_chosen()
    ensures { FreeIsChosen }
{}

/// And a take: all that was sent to the segment comes home, in the order in which it is drained.
pub fn take_is_chosen()
    ensures { TakeIsChosen }
{}

/// An event that is refused: a step with its choices, which leaves the core as it is.
pub fn refused_is_chosen()
    ensures { RefusedIsChosen }
{}

/// A place that goes from a hand to the remote list of its segment: a Deliver with its choices.
pub fn deliver_is_chosen()
    ensures { DeliverIsChosen }
{}

/// A segment that leaves a heap and is the last orphan: an Abandon with its choices.
pub fn abandon_is_chosen()
    ensures { AbandonIsChosen }
{}

/// The next segment of an arena goes from the pool to a heap: a Refill with its choices.
pub fn refill_is_chosen()
    ensures { RefillIsChosen }
{}

/// A worker's heap is collected: a Collect with its choices.
pub fn collect_is_chosen()
    ensures { CollectIsChosen }
{}

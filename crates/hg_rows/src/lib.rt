//! Worked runs of the machine, each a fact that the check computes.
#![tactic(auto)]

ghost use Rattle.hg_rows.specs.Allocating.{RefillThenAlloc, ExactFitThenOverLimit};
ghost use Rattle.hg_rows.specs.Allocating.{ChargeByClassBytes, ArenaBeforeSizeLimitAndGrant};
ghost use Rattle.hg_rows.specs.Allocating.{LimitBeforeRoom};
ghost use Rattle.hg_rows.specs.Judging.{StaleThenFreedThenArena};
ghost use Rattle.hg_rows.specs.Judging.{StrangerThenStaleThenGrant, GrantThenHolderThenLength};
ghost use Rattle.hg_rows.specs.Judging.{NoSuchSegment, LooksShowWhatMayBeListed};
ghost use Rattle.hg_rows.specs.Granting.{EachRightServesItsOwn};
ghost use Rattle.hg_rows.specs.Denying.{EachDenyTakesItsOwn};
ghost use Rattle.hg_rows.specs.Lives.{StaleAfterReuse, WornPlaceIsNeverGivenOut};
ghost use Rattle.hg_rows.specs.Parting.{DeliveredThenTaken, FullHandIsBusy};
ghost use Rattle.hg_rows.specs.Parting.{PartedBlockCountsInCharge, HandIsNotTaken};
ghost use Rattle.hg_rows.specs.Parting.{DelayedBeforeThreadFree};
ghost use Rattle.hg_rows.specs.Holding.{OrphansByTurn, AbandonAndAdoptWithLiveBlocks};
ghost use Rattle.hg_rows.specs.Partitions.{ListsInOrder, FreeListsOutOfOrder};
ghost use Rattle.hg_rows.specs.Partitions.{SentListsOutOfOrder};
ghost use Rattle.hg_rows.specs.WorkedPolicy.{WorkedPolicyIsSound};

/// A worker that holds nothing has no room; with a segment it has.
pub fn refill_then_alloc()
    ensures { RefillThenAlloc }
{}

/// What fits the limit exactly is served, and no byte more.
pub fn exact_fit_then_over_limit()
    ensures { ExactFitThenOverLimit }
{}

/// The limit is told before there is a question of room.
pub fn limit_before_room()
    ensures { LimitBeforeRoom }
{}

/// What counts against the limit is the bytes of the size class.
pub fn charge_by_class_bytes()
    ensures { ChargeByClassBytes }
{}

/// An arena that doesn't admit the actor is named before size, limit and grant.
pub fn arena_before_size_limit_and_grant()
    ensures { ArenaBeforeSizeLimitAndGrant }
{}

/// A stranger is named before a stale handle, and that before what isn't granted.
pub fn stranger_then_stale_then_grant()
    ensures { StrangerThenStaleThenGrant }
{}

/// What isn't granted is denied wherever it is asked; then holder and length are told.
pub fn grant_then_holder_then_length()
    ensures { GrantThenHolderThenLength }
{}

/// A stale handle and a freed block are told before an arena that doesn't admit the actor.
pub fn stale_then_freed_then_arena()
    ensures { StaleThenFreedThenArena }
{}

/// What a segment that the policy lacks is answered.
pub fn no_such_segment()
    ensures { NoSuchSegment }
{}

/// A look shows a block to whom may list it, where its segment is held.
pub fn looks_show_what_may_be_listed()
    ensures { LooksShowWhatMayBeListed }
{}

/// A grant of one right alone serves what asks for that right, and nothing else.
pub fn each_right_serves_its_own()
    ensures { EachRightServesItsOwn }
{}

/// What is forbidden alone is denied to what asks for it, also where nothing is granted; the others
/// are served.
pub fn each_deny_takes_its_own()
    ensures { EachDenyTakesItsOwn }
{}

/// After its place is given out again a handle is stale, and the new block reads zero.
pub fn stale_after_reuse()
    ensures { StaleAfterReuse }
{}

/// A place past its last life is never given out again, in no class.
pub fn worn_place_is_never_given_out()
    ensures { WornPlaceIsNeverGivenOut }
{}

/// A block freed elsewhere is freed for all at once, and home once delivered and taken.
pub fn delivered_then_taken()
    ensures { DeliveredThenTaken }
{}

/// A hand has one block; the verdict on a block is told before a full hand.
pub fn full_hand_is_busy()
    ensures { FullHandIsBusy }
{}

/// A parted block counts in the charge until it is taken.
pub fn parted_block_counts_in_charge()
    ensures { PartedBlockCountsInCharge }
{}

/// What is in a hand stays there, also where its own worker holds the segment.
pub fn hand_is_not_taken()
    ensures { HandIsNotTaken }
{}

/// A segment's sent places are the delayed ones and those of all its pages.
pub fn delayed_before_thread_free()
    ensures { DelayedBeforeThreadFree }
{}

/// Two pages with places on all four lists are a partition; so they are on two lists alone.
pub fn lists_in_order()
    ensures { ListsInOrder }
{}

/// Free lists are no partition that leave out a free place, or have one twice, or another one.
pub fn free_lists_out_of_order()
    ensures { FreeListsOutOfOrder }
{}

/// Sent lists are no partition that leave out a sent place, or have one twice, or another one; nor
/// are thread-free places of a page of which none is delayed.
pub fn sent_lists_out_of_order()
    ensures { SentListsOutOfOrder }
{}

/// Orphans are held again by turn, before fresh segments by number.
pub fn orphans_by_turn()
    ensures { OrphansByTurn }
{}

/// A segment given up with a live block is held again with that block and its words.
pub fn abandon_and_adopt_with_live_blocks()
    ensures { AbandonAndAdoptWithLiveBlocks }
{}

/// The policy of the worked runs is sound, and so is its opening state.
pub fn worked_policy_is_sound()
    ensures { WorkedPolicyIsSound }
{}

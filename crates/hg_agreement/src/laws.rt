//! Laws of agreement. Each function does nothing: what it promises is the law.

ghost use Rattle.hg_agreement.specs.Ties.{LikeAgrees, RefusalsAgree, RefusedIsTied, ReadIsTied};
ghost use Rattle.hg_agreement.specs.Ties.{LookIsTied, WriteIsTied, FreeHereIsTied, FreeAwayIsTied};
ghost use Rattle.hg_agreement.specs.Ties.{CollectIsTied, AllocIsTied, TiesAreLike, UndeniedIsLive};
ghost use Rattle.hg_agreement.specs.Witness.{WitnessAgrees};
ghost use Rattle.hg_agreement.specs.Parts.{HeapsAgree};
ghost use Rattle.hg_agreement.specs.HeldPut.{PutIsLike, PutIsLikePut};
ghost use Rattle.hg_agreement.specs.LeftPut.{LeftPutIsRecord};
ghost use Rattle.hg_agreement.specs.Moves.{LetGoIsAbandoned};
ghost use Rattle.hg_agreement.specs.PlainPut.{SwapIsMap, PutIsPut, PutIsRecord};
ghost use Rattle.hg_agreement.specs.Pool.{NextIsFirst, TakenUpIsAdopted, RemovingIsWithout};
ghost use Rattle.hg_agreement.specs.TakenIn.{TakenInIsSettled, SentAreListed};
ghost use Rattle.hg_agreement.specs.Swept.{SweptIsCleared};
ghost use Rattle.hg_agreement.specs.Orders.{SwapKeepsOrder, SweptKeepsOrder, LetGoKeepsOrder};
ghost use Rattle.hg_agreement.specs.Orders.{TakenUpKeepsOrder, LeftPutKeepsOrder};
ghost use Rattle.hg_agreement.specs.CoreSteps.{TakeIsStep, LetGoIsStep, RefilledIsTakenUp};
ghost use Rattle.hg_agreement.specs.CoreSteps.{RefillIsStep, NoRefillIsStep, SweptIsStep};
ghost use Rattle.hg_agreement.specs.Unused.{UnusedIsOpening};
ghost use Rattle.hg_agreement.specs.HeapMoves.{PushedHasCome, LeftOutIsGone, DeliverIsStep};
ghost use Rattle.hg_agreement.specs.Ties.{TiedCallsAreSteps, FreedHandIsUsual};
ghost use Rattle.hg_agreement.specs.Answerable.{RoomsAgree, RoomIsSomeHandle, RowIsThere};
ghost use Rattle.hg_agreement.specs.HoldingLaws.{BlocksAreTheSegments, RightHoldingsAreHeaps};
ghost use Rattle.hg_agreement.specs.PartsLaws.{SegmentsAreTold, RemotesAreTold};
ghost use Rattle.hg_agreement.specs.PartsLaws.{PlainSegmentsAreTold, PartsAreKept};
ghost use Rattle.hg_agreement.specs.WitnessLaws.{WitnessTellsNoMore};
ghost use Rattle.hg_agreement.specs.Usual.{FittingWordsAreFound, WordsAreUsual};

/// Views that tell the same agree with the same states.
pub fn like_agrees()
    ensures { LikeAgrees }
{}

/// What is tied is tied with a view that tells the same.
pub fn ties_are_like()
    ensures { TiesAreLike }
{}

/// What no rule denies was live, with the generation of the handle.
pub fn undenied_is_live()
    ensures { UndeniedIsLive }
{}

/// A state that agrees refuses what the view and the word refuse.
pub fn refusals_agree()
    ensures { RefusalsAgree }
{}

/// A refused call leaves the agreement.
pub fn refused_is_tied()
    ensures { RefusedIsTied }
{}

/// A served Read is the machine's.
pub fn read_is_tied()
    ensures { ReadIsTied }
{}

/// A served Look is the machine's.
pub fn look_is_tied()
    ensures { LookIsTied }
{}

/// A served Write is the machine's.
pub fn write_is_tied()
    ensures { WriteIsTied }
{}

/// A Free of a block of a held segment is the machine's.
pub fn free_here_is_tied()
    ensures { FreeHereIsTied }
{}

/// A Free of another block is the machine's.
pub fn free_away_is_tied()
    ensures { FreeAwayIsTied }
{}

/// A Collect is the machine's.
pub fn collect_is_tied()
    ensures { CollectIsTied }
{}

/// A served Alloc is the machine's.
pub fn alloc_is_tied()
    ensures { AllocIsTied }
{}

/// The witness state agrees, but for the exceptions.
pub fn witness_agrees()
    ensures { WitnessAgrees }
{}

/// The state of the parts of a core agrees with each heap.
pub fn heaps_agree()
    ensures { HeapsAgree }
{}

/// A change of a held segment is a change of what the state tells of it.
pub fn swap_is_map()
    ensures { SwapIsMap }
{}

/// A change of one place of a held segment is a change of its record and of its page's class.
pub fn put_is_put()
    ensures { PutIsPut }
{}

/// Or of the record alone, where the class is the same.
pub fn put_is_record()
    ensures { PutIsRecord }
{}

/// A change of one place of a held segment is a change of what the view tells of it and its page.
pub fn put_is_like()
    ensures { PutIsLike }
{}

/// Or of the place alone, where the class is the same.
pub fn put_is_like_put()
    ensures { PutIsLikePut }
{}

/// A change of one place of a segment that nobody holds is a change of its record.
pub fn left_put_is_record()
    ensures { LeftPutIsRecord }
{}

/// A segment let go from a heap to the end of the orphans is abandoned.
pub fn let_go_is_abandoned()
    ensures { LetGoIsAbandoned }
{}

/// A refill takes the first segment of the pool that is of the arena.
pub fn next_is_first()
    ensures { NextIsFirst }
{}

/// A segment taken from the pool into a heap is adopted.
pub fn taken_up_is_adopted()
    ensures { TakenUpIsAdopted }
{}

/// A segment whose remote list was taken in is settled.
pub fn taken_in_is_settled()
    ensures { TakenInIsSettled }
{}

/// A heap whose idle pages have lost their class is cleared.
pub fn swept_is_cleared()
    ensures { SweptIsCleared }
{}

/// A change of a held segment leaves heaps sorted and the pool with the rest.
pub fn swap_keeps_order()
    ensures { SwapKeepsOrder }
{}

/// So does a Collect.
pub fn swept_keeps_order()
    ensures { SweptKeepsOrder }
{}

/// So does a segment let go.
pub fn let_go_keeps_order()
    ensures { LetGoKeepsOrder }
{}

/// So does a segment taken up.
pub fn taken_up_keeps_order()
    ensures { TakenUpKeepsOrder }
{}

/// As many places are sent as stand on the remote list.
pub fn sent_are_listed()
    ensures { SentAreListed }
{}

/// Taking in a remote list is a Take.
pub fn take_is_step()
    ensures { TakeIsStep }
{}

/// Letting a segment go is an Abandon.
pub fn let_go_is_step()
    ensures { LetGoIsStep }
{}

/// What a refill takes stands in the pool.
pub fn refilled_is_taken_up()
    ensures { RefilledIsTakenUp }
{}

/// Taking the first of the pool is a Refill.
pub fn refill_is_step()
    ensures { RefillIsStep }
{}

/// A Refill is refused where the pool has none.
pub fn no_refill_is_step()
    ensures { NoRefillIsStep }
{}

/// Sweeping a heap is a Collect.
pub fn swept_is_step()
    ensures { SweptIsStep }
{}

/// Removing one that stands once leaves the others.
pub fn removing_is_without()
    ensures { RemovingIsWithout }
{}

/// The parts of a core to which nothing has happened are the opening, in order.
pub fn unused_is_opening()
    ensures { UnusedIsOpening }
{}

/// A change of a segment that nobody holds leaves heaps sorted and the pool with the rest.
pub fn left_put_keeps_order()
    ensures { LeftPutKeepsOrder }
{}

/// What is pushed to a heap has come.
pub fn pushed_has_come()
    ensures { PushedHasCome }
{}

/// What is left out of a heap is gone.
pub fn left_out_is_gone()
    ensures { LeftOutIsGone }
{}

/// Emptying a hand is a Deliver.
pub fn deliver_is_step()
    ensures { DeliverIsStep }
{}

/// A tied call is a step of the machine, to a state that agrees afterwards.
pub fn tied_calls_are_steps()
    ensures { TiedCallsAreSteps }
{}

/// A block freed away is in the hand with the life that its word says is over: the word is found,
/// and the worker usual.
pub fn freed_hand_is_usual()
    ensures { FreedHandIsUsual }
{}

/// A place has room in the view exactly where it has room in the state.
pub fn rooms_agree()
    ensures { RoomsAgree }
{}

/// An Alloc that isn't refused has a handle that may answer it.
pub fn room_is_some_handle()
    ensures { RoomIsSomeHandle }
{}

/// A Look that isn't refused has a row that may answer it.
pub fn row_is_there()
    ensures { RowIsThere }
{}

/// The words that a view tells of a block are those of the segment.
pub fn blocks_are_the_segments()
    ensures { BlocksAreTheSegments }
{}

/// The state and the lists tell of a segment what it keeps, wherever it stands.
pub fn segments_are_told()
    ensures { SegmentsAreTold }
{}

/// The lists of sent places are those of the remote lists.
pub fn remotes_are_told()
    ensures { RemotesAreTold }
{}

/// Beyond what the worker has and observed, the witness state tells nothing.
pub fn witness_tells_no_more()
    ensures { WitnessTellsNoMore }
{}

/// A slot word that fits what is recorded, and isn't before the end of the life in hand, is found.
pub fn fitting_words_are_found()
    ensures { FittingWordsAreFound }
{}

/// A worker whose hand is empty, or has a block of another's segment, is usual at its own words;
/// and of the words at the place in hand those past the freed word are excluded, and no others.
pub fn words_are_usual()
    ensures { WordsAreUsual }
{}

/// What a worker with right segments has is as the witness state wants it.
pub fn right_holdings_are_heaps()
    ensures { RightHoldingsAreHeaps }
{}

/// A segment over plain words has what its callers see.
pub fn plain_segments_are_told()
    ensures { PlainSegmentsAreTold }
{}

/// A core is seen as the state, the lists and the queues of its parts.
pub fn parts_are_kept()
    ensures { PartsAreKept }
{}

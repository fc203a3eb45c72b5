//! What a step of one worker leaves to all who have no part in it. Each function does nothing: what
//! it promises is the law.
#![tactic(auto)]

ghost use Rattle.hg_frame.specs.Workers.{OthersStay};
ghost use Rattle.hg_frame.specs.Remotes.{RemotesStay};
ghost use Rattle.hg_frame.specs.Pool.{PoolStays};
ghost use Rattle.hg_frame.specs.SlotWords.{WordsStay};

/// A step of one worker leaves to each other what it holds and what it has in hand.
pub fn others_stay()
    ensures { OthersStay }
{}

/// What is sent to a segment stays, but where it is taken in or a block of it is delivered.
pub fn remotes_stay()
    ensures { RemotesStay }
{}

/// The pool stays, but where a segment is abandoned or a heap refilled.
pub fn pool_stays()
    ensures { PoolStays }
{}

/// Each slot word goes on showing its place, but the one of a block that is given out or freed.
pub fn words_stay()
    ensures { WordsStay }
{}

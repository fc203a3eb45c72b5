//! Laws of workers, over slot words of any kind, and whatever is told of them as what they know.
//! Each function does nothing: what it promises is the law.

ghost use Rattle.hg_table.specs.declared.view.Part.{Part};
ghost use Rattle.hg_worker.specs.WorkerLaws.{OneWordIsLeft, FreesEndTheirs, TheirLivesAreApart};
ghost use Rattle.hg_worker.specs.WorkerLaws.{ViewsChangeAtSteps, LooksEndNothing, SeatsGoAlong};

use hg_place::SlotWords;

/// The worker before a call and after it tell which word the call left and which lives it ended, so
/// that no two clauses of one call speak of two words.
pub fn one_word_is_left<S: SlotWords>()
    ensures { (part : S → Part) → OneWordIsLeft S.number part }
{}

/// A free that was served has ended the life that the handle names, and no other.
pub fn frees_end_theirs<S: SlotWords>()
    ensures { (part : S → Part) → FreesEndTheirs S.number part }
{}

/// A call that looked, and kept its segments, has ended nothing: so each refusal.
pub fn looks_end_nothing<S: SlotWords>()
    ensures { (part : S → Part) → LooksEndNothing S.number part S.records }
{}

/// Two workers that have met at a place have ended no life of it both.
pub fn their_lives_are_apart<S: SlotWords>()
    ensures { (part : S → Part) → TheirLivesAreApart S.number part }
{}

/// What a worker's seat for a place knows changes at steps alone, and is forgotten never; a step
/// adds what it left at its place, and nothing of another's word.
pub fn views_change_at_steps<S: SlotWords>()
    ensures { (part : S → Part) → ViewsChangeAtSteps S.number part }
{}

/// What was seen and ended through a segment's seat goes with the segment: to the pool to which it
/// is abandoned, and to the worker that takes it from there.
pub fn seats_go_along<S: SlotWords>()
    ensures { (part : S → Part) → SeatsGoAlong S.number part S.records }
{}

//! What the one run says of logs, and what answers are. Each function does nothing: what it promises
//! is the law.

ghost use Rattle.hg_run_table.specs.AnswerLaws.{TiesMayAnswer, LooksMayAnswer};
ghost use Rattle.hg_run_table.specs.AnswerLaws.{AnswersAreTheCalls};
ghost use Rattle.hg_run_table.specs.FreedOnce.{FreedOnce};

/// Of the frees of one block that workers have logged, of two of them or of one, at most one was served.
pub fn freed_once()
    ensures { FreedOnce }
{}

/// Where a worker is asked one event, and a call by it is tied at the word of a place, a step there may
/// answer it.
pub fn ties_may_answer()
    ensures { TiesMayAnswer }
{}

/// Where no answer to it changes a word, any look may.
pub fn looks_may_answer()
    ensures { LooksMayAnswer }
{}

/// Where a worker is asked one event, and a call by it is tied at the word of a place, whatever step has
/// answered it there has made this call: the worker's log is longer by it, and by no other, it has then
/// what it has after the call, and is asked what comes next.
pub fn answers_are_the_calls()
    ensures { AnswersAreTheCalls }
{}

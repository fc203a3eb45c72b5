//! Laws of the words of all places, whichever seats step and in whatever order. Each function does
//! nothing: what it promises is the law.

ghost use Rattle.hg_table.specs.LifeLaws.{StepsKeepTheRule, WordsGoForward, EndedStaysEnded};
ghost use Rattle.hg_table.specs.LifeLaws.{EndedByOneSeat, SeenIsNeverAhead, RecordsHold};
ghost use Rattle.hg_table.specs.LifeLaws.{EndedBySomeSeat, WordsAreSeen, TheRuleGoesForward};
ghost use Rattle.hg_table.specs.LifeLaws.{WhatEndsIsEnded, SeatsStayAsMany};
ghost use Rattle.hg_table.specs.KnownLaws.{StepsAddOneLife, MeetingsAreApart, NothingIsKnown};
ghost use Rattle.hg_table.specs.KnownLaws.{LeftIsPastSeen, OnePartSteps};

/// A new table keeps the life rule, and each of the seven kinds of step keeps it.
pub fn steps_keep_the_rule()
    ensures { StepsKeepTheRule }
{}

/// A word goes forward at each kind of step.
pub fn words_go_forward()
    ensures { WordsGoForward }
{}

/// A life that a seat has ended stays ended.
pub fn ended_stays_ended()
    ensures { EndedStaysEnded }
{}

/// Two seats never end one life.
pub fn ended_by_one_seat()
    ensures { EndedByOneSeat }
{}

/// Each life that is over was ended by some seat: with the law before, by exactly one.
pub fn ended_by_some_seat()
    ensures { EndedBySomeSeat }
{}

/// Each word but 0 was seen by some seat.
pub fn words_are_seen()
    ensures { WordsAreSeen }
{}

/// Whatever leads from one table that keeps the rule to another, no word goes back, as long as what
/// some seat had seen some seat has seen still; and a word that has changed some seat has seen now.
pub fn the_rule_goes_forward()
    ensures { TheRuleGoesForward }
{}

/// Whatever leads from one table that keeps the rule to another, a life that is over in that one
/// alone some seat has ended meanwhile.
pub fn what_ends_is_ended()
    ensures { WhatEndsIsEnded }
{}

/// Whatever leads from one table that keeps the rule to another, the seats, with those that may
/// still come out of them, stay as many: a seat out of which none may come can't be cut into two that
/// know anything, and one that comes from nothing knows nothing.
pub fn seats_stay_as_many()
    ensures { SeatsStayAsMany }
{}

/// What was seen is never ahead of the word.
pub fn seen_is_never_ahead()
    ensures { SeenIsNeverAhead }
{}

/// A record is never contradicted by the word of its place.
pub fn records_hold()
    ensures { RecordsHold }
{}

/// What a seat has ended after a step it had ended before, or it is the place's life that this step
/// found alive and left ended; so it is with what it has seen, and nothing is forgotten.
pub fn steps_add_one_life()
    ensures { StepsAddOneLife }
{}

/// Of two seats that have met no life was ended by both.
pub fn meetings_are_apart()
    ensures { MeetingsAreApart }
{}

/// Who knows nothing is who has seen no word and ended no life.
pub fn nothing_is_known()
    ensures { NothingIsKnown }
{}

/// A step leaves no word that is before one that was seen there.
pub fn left_is_past_seen()
    ensures { LeftIsPastSeen }
{}

/// A step by one of several parts of a seat changes that part as it changes a seat of it alone, and each
/// other has seen the word that is left; a part may make what a seat of it alone may.
pub fn one_part_steps()
    ensures { OnePartSteps }
{}

//! Laws of a bank. Each function does nothing: what it promises is the law.

ghost use Rattle.hg_bank.specs.Hidden.{WordsStayHidden, ActorsAreToldNothing, SecondStepsAre};
ghost use Rattle.hg_bank.specs.Laws.{OthersStay, StepsAreDetermined, EachCoreRuns};
ghost use Rattle.hg_bank.specs.Laws.{AllWereAsked, CurrentsMove, AbsentIsUnused};
ghost use Rattle.hg_bank.specs.Laws.{OneCoreIsACore, BankStepsKeepPolicy};
ghost use Rattle.hg_bank.specs.Limits.{SumsStayLow, LimitsArePassedByAdopting};

/// A step leaves each core but the one that serves as it was.
pub fn others_stay()
    ensures { OthersStay }
{}

/// A step keeps the policy, and so the workers that it has.
pub fn steps_keep_policy()
    ensures { BankStepsKeepPolicy }
{}

/// A request has one answer, and leaves one bank.
pub fn steps_are_determined()
    ensures { StepsAreDetermined }
{}

/// What each core was asked and answered is a run of the core's machine.
pub fn each_core_runs()
    ensures { EachCoreRuns }
{}

/// `NoRoom` and `NoSegment` are answered only where no core has what was asked for.
pub fn all_were_asked()
    ensures { AllWereAsked }
{}

/// The core that gives a block or a segment is current from then on, and no other current core
/// moves.
pub fn currents_move()
    ensures { CurrentsMove }
{}

/// An event that names a core which isn't there is answered as by one that just opened.
pub fn absent_is_unused()
    ensures { AbsentIsUnused }
{}

/// A bank of one core answers as that core does.
pub fn one_core_is_a_core()
    ensures { OneCoreIsACore }
{}

/// No step raises what counts with a worker over all cores, but an allocation within the limit, and
/// a refill by which that worker adopts.
pub fn sums_stay_low()
    ensures { SumsStayLow }
{}

/// What counts for a tenant with a worker over all cores is above its limit only where that worker
/// has adopted since the opening.
pub fn limits_are_passed_by_adopting()
    ensures { LimitsArePassedByAdopting }
{}

/// What is written into blocks that an actor may not read shows in nothing but permitted reads of
/// them.
pub fn words_stay_hidden()
    ensures { WordsStayHidden }
{}

/// No answer to an actor, nor to a worker that asks for nobody, and no choice of a core tells
/// anything of what is written where the actor may not read.
pub fn actors_are_told_nothing()
    ensures { ActorsAreToldNothing }
{}

/// Where there is a step of one of two such banks there is one of the other.
pub fn second_steps_are()
    ensures { SecondStepsAre }
{}

//! Laws of runs with their choices. Each function does nothing: what it promises is the law.

ghost use Rattle.hg_choice.specs.ChoiceLaws.{ChosenRunsAreRuns, ChoicesAreDetermined};
ghost use Rattle.hg_choice.specs.Readers.{MayReadIsVerdict};
ghost use Rattle.hg_choice.specs.WordLaws.{WordsStayHidden, SecondRunsAre, ActorsAreToldNothing};
ghost use Rattle.hg_choice.specs.WordLaws.{WordsMayBeForgotten, ValuesShowInValues};
ghost use Rattle.hg_choice.specs.HiddenLaws.{HiddenIsUnreadable, HiddenWritesAreSame};
ghost use Rattle.hg_choice.specs.HiddenLaws.{OwnEventsAreTold};

/// A run with its choices is a run of the machine.
pub fn chosen_runs_are_runs()
    ensures { ChosenRunsAreRuns }
{}

/// The events of a run with its choices determine all its answers and what it leaves.
pub fn choices_are_determined()
    ensures { ChoicesAreDetermined }
{}

/// An actor may read a block exactly where no rule denies it a read of it, and may not where one
/// does.
pub fn may_read_is_verdict()
    ensures { MayReadIsVerdict }
{}

/// What the laws below hide from an actor are the blocks that the policy doesn't let it read.
pub fn hidden_is_unreadable()
    ensures { HiddenIsUnreadable }
{}

/// Two writes of one index of a hidden block, of whatever values, are the same event.
pub fn hidden_writes_are_same()
    ensures { HiddenWritesAreSame }
{}

/// An event of an actor, or of nobody, is of no other, and where answers are the same to the actor,
/// those to all such events are.
pub fn own_events_are_told()
    ensures { OwnEventsAreTold }
{}

/// What is written into blocks that an actor may not read shows in nothing but permitted reads of
/// them.
pub fn words_stay_hidden()
    ensures { WordsStayHidden }
{}

/// Where there is one of two such runs there is the other.
pub fn second_runs_are()
    ensures { SecondRunsAre }
{}

/// No event of an actor tells it anything of what is written where it may not read, and none that
/// is on behalf of nobody.
pub fn actors_are_told_nothing()
    ensures { ActorsAreToldNothing }
{}

/// A run with 0 for all words and values is a run.
pub fn words_may_be_forgotten()
    ensures { WordsMayBeForgotten }
{}

/// Runs whose events differ in written values alone differ in answered values alone.
pub fn values_show_in_values()
    ensures { ValuesShowInValues }
{}

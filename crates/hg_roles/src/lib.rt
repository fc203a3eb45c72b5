//! The parts of a running service by role, and that a tied call of a worker is what its deciding
//! step owes to one run of all calls. Each function does nothing: what it promises is the law.
#![tactic(auto)]

ghost use Rattle.hg_roles.specs.Beginning.{OpenedIsNew};
ghost use Rattle.hg_roles.specs.Deciding.{TiesDecide, PrivateCallsDecide, RefusalsDecide};
ghost use Rattle.hg_roles.specs.FirstParts.{FirstPartsAreThere};
ghost use Rattle.hg_roles.specs.Histories.{PartsKeepOneRun, HistoriesAreRuns, EndsAreRuns};
ghost use Rattle.hg_roles.specs.Joined.{TakesDecide, DeliversDecide};
ghost use Rattle.hg_roles.specs.Names.{NamesAreApart};
ghost use Rattle.hg_roles.specs.Pooling.{AbandonsDecide, RefillsDecide, EmptyRefillsDecide};

/// Each worker, list, pool and seat of a segment has a name of its own, below the count.
pub fn names_are_apart()
    ensures { NamesAreApart }
{}

/// New workers, lists to which nothing was sent and a pool of fresh segments begin a run.
pub fn opened_is_new()
    ensures { OpenedIsNew }
{}

/// There are such parts, one of each name.
pub fn first_parts_are_there()
    ensures { FirstPartsAreThere }
{}

/// Whatever steps of such seats decide, and however seats join and split, all calls are one run.
pub fn parts_keep_one_run()
    ensures { PartsKeepOneRun }
{}

/// A call that is tied at the word that its step found decides there.
pub fn ties_decide()
    ensures { TiesDecide }
{}

/// A call that is tied without a word decides at a step that leaves all words.
pub fn private_calls_decide()
    ensures { PrivateCallsDecide }
{}

/// A call that the worker's own view refuses decides at a step that leaves all words.
pub fn refusals_decide()
    ensures { RefusalsDecide }
{}

/// A Take is one event of the joined seats of a worker and a list, which brings all of it home.
pub fn takes_decide()
    ensures { TakesDecide }
{}

/// A Deliver is one event of the joined seats of a worker and a list, which has one more then.
pub fn delivers_decide()
    ensures { DeliversDecide }
{}

/// An Abandon is one event of the joined seats of a worker and the pool.
pub fn abandons_decide()
    ensures { AbandonsDecide }
{}

/// So is a Refill, which takes the segment that the pool has next for the arena.
pub fn refills_decide()
    ensures { RefillsDecide }
{}

/// And one that finds none changes nothing.
pub fn empty_refills_decide()
    ensures { EmptyRefillsDecide }
{}

/// A history of the service is a run of the machine.
pub fn histories_are_runs()
    ensures { HistoriesAreRuns }
{}

/// Who has all parts of a service knows one run of the machine, of all calls of its workers.
pub fn ends_are_runs()
    ensures { EndsAreRuns }
{}

//! Laws of sides. Each function does nothing: what it promises is the law.

ghost use Rattle.hg_purge.specs.SideLaws.{SidesAreAnsweredAlone, PurgedRunsAreRuns};
ghost use Rattle.hg_purge.specs.SideLaws.{OthersDoNotShow};

/// Where each event names only what is of its worker's side, a side's answers are those of a run of
/// its own events alone.
pub fn sides_are_answered_alone()
    ensures { SidesAreAnsweredAlone }
{}

/// There is such a run.
pub fn purged_runs_are_runs()
    ensures { PurgedRunsAreRuns }
{}

/// What the others do shows in no answer of a side.
pub fn others_do_not_show()
    ensures { OthersDoNotShow }
{}

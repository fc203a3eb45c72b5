//! Laws of what stands. Each function does nothing: what it promises is the law.

ghost use Rattle.hg_state.specs.After.{ComingToReplays};
ghost use Rattle.hg_state.specs.Cells.{CellsAreKinds};
ghost use Rattle.hg_state.specs.Costs.{NoLessIsGiven};
ghost use Rattle.hg_state.specs.Orphans.{FreshAreApart, StepsTellOrphans};

/// The orphans of the machine after a step are those before it and what the event was answered.
pub fn steps_tell_orphans()
    ensures { StepsTellOrphans }
{}

/// In a sound state a segment that nobody holds, and that is no orphan, is fresh.
pub fn fresh_are_apart()
    ensures { FreshAreApart }
{}

/// A place is drawn as live, parted or worn exactly where it counts as that.
pub fn cells_are_kinds()
    ensures { CellsAreKinds }
{}

/// Where lines come to something one after another, that is a replay.
pub fn coming_to_replays()
    ensures { ComingToReplays }
{}

/// No class gives less than was asked for.
pub fn no_less_is_given()
    ensures { NoLessIsGiven }
{}

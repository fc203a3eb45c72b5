use std::marker::Brand;

/// What a step decides, by the word that it finds. A caller picks one by `Brand`.
pub trait Decision {
    ghost use Rattle.std.specs.Prelude.{ℕ, List};
    ghost use Rattle.hg_roles.specs.Roles.{Call, Role};

    // What the parts of the seat have.
    ghost roles: { List Role };

    // The calls that are decided, each with the number of who made it.
    ghost made: { ℕ → List (ℕ × Call) };

    // What each has then.
    ghost change: { ℕ → Role → Role };
}

impl Decision for Brand {
    ghost use Rattle.std.specs.Prelude.{[]};

    ghost roles = { [] };

    ghost made = { λ word. [] };

    ghost change = { λ word role. role };
}

/// Which of the parts that a seat has of words and lives makes a step. A place is opened, closed and
/// taken home by the part that has its record. A life that stays open may be ended by any: it stands
/// among those that this part ended, and goes with it where the seat is cut. A caller picks it by
/// `Brand`.
pub trait StepsBy {
    ghost use Rattle.std.specs.Prelude.{ℕ};

    // Its number, counted from 0.
    ghost by: { ℕ };
}

impl StepsBy for Brand {
    ghost by = { 0 };
}

/// What the worker of a seat is asked: the events that the next answering step answers, behind these
/// those of the one after it, and so on. Of two workers in one seat that are both asked something
/// either may be answered. A caller picks it by `Brand`.
pub trait Asks {
    ghost use Rattle.std.specs.Prelude.{List};
    ghost use Rattle.hg_machine.specs.declared.Event.{Event};

    ghost asked: { List (List Event) };
}

impl Asks for Brand {
    ghost use Rattle.std.specs.Prelude.{[]};

    ghost asked = { [] };
}

/// How a seat is cut: how many of its parts of the run stay with it, and what of words and lives goes
/// to the new one. A caller picks it by `Brand`.
pub trait CutAt {
    ghost use Rattle.std.specs.Prelude.{ℕ};
    ghost use Rattle.hg_run_table.specs.Reshaping.{LivesCut};

    ghost stay: { ℕ };

    ghost lives: { LivesCut };
}

impl CutAt for Brand {
    ghost use Rattle.hg_run_table.specs.Reshaping.{front};

    ghost stay = { 1 };

    ghost lives = { front 1 };
}

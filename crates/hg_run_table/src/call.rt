use std::marker::Brand;

/// A call of a worker, by the word that its step finds. A caller picks one by `Brand`.
pub trait WorkerCall {
    ghost use Rattle.std.specs.Prelude.{ℕ, Option};
    ghost use Rattle.hg_agreement.specs.Views.{View};
    ghost use Rattle.hg_roles.specs.Roles.{Call};

    // What the worker has.
    ghost before: { View };

    // The call that is decided, if one is.
    ghost call: { ℕ → Option Call };

    // What the worker has then.
    ghost after: { ℕ → View };
}

impl WorkerCall for Brand {
    ghost use Rattle.std.specs.Prelude.{None};
    ghost use Rattle.hg_roles.specs.FirstParts.{idle};
    ghost use Rattle.hg_run_table.specs.Unused.{unused_policy};

    ghost before = { idle unused_policy 0 };

    ghost call = { λ word. None };

    ghost after = { λ word. idle unused_policy 0 };
}

/// A call of a worker that rests on no word. A caller picks one by `Brand`.
pub trait OwnCall {
    ghost use Rattle.hg_agreement.specs.Views.{View};
    ghost use Rattle.hg_roles.specs.Roles.{Call};

    // What the worker has.
    ghost before: { View };

    // The event and its answer.
    ghost call: { Call };

    // What the worker has then.
    ghost after: { View };
}

impl OwnCall for Brand {
    ghost use Rattle.hg_roles.specs.FirstParts.{idle};
    ghost use Rattle.hg_run_table.specs.Unused.{unused_call, unused_policy};

    ghost before = { idle unused_policy 0 };

    ghost call = { unused_call };

    ghost after = { idle unused_policy 0 };
}

/// The other part that a call of a worker concerns, a remote list or the pool. A caller picks it by
/// `Brand`.
pub trait OtherPart {
    ghost use Rattle.hg_roles.specs.Roles.{Role};

    // What it has.
    ghost role: { Role };

    // What it has then.
    ghost left: { Role };
}

impl OtherPart for Brand {
    ghost use Rattle.hg_roles.specs.Roles.{of_segment};

    ghost role = { of_segment 0 };

    ghost left = { of_segment 0 };
}

/// A worker, and the remote list of a segment. A caller picks them by `Brand`.
pub trait WorkerAndList {
    ghost use Rattle.std.specs.Prelude.{ℕ, List};
    ghost use Rattle.hg_agreement.specs.Views.{View};

    // What the worker has.
    ghost before: { View };

    ghost segment: { ℕ };

    // The places that are sent to it.
    ghost sent: { List ℕ };
}

impl WorkerAndList for Brand {
    ghost use Rattle.std.specs.Prelude.{[]};
    ghost use Rattle.hg_roles.specs.FirstParts.{idle};
    ghost use Rattle.hg_run_table.specs.Unused.{unused_policy};

    ghost before = { idle unused_policy 0 };

    ghost segment = { 0 };

    ghost sent = { [] };
}

/// A worker with a place in hand, and the remote list of its segment. A caller picks them by
/// `Brand`.
pub trait HandAndList {
    ghost use Rattle.std.specs.Prelude.{ℕ, List};
    ghost use Rattle.hg_agreement.specs.Views.{View};

    // What the worker has.
    ghost before: { View };

    ghost place: { ℕ };

    // The places that are sent to the list's segment.
    ghost sent: { List ℕ };
}

impl HandAndList for Brand {
    ghost use Rattle.std.specs.Prelude.{[]};
    ghost use Rattle.hg_roles.specs.FirstParts.{idle};
    ghost use Rattle.hg_run_table.specs.Unused.{unused_policy};

    ghost before = { idle unused_policy 0 };

    ghost place = { 0 };

    ghost sent = { [] };
}

/// A worker, the pool, and what it is asked for. A caller picks them by `Brand`.
pub trait WorkerAndPool {
    ghost use Rattle.std.specs.Prelude.{ℕ};
    ghost use Rattle.hg_agreement.specs.Views.{View};
    ghost use Rattle.hg_roles.specs.Roles.{Pooled};

    // What the worker has.
    ghost before: { View };

    // What the pool has.
    ghost pooled: { Pooled };

    ghost arena: { ℕ };

    ghost segment: { ℕ };
}

impl WorkerAndPool for Brand {
    ghost use Rattle.hg_roles.specs.FirstParts.{idle, full};
    ghost use Rattle.hg_run_table.specs.Unused.{unused_policy};

    ghost before = { idle unused_policy 0 };

    ghost pooled = { full };

    ghost arena = { 0 };

    ghost segment = { 0 };
}

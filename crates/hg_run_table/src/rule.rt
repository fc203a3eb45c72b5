use crate::part::SeatView;
use atomic_table::{Table, TableRule};
use hg_policy::Policy;
use std::alloc::Global;

/// The rule between any two steps: the words keep the life rule, and all calls that seats have
/// logged are one run. The key is the policy.
pub struct RunRule;

impl TableRule<(), SeatView, Policy> for RunRule {
    ghost use Rattle.hg_run_table.specs.Rule.{KeepsBoth, first_view};

    ghost holds = { KeepsBoth };

    ghost first = { first_view };
}

/// The table of the words of all places, behind the spare one.
pub type Words = Table<(), SeatView, Policy, RunRule, Global>;

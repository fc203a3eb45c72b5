use crate::view::View;
use atomic_table::{Table, TableRule};
use std::alloc::Global;

/// The rule that the words of all places keep between any two steps. The key is how many places
/// there are.
pub struct LifeRule;

impl TableRule<(), View, u64> for LifeRule {
    ghost use Rattle.hg_table.specs.View.{initial_view};
    ghost use Rattle.hg_table.specs.LifeRule.{LifeRule};

    ghost holds = { LifeRule };

    ghost first = { initial_view };
}

/// The table of the words of all places.
pub type Words = Table<(), View, u64, LifeRule, Global>;

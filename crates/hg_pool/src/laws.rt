//! Laws of pools. Each function does nothing: what it promises is the law.

ghost use Rattle.hg_pool.specs.PoolLaws.{FreshHaveOnePlace};

use hg_place::SlotWords;

/// Among segments whose numbers rise there is one place for another, so what `put_fresh` says
/// leaves no choice.
pub fn fresh_have_one_place<S: SlotWords>()
    ensures { FreshHaveOnePlace S.number }
{}

//! A bank worker that hasn't left.

ghost use Rattle.std.specs.Prelude.{◌+◌, ◌≤◌, length, vec_capacity};
ghost use Rattle.hg_bank.specs.declared.bank.TheConstants.{MAX_CORES};
ghost use Rattle.hg_bank_service.specs.Idle.{AreIdleFrom};

use crate::worker::BankWorker;
use hg_hosted::{Departed, HostedWorker};

/// A bank worker that hasn't left.
#[derive(Drop)]
pub enum Unleft {
    /// It is as it was: in this core, the lowest such, it holds a segment or has a block in hand.
    Busy(BankWorker, u16),
    /// Nothing is held or in hand any more; some of its workers, those of the lowest cores, haven't
    /// left, and each other has.
    Leaving(Leaving),
}

/// What there is of a bank worker that is leaving: it holds nothing and has nothing in hand. Who lets
/// it go drops the workers that haven't left, and their services close no more.
#[derive(Drop)]
pub struct Leaving {
    /// Those of the lowest cores.
    pub(crate) workers: Vec<HostedWorker>,
    /// What is left of the others, from the highest core down. There is room for each.
    pub(crate) gone: Vec<Departed>,
    ghost idle: { AreIdleFrom 0 workers.items },
    ghost few: { length workers.items ≤ MAX_CORES },
    ghost room: { length workers.items + length gone.items ≤ vec_capacity gone },
}

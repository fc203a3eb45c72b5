//! A bank worker leaves.

ghost use Rattle.std.specs.Prelude.{◌≡◌, ◌+◌, ◌≤◌, [], IfErr, IfOk, IfSome, IfNone, MatchResult};
ghost use Rattle.std.specs.Prelude.{OnOk, length, vec_capacity};
ghost use Rattle.hg_bank.specs.declared.bank.TheConstants.{MAX_CORES};
ghost use Rattle.hg_bank_service.specs.Idle.{AreIdleFrom};
ghost use Rattle.hg_bank_service.specs.Leaving.{AreLeft, GoesOnLeaving, IsFirstBusy, IsUnleft};

use crate::unleft::{Leaving, Unleft};
use crate::worker::BankWorker;
use hg_hosted::{Departed, HostedWorker};

impl BankWorker {
    /// Gives the worker of each core back to its service, and what is left of each, from the highest
    /// core down. None holds a segment then or has a block in hand; else nothing is done, and it comes
    /// back with the lowest core where one does. Who lets that go drops all that it holds, and its
    /// services close no more.
    pub fn leave(self) -> Result<Vec<Departed>, Unleft>
        ensures idle { OnOk result (AreIdleFrom 0 self.workers.items) }
        ensures gone { IfOk result (λ gone. AreLeft self.workers.items [] [] gone.items) }
        ensures unleft { IfErr result (IsUnleft self) }
    {
        if let Some(core) = first_busy(&self.workers) {
            return Err(Unleft::Busy(self, core));
        }
        let BankWorker {
            policy: _,
            number: _,
            workers,
            currents: _,
            sums: _,
            gone,
        } = self;
        match all_leave(workers, gone) {
            Ok(gone) => Ok(gone),
            Err(left) => Err(Unleft::Leaving(left)),
        }
    }
}

impl Leaving {
    /// Asks again: those that haven't left give themselves back to their services. What is left of
    /// each comes then, from the highest core down.
    pub fn leave(self) -> Result<Vec<Departed>, Leaving>
        ensures { MatchResult result
            (λ gone. AreLeft self.workers.items self.gone.items [] gone.items)
            (GoesOnLeaving self.workers.items self.gone.items) }
    {
        let Leaving { workers, gone } = self;
        all_leave(workers, gone)
    }

    /// How many haven't left: those of the lowest cores.
    pub fn cores(&self) -> u16
        ensures { result ≡ length self.now.workers.items }
    {
        self.workers.len() as u16
    }
}

/// These leave, from the highest core down; what is left of each goes behind what there is.
fn all_leave(workers: Vec<HostedWorker>, gone: Vec<Departed>) -> Result<Vec<Departed>, Leaving>
    requires idle { AreIdleFrom 0 workers.items }
    requires few { length workers.items ≤ MAX_CORES }
    requires room { length workers.items + length gone.items ≤ vec_capacity gone }
    ensures { MatchResult result (λ left. AreLeft workers.items gone.items [] left.items)
        (GoesOnLeaving workers.items gone.items) }
{
    let mut workers = workers;
    let mut gone = gone;
    while let Some(worker) = workers.pop() {
        match worker.leave() {
            Ok(one) => gone.push_reserved(one),
            Err(back) => {
                workers.push_reserved(back);
                return Err(Leaving { workers, gone });
            }
        }
    }
    Ok(gone)
}

/// The lowest core whose worker holds a segment or has a block in hand.
fn first_busy(workers: &[HostedWorker]) -> Option<u16>
    requires { length workers.now ≤ 65535 }
    ensures some { IfSome result (IsFirstBusy workers.now) }
    ensures none { IfNone result (AreIdleFrom 0 workers.now) }
{
    for core in 0..workers.len() as u16 {
        if !workers[usize::from(core)].is_idle() {
            return Some(core);
        }
    }
    None
}

//! A bank worker leaves its bank of services.

ghost use Rattle.hg_bank_service.specs.Leaving.{IsFirstBusy};
ghost use Rattle.hg_bank_service_replies.specs.Leaving.{LeavingGoesOn, PartLeaves, StaysFor};
ghost use Rattle.hg_bank_service_replies.specs.Leaving.{WorkerLeaves};

use crate::part::BankPart;
use hg_bank_replies::placed;
use hg_bank_service::{BankWorker, Leaving, Unleft};
use hg_reply::Reply;
use hg_reply::status::{AGAIN, BUSY, CLOSED, DONE, STILL_HELD};
use std::mem;

/// Gives a worker back to its bank of services: `DONE`, and the part is what is left of it. Where it
/// has something in some core, it stays as it was, and the reply has the number of the lowest such
/// core: `BUSY` where it has a block in hand there, or `STILL_HELD` with the lowest segment that it
/// holds there. `AGAIN` where another call has what it has to put back in a core, or another worker
/// leaves that core just then: then it is leaving, and only leaves, when it is asked again, or is
/// dropped. Any other part is answered `CLOSED`.
pub fn leave(part: &mut BankPart) -> Reply
    ensures { PartLeaves part.old result part.new }
{
    match mem::replace(part, BankPart::Gone) {
        BankPart::Worker(worker) => {
            let (left, reply) = leave_worker(worker);
            *part = left;
            reply
        }
        BankPart::Leaving(leaving) => {
            let (left, reply) = go_on_leaving(leaving);
            *part = left;
            reply
        }
        other => {
            *part = other;
            Reply::plain(CLOSED)
        }
    }
}

/// What is left of a worker that is to leave.
fn leave_worker(worker: BankWorker) -> (BankPart, Reply)
    ensures { WorkerLeaves worker result.1 result.0 }
{
    match worker.leave() {
        Ok(gone) => (BankPart::Left(gone), Reply::plain(DONE)),
        Err(Unleft::Busy(back, core)) => {
            let why = busy_reply(&back, core);
            (BankPart::Worker(back), why)
        }
        Err(Unleft::Leaving(left)) => (BankPart::Leaving(left), Reply::plain(AGAIN)),
    }
}

/// What is left of one that is leaving.
fn go_on_leaving(leaving: Leaving) -> (BankPart, Reply)
    ensures { LeavingGoesOn leaving result.1 result.0 }
{
    match leaving.leave() {
        Ok(gone) => (BankPart::Left(gone), Reply::plain(DONE)),
        Err(left) => (BankPart::Leaving(left), Reply::plain(AGAIN)),
    }
}

/// Why a worker stays that is busy in this core, the lowest such.
fn busy_reply(worker: &BankWorker, core: u16) -> Reply
    requires { IsFirstBusy worker.now.workers.items core }
    ensures { StaysFor worker.now.workers.items result }
{
    if worker.hand(core).is_some() {
        return placed(BUSY, core, 0);
    }
    match worker.first_held(core) {
        Some(segment) => placed(STILL_HELD, core, u64::from(segment)),
        None => unreachable!(),
    }
}

//! A thread becomes a worker.

ghost use Rattle.std.specs.Prelude.{◌≢◌, IfErr, MatchOption};
ghost use Rattle.hg_bank_service_replies.specs.Taking.{GivesWorker, IsNone, IsTaken, Takes};

use crate::part::{BankPart, Ungiven};
use hg_bank_service::BankWorker;
use hg_reply::Reply;
use hg_reply::status::{CLOSED, NO_WORKER};

/// The worker of a number, for the thread that will be it: `NO_WORKER` where the policy has none of
/// that number, a thread has it, or it is leaving or has left, and `CLOSED` where the part isn't a
/// bank of services; then all stays.
pub fn take_worker(part: &mut BankPart, number: u32) -> Result<BankWorker, Reply>
    ensures given { GivesWorker part.old number result part.new }
    ensures refused { IfErr result (λ why. why.status ≢ 2) }
{
    match part {
        BankPart::Service(opened) => match taken(&mut opened.workers, number) {
            Some(worker) => Ok(worker),
            None => Err(Reply::plain(NO_WORKER)),
        },
        _ => Err(Reply::plain(CLOSED)),
    }
}

/// The worker of a number, if it stands ready.
fn taken(workers: &mut Vec<Option<Ungiven>>, number: u32) -> Option<BankWorker>
    ensures { MatchOption result (IsNone workers.old.items number workers.new.items)
        (λ worker. IsTaken workers.old.items number worker workers.new.items) }
{
    let Some(place) = workers.get_mut(number as usize) else {
        return None;
    };
    taken_from(place)
}

/// The worker of a place, if one stands ready there.
fn taken_from(place: &mut Option<Ungiven>) -> Option<BankWorker>
    ensures { Takes place.old result place.new }
{
    match place.take() {
        Some(Ungiven::Ready(worker)) => Some(worker),
        other => {
            *place = other;
            None
        }
    }
}

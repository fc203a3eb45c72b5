//! A bank of services becomes a bank.

ghost use Rattle.std.specs.Prelude.{◌≡◌, ◌≢◌, IfErr, MatchResult};
ghost use Rattle.std.specs.List.{list_all};
ghost use Rattle.hg_bank_service_replies.specs.Closing.{AreLetLeave, IsMadeBank, IsUnclosed};
ghost use Rattle.hg_bank_service_replies.specs.Closing.{PartCloses, PlaceLeaves, is_over, told_fault};

use crate::part::{BankPart, OpenBank, Ungiven};
use hg_bank::Bank;
use hg_bank_replies::placed;
use hg_bank_service::{BankUnclosed, Unleft};
use hg_close::CloseFault;
use hg_reply::Reply;
use hg_reply::status::{AGAIN, CLOSED, LOST, NO_MEMORY, STILL_HELD, STILL_OUT};
use std::alloc::Global;
use std::mem;

/// The bank that a bank of services becomes, once each worker that a thread had has left. The services
/// close from the highest core down, and what is closed stays so. Where one can't close, the rest goes
/// on: `STILL_OUT` with the lowest worker that hasn't come to the service there, as one that hasn't left
/// or was dropped, or `STILL_HELD` with the lowest segment there that isn't among those that nobody
/// holds, or 0 where another call has these, and the number of the core; `AGAIN` where another call has
/// what a worker that no thread had puts back; or `NO_MEMORY`. `LOST` with the number of a core and the
/// lowest place there that isn't accounted for: then all is gone. Any other part is answered `CLOSED`.
pub fn close(alloc: Global, part: &mut BankPart) -> Result<Bank, Reply>
    ensures closes { PartCloses part.old result part.new }
    ensures refused { IfErr result (λ why. why.status ≢ 2) }
{
    match mem::replace(part, BankPart::Gone) {
        BankPart::Service(opened) => match close_open(alloc, opened) {
            Ok(bank) => Ok(bank),
            Err((left, why)) => {
                *part = left;
                Err(why)
            }
        },
        BankPart::Bank(bank) => Ok(bank),
        other => {
            *part = other;
            Err(Reply::plain(CLOSED))
        }
    }
}

/// A bank of services becomes a bank, or goes on, or is lost.
fn close_open(alloc: Global, opened: OpenBank) -> Result<Bank, (BankPart, Reply)>
    ensures closes { MatchResult result (IsMadeBank opened.service)
        (λ unclosed. IsUnclosed opened unclosed.0 unclosed.1) }
    ensures refused { IfErr result (λ unclosed. unclosed.1.status ≢ 2) }
{
    let OpenBank {
        service,
        mut workers,
    } = opened;
    if !let_leave(&mut workers) {
        let left = BankPart::Service(OpenBank { service, workers });
        return Err((left, Reply::plain(AGAIN)));
    }
    match service.close(alloc) {
        Ok(bank) => Ok(bank),
        Err(BankUnclosed::Running(service, core, fault)) => {
            let left = BankPart::Service(OpenBank { service, workers });
            Err((left, fault_reply(core, fault)))
        }
        Err(BankUnclosed::Memory(service)) => {
            let left = BankPart::Service(OpenBank { service, workers });
            Err((left, Reply::plain(NO_MEMORY)))
        }
        Err(BankUnclosed::Lost(lost)) => {
            let why = placed(LOST, lost.core, lost.place.number() as u64);
            Err((BankPart::Gone, why))
        }
    }
}

/// The workers that no thread has leave. Whether all did.
fn let_leave(workers: &mut Vec<Option<Ungiven>>) -> bool
    ensures leave { AreLetLeave workers.old.items workers.new.items }
    ensures all { result ≡ list_all is_over workers.new.items }
{
    for at in 0..workers.len() {
        let_one_leave(&mut workers[at]);
    }
    workers.iter().all(is_over)
}

/// The worker leaves, unless it has left.
fn let_one_leave(place: &mut Option<Ungiven>)
    ensures { PlaceLeaves place.old place.new }
{
    *place = left_of(place.take());
}

/// What is left of a worker that is to leave, unless it has left.
fn left_of(waiting: Option<Ungiven>) -> Option<Ungiven>
    ensures { PlaceLeaves waiting result }
{
    match waiting {
        Some(Ungiven::Ready(worker)) => match worker.leave() {
            Ok(gone) => Some(Ungiven::Gone(gone)),
            Err(Unleft::Busy(back, _core)) => Some(Ungiven::Ready(back)),
            Err(Unleft::Leaving(left)) => Some(Ungiven::Leaving(left)),
        },
        Some(Ungiven::Leaving(leaving)) => match leaving.leave() {
            Ok(gone) => Some(Ungiven::Gone(gone)),
            Err(left) => Some(Ungiven::Leaving(left)),
        },
        other => other,
    }
}

/// Whether no worker stands there that is still to leave: it was given to a thread, or it has left.
fn is_over(place: &Option<Ungiven>) -> bool
    ensures { result ≡ is_over place.now }
{
    match place {
        Some(Ungiven::Ready(_worker)) => false,
        Some(Ungiven::Leaving(_left)) => false,
        _ => true,
    }
}

/// Why the service of a core doesn't close.
fn fault_reply(core: u16, fault: CloseFault) -> Reply
    ensures told { result ≡ told_fault core fault }
    ensures refused { result.status ≢ 2 }
{
    match fault {
        CloseFault::Memory => Reply::plain(NO_MEMORY),
        CloseFault::StillOut(worker) => placed(STILL_OUT, core, u64::from(worker)),
        CloseFault::StillHeld(segment) => placed(STILL_HELD, core, u64::from(segment)),
    }
}

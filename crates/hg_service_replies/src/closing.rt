//! A service becomes a core.

ghost use Rattle.std.specs.Prelude.{◌≡◌, ◌≢◌, IfErr, MatchResult};
ghost use Rattle.std.specs.List.{list_all};
ghost use Rattle.hg_close.specs.Closed.{IsQuiet};
ghost use Rattle.hg_service_replies.specs.Closing.{AreLetLeave, IsUnclosed, PartCloses, is_over};
ghost use Rattle.hg_service_replies.specs.Closing.{PlaceLeaves, told_fault};

use crate::leaving::leave_one;
use crate::part::{HostedPart, OpenService, Ungiven};
use hg_close::CloseFault;
use hg_core::Core;
use hg_hosted::HostedUnclosed;
use hg_reply::Reply;
use hg_reply::status::{AGAIN, CLOSED, LOST, NO_MEMORY, STILL_HELD, STILL_OUT};
use std::alloc::Global;
use std::mem;

/// The core that a service becomes, once each worker that a thread had has left. Else the service
/// goes on: `STILL_OUT` with the lowest worker that hasn't come to it, as one that hasn't left or was
/// dropped; `STILL_HELD` with the lowest segment that isn't among those that nobody holds, or 0 where
/// another call has these; `AGAIN` where another call has what one that no thread had puts back; or
/// `NO_MEMORY`. `LOST` with the lowest place that isn't accounted for: then the service is gone. Any
/// other part is answered `CLOSED`.
pub fn close(alloc: Global, part: &mut HostedPart) -> Result<Core, Reply>
    ensures closes { PartCloses part.old result part.new }
    ensures refused { IfErr result (λ why. why.status ≢ 2) }
{
    match mem::replace(part, HostedPart::Gone) {
        HostedPart::Service(service) => match close_open(alloc, service) {
            Ok(core) => Ok(core),
            Err((left, why)) => {
                *part = left;
                Err(why)
            }
        },
        HostedPart::Core(core) => Ok(core),
        other => {
            *part = other;
            Err(Reply::plain(CLOSED))
        }
    }
}

/// A service becomes a core, or goes on, or is lost.
fn close_open(alloc: Global, opened: OpenService) -> Result<Core, (HostedPart, Reply)>
    ensures closes { MatchResult result (IsQuiet opened.service.policy)
        (λ unclosed. IsUnclosed opened unclosed.0 unclosed.1) }
    ensures refused { IfErr result (λ unclosed. unclosed.1.status ≢ 2) }
{
    let OpenService {
        service,
        mut workers,
    } = opened;
    if !let_leave(&mut workers) {
        let left = HostedPart::Service(OpenService { service, workers });
        return Err((left, Reply::plain(AGAIN)));
    }
    match service.close(alloc) {
        Ok(core) => Ok(core),
        Err(HostedUnclosed::Running(service, fault)) => {
            let left = HostedPart::Service(OpenService { service, workers });
            Err((left, fault_reply(fault)))
        }
        Err(HostedUnclosed::Lost(place, _parts)) => {
            Err((HostedPart::Gone, Reply::valued(LOST, place.number() as u64)))
        }
    }
}

/// The workers that no thread has leave. Whether all did.
fn let_leave(workers: &mut Vec<Option<Ungiven>>) -> bool
    ensures leave { AreLetLeave workers.old.items workers.new.items }
    ensures all { result ≡ list_all is_over workers.new.items }
{
    for at in 0..workers.len() {
        let_one_leave(&mut workers[at]);
    }
    workers.iter().all(is_over)
}

/// The worker leaves, if one stands ready.
fn let_one_leave(place: &mut Option<Ungiven>)
    ensures { PlaceLeaves place.old place.new }
{
    *place = left_of(place.take());
}

/// What is left of a worker that is to leave, if one stands ready.
fn left_of(waiting: Option<Ungiven>) -> Option<Ungiven>
    ensures { PlaceLeaves waiting result }
{
    match waiting {
        Some(Ungiven::Ready(worker)) => match leave_one(worker) {
            Ok(gone) => Some(Ungiven::Gone(gone)),
            Err((back, _why)) => Some(Ungiven::Ready(back)),
        },
        other => other,
    }
}

/// Whether no worker stands ready there: it was given to a thread, or it has left.
fn is_over(place: &Option<Ungiven>) -> bool
    ensures { result ≡ is_over place.now }
{
    match place {
        Some(Ungiven::Ready(_worker)) => false,
        _ => true,
    }
}

/// Why it doesn't close.
fn fault_reply(fault: CloseFault) -> Reply
    ensures told { result ≡ told_fault fault }
    ensures refused { result.status ≢ 2 }
{
    match fault {
        CloseFault::Memory => Reply::plain(NO_MEMORY),
        CloseFault::StillOut(worker) => Reply::valued(STILL_OUT, u64::from(worker)),
        CloseFault::StillHeld(segment) => Reply::valued(STILL_HELD, u64::from(segment)),
    }
}

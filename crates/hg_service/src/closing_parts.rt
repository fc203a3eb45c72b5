//! The parts of a service, of which a host has the locks, become a core.

ghost use Rattle.std.specs.Prelude.{◌≡◌, length, replicate, IfOk, IfErr, IfSome, IfNone};
ghost use Rattle.std.specs.List.{list_any};
ghost use Rattle.hg_agreement.specs.Parts.{kept_of};
ghost use Rattle.hg_audit.specs.Handed.{parts_in};
ghost use Rattle.hg_close.specs.Closed.{IsQuiet};
ghost use Rattle.hg_close.specs.Rooms.{IsFilled, IsUnfilled};
ghost use Rattle.hg_remote.specs.Remote.{nothing_sent};
ghost use Rattle.hg_worker.specs.Missing.{HasAll};
ghost use Rattle.hg_worker.specs.Seats.{number_in};
ghost use Rattle.hg_service.specs.Back.{AreBack, IsFirstOut, is_back};
ghost use Rattle.hg_service.specs.GivenBack.{AreListsOf, IsMadeOfParts};
ghost use Rattle.hg_service.specs.Unclosed.{IsFault, IsLostOf, AreUnclosed};

use crate::caller_locked::CallerLocked;
use crate::unclosed::UnclosedParts;
use hg_close::{CloseFault, CloseRoom};
use hg_core::Core;
use hg_worker::{ServiceName, Worker};
use std::alloc::Global;

/// Whether this is the worker of a number, with nothing in hand.
fn is_back<N: ServiceName>(worker: &Worker<N>, number: u8) -> bool
    ensures { result ≡ is_back number worker.now }
{
    worker.number() == number && worker.hand().is_none()
}

/// Whether one of these is.
fn one_is_back<N: ServiceName>(workers: &[Worker<N>], number: u8) -> bool
    ensures { result ≡ list_any (is_back number) workers.now }
{
    workers.iter().any(|worker| is_back(worker, number))
}

/// The core of what has come, or the place that is lost with the parts of a core.
fn core_of<N: ServiceName>(room: CloseRoom) -> Result<Core, UnclosedParts<N>>
    requires { IsFilled room }
    ensures core { IfOk result (λ core. core ≡ kept_of (parts_in room.parts)) }
    ensures quiet { IfOk result (IsQuiet room.parts.policy) }
    ensures lost { IfErr result (IsLostOf room.parts) }
{
    match room.into_core() {
        Ok(core) => Ok(core),
        Err((place, lost)) => Err(UnclosedParts::Lost(place, lost)),
    }
}

impl<N: ServiceName> CallerLocked<N> {
    /// The parts become a core, for a host that stops its threads and goes on in one. It gives back
    /// what it was given: each worker, with nothing in hand and no segment held, each list, and the
    /// pool.
    ///
    /// Memory is asked for first, all of it. Then `StillHeld` with the lowest segment that isn't in
    /// the pool, and `StillOut` with the lowest worker that isn't among `workers` with an empty hand:
    /// then the parts come back as they were. A list that isn't given back counts as one to which
    /// nothing was sent, and of two of one segment the last counts. `Lost` where a place isn't
    /// accounted for, as one whose block was parted and stands on no list: the parts of a core come
    /// back, with the lowest such place, and what was locked before is given up.
    pub fn close(self, alloc: Global) -> Result<Core, UnclosedParts<N>>
        ensures quiet { IfOk result (IsQuiet N.policy) }
        ensures made { IfOk result (IsMadeOfParts N.policy self) }
        ensures pooled { IfOk result (λ core.
            HasAll number_in self.pool.pool (length N.policy.segments)) }
        ensures back { IfOk result (λ core. AreBack self.workers.items N.policy.workers) }
        ensures unclosed { IfErr result (AreUnclosed N.policy self) }
    {
        let mut parts = self;
        let Ok(mut room) = CloseRoom::new(alloc, &parts.policy) else {
            return Err(UnclosedParts::Running(parts, CloseFault::Memory));
        };
        if let Some(fault) = parts.first_fault() {
            return Err(UnclosedParts::Running(parts, fault));
        }
        parts.give_lists(&mut room);
        room.take_segments(&mut parts.pool);
        core_of(room)
    }

    /// Why they can't close, if memory is there.
    fn first_fault(&self) -> Option<CloseFault>
        ensures pooled { IfNone result
            (HasAll number_in self.now.pool.pool (length N.policy.segments)) }
        ensures back { IfNone result (AreBack self.now.workers.items N.policy.workers) }
        ensures fault { IfSome result
            (IsFault N.policy self.now.pool.pool self.now.workers.items) }
    {
        if let Some(segment) = self.pool.first_missing(self.policy.segments()) {
            return Some(CloseFault::StillHeld(segment));
        }
        if let Some(worker) = self.first_out() {
            return Some(CloseFault::StillOut(worker));
        }
        None
    }

    /// The lowest worker that isn't back with an empty hand.
    fn first_out(&self) -> Option<u8>
        ensures none { IfNone result (AreBack self.now.workers.items N.policy.workers) }
        ensures some { IfSome result (IsFirstOut self.now.workers.items N.policy.workers) }
    {
        for number in 0..self.policy.workers() {
            if !one_is_back(&self.workers, number) {
                return Some(number);
            }
        }
        None
    }

    /// Each list goes where its segment's belongs.
    fn give_lists(&mut self, room: &mut CloseRoom)
        requires policy { room.old.parts.policy ≡ N.policy }
        requires unfilled { IsUnfilled room.old }
        requires unsent { room.old.parts.remotes.items
            ≡ replicate (length N.policy.segments) nothing_sent }
        ensures lists { AreListsOf self.old.lists.items (length N.policy.segments)
            room.new.parts.remotes.items }
        ensures policy { room.new.parts.policy ≡ N.policy }
        ensures unfilled { IsUnfilled room.new }
        ensures pool { self.new.pool ≡ self.old.pool }
    {
        for kept in self.lists.iter_mut() {
            if kept.segment < self.policy.segments() {
                kept.go_over(room, kept.segment);
            }
        }
    }
}

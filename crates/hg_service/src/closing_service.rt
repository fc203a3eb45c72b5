//! A service becomes a core.

ghost use Rattle.std.specs.Prelude.{◌≡◌, ◌<◌, false, length, IfOk, IfErr, IfSome, IfNone};
ghost use Rattle.std.specs.Box.{boxed_slice_items};
ghost use Rattle.hg_close.specs.Closed.{IsQuiet};
ghost use Rattle.hg_close.specs.Rooms.{IsFilled, IsUnfilled};
ghost use Rattle.hg_service.specs.Ready.{is_ready};
ghost use Rattle.hg_service.specs.Unclosed.{IsUnclosed, MayBeFault};

use crate::service::Service;
use crate::unclosed::Unclosed;
use hg_close::{CloseFault, CloseRoom};
use hg_core::Core;
use hg_worker::ServiceName;
use std::alloc::Global;
use std::sync::Wait;

impl<N: ServiceName> Service<N> {
    /// The service becomes a core, for a host that stops its threads and goes on in one: in that
    /// core nobody holds a segment and each hand is empty. That it has what stood behind the locks,
    /// so that the blocks live on, no clause says.
    ///
    /// Memory is asked for first, all of it. Then `StillHeld` with the lowest segment that isn't in
    /// the pool, and `StillOut` with the lowest worker that was taken and hasn't left: then the
    /// service comes back as it was. `Lost` where a place isn't accounted for, as one whose block
    /// was parted and stands on none of the service's lists: the parts of a core come back, with
    /// the lowest such place, and the service is given up.
    ///
    /// It waits for the lock of the pool and, under that, for those of the workers that have left
    /// and of each list.
    pub fn close<R: Wait>(self, rt: &R, alloc: Global) -> Result<Core, Unclosed<N>>
        ensures quiet { IfOk result (IsQuiet N.policy) }
        ensures unclosed { IfErr result (IsUnclosed N.policy self) }
    {
        let Ok(mut room) = CloseRoom::new(alloc, &self.policy) else {
            return Err(Unclosed::Running(self, CloseFault::Memory));
        };
        if let Some(fault) = self.give_up(rt, &mut room) {
            return Err(Unclosed::Running(self, fault));
        }
        match room.into_core() {
            Ok(core) => Ok(core),
            Err((place, parts)) => Err(Unclosed::Lost(place, parts)),
        }
    }

    /// What stands behind the locks goes over to this room, or why it can't.
    fn give_up<R: Wait>(&self, rt: &R, room: &mut CloseRoom) -> Option<CloseFault>
        requires policy { room.old.parts.policy ≡ N.policy }
        requires unfilled { IsUnfilled room.old }
        ensures policy { IfNone result (room.new.parts.policy ≡ N.policy) }
        ensures filled { IfNone result (IsFilled room.new) }
        ensures fault { IfSome result (MayBeFault N.policy self.now) }
    {
        let shared = &self.shared;
        let mut pool = shared.pool.lock(rt);
        let pool = &mut *pool;
        if let Some(segment) = pool.first_missing(self.policy.segments()) {
            return Some(CloseFault::StillHeld(segment));
        }
        if let Some(worker) = self.first_out(rt) {
            return Some(CloseFault::StillOut(worker));
        }
        self.give_lists(rt, room);
        room.take_segments(pool);
        None
    }

    /// The lowest worker that was taken and hasn't left.
    fn first_out<R: Wait>(&self, rt: &R) -> Option<u8>
        ensures below { IfSome result (λ number. number < N.policy.workers) }
        ensures taken { IfSome result (λ number.
            is_ready (boxed_slice_items self.now.workers) number ≡ false) }
    {
        let shared = &self.shared;
        let left = shared.left.lock(rt);
        for number in 0..self.policy.workers() {
            if self.workers[usize::from(number)].is_none() && !left.has(number) {
                return Some(number);
            }
        }
        None
    }

    /// The list of each segment goes over.
    fn give_lists<R: Wait>(&self, rt: &R, room: &mut CloseRoom)
        requires policy { room.old.parts.policy ≡ N.policy }
        requires unfilled { IsUnfilled room.old }
        ensures policy { room.new.parts.policy ≡ N.policy }
        ensures unfilled { IsUnfilled room.new }
    {
        let shared = &self.shared;
        for segment in 0..self.policy.segments() {
            let mut kept = shared.lists[usize::from(segment)].lock(rt);
            let kept = &mut *kept;
            kept.go_over(room, segment);
        }
    }
}

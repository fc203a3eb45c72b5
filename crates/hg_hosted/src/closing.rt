//! A service becomes a core.

ghost use Rattle.std.specs.Prelude.{◌≡◌, ◌<◌, ◌≤◌, ◌==◌, ◌++◌, length, vec_len, vec_capacity};
ghost use Rattle.std.specs.Prelude.{option_to_list, IfOk, IfErr, MatchOption};
ghost use Rattle.crossbeam_queue.specs.Passes.{view};
ghost use Rattle.hg_close.specs.Closed.{IsQuiet};
ghost use Rattle.hg_close.specs.Rooms.{IsFilled, IsUnfilled};
ghost use Rattle.hg_hosted.specs.Closing.{GoesOn, IsUnclosed};
ghost use Rattle.hg_hosted.specs.Coming.{AreNoted, HaveCome, HaveLeft, IsFirstOut, StayCome};
ghost use Rattle.hg_hosted.specs.Coming.{has_come};
ghost use Rattle.hg_hosted.specs.Parking.{FitsKept, KnowsName};
ghost use Rattle.hg_hosted.specs.Parts.{HasLeft};
ghost use Rattle.hg_hosted.specs.Shared.{AreOfService};

use crate::parked::Parked;
use crate::parts::{Left, Segments, Sent};
use crate::service::HostedService;
use hg_audit::Parts;
use hg_close::{CloseFault, CloseRoom};
use hg_core::Core;
use hg_place::Place;
use hg_policy::Policy;
use hg_worker::{KeptPool, ServiceName, WorkerState};
use std::alloc::Global;
use std::marker::Brand;

/// A service that didn't close.
#[derive(Drop)]
pub enum HostedUnclosed {
    /// It goes on, for this reason: who has come to it is there still, and each other is as before.
    Running(HostedService, CloseFault),
    /// The lowest place that isn't accounted for, and the parts of a core that was to be made of the
    /// service, which is given up.
    Lost(Place, Parts),
}

impl HostedService {
    /// The service becomes a core, for a host that stops its threads and goes on in one: in that
    /// core nobody holds a segment and each hand is empty. That it has what was parked, so that the
    /// blocks live on, no clause says.
    ///
    /// Memory is asked for first, all of it. Then `StillOut` with the lowest worker that hasn't come
    /// to its service, as one that hasn't left or was dropped, and `StillHeld` with the lowest segment
    /// that isn't parked, or 0 where another call has the segments: then the service goes on. `Lost`
    /// where a place isn't accounted for: the parts of a core come back, with the lowest such place,
    /// and the service is given up.
    pub fn close(self, alloc: Global) -> Result<Core, HostedUnclosed>
        ensures quiet { IfOk result (IsQuiet self.policy) }
        ensures unclosed { IfErr result (IsUnclosed self) }
    {
        let Ok(mut room) = CloseRoom::new(alloc, &self.policy) else {
            return Err(HostedUnclosed::Running(self, CloseFault::Memory));
        };
        if let Err((service, fault)) = give_up::<Brand>(self, &mut room) {
            return Err(HostedUnclosed::Running(service, fault));
        }
        match room.into_core() {
            Ok(core) => Ok(core),
            Err((place, parts)) => Err(HostedUnclosed::Lost(place, parts)),
        }
    }
}

/// What is parked goes over to this room, and all workers have come, whose states are given out; or
/// the service comes back with why it can't.
fn give_up<N: ServiceName>(
    service: HostedService,
    room: &mut CloseRoom,
) -> Result<Vec<Box<WorkerState, Global>>, (HostedService, CloseFault)>
    requires policy { service.policy ≡ N.policy }
    requires of { AreOfService N.policy N.table service.shared }
    requires room_policy { room.old.parts.policy ≡ N.policy }
    requires unfilled { IsUnfilled room.old }
    requires lists { length room.old.parts.remotes.items ≡ length N.policy.segments }
    ensures goes_on { IfErr result (λ left. GoesOn service left.1 left.0) }
    ensures come { IfOk result (λ came. HaveCome N.policy came.items) }
    ensures left { IfOk result (λ came. HaveLeft N.policy N.table came.items) }
    ensures room_policy { IfOk result (λ given. room.new.parts.policy ≡ N.policy) }
    ensures filled { IfOk result (λ given. IsFilled room.new) }
{
    let HostedService {
        policy,
        mut shared,
        mut came,
    } = service;
    gather::<N>(policy.workers(), &mut shared.left, &mut came);
    if let Some(worker) = first_out(&policy, &came) {
        let service = HostedService::made::<N>(policy, shared, came);
        return Err((service, CloseFault::StillOut(worker)));
    }
    let Some(segments) = shared.segments.take() else {
        let service = HostedService::made::<N>(policy, shared, came);
        return Err((service, CloseFault::StillHeld(0)));
    };
    let mut pool = KeptPool::<N>::with_name(segments.pool);
    if let Some(segment) = pool.first_missing(policy.segments()) {
        shared.segments.put(Segments {
            pool: pool.without_name(),
        });
        let service = HostedService::made::<N>(policy, shared, came);
        return Err((service, CloseFault::StillHeld(segment)));
    }
    give_lists(policy.segments(), &mut shared.lists, room);
    room.take_segments(&mut pool);
    Ok(came)
}

/// The lowest worker that hasn't come.
fn first_out(policy: &Policy, came: &[Box<WorkerState, Global>]) -> Option<u8>
    ensures { MatchOption result (HaveCome policy.now came.now) (IsFirstOut policy.now came.now) }
{
    for number in 0..policy.workers() {
        if !has_come(came, number) {
            return Some(number);
        }
    }
    None
}

/// Whether the worker of a number has come.
fn has_come(came: &[Box<WorkerState, Global>], number: u8) -> bool
    ensures { result ≡ has_come came.now number }
{
    came.iter().any(|own| is_of_number(own, number))
}

/// Whether it is the worker of a number.
fn is_of_number(own: &Box<WorkerState, Global>, number: u8) -> bool
    ensures { result ≡ (own.now.value.number == number) }
{
    own.number() == number
}

/// Takes in who has left, as long as there is room: there is for each worker.
fn gather<N: ServiceName>(
    workers: u8,
    left: &mut Parked<Left>,
    came: &mut Vec<Box<WorkerState, Global>>,
)
    requires knows { KnowsName N.policy N.table (view left.old.pass).known }
    requires fits { FitsKept HasLeft (view left.old.pass).known left.old.kept }
    requires left { HaveLeft N.policy N.table came.old.items }
    requires noted { AreNoted (view left.old.pass).taken came.old.items }
    ensures known { (view left.new.pass).known ≡ (view left.old.pass).known }
    ensures kept { FitsKept HasLeft (view left.new.pass).known left.new.kept }
    ensures came { StayCome came.old.items came.new.items }
    ensures left { HaveLeft N.policy N.table came.new.items }
    ensures noted { AreNoted (view left.new.pass).taken came.new.items }
    ensures room { vec_capacity came.old ≤ vec_capacity came.new }
    ensures place { left.new.pass.table_id ≡ left.old.pass.table_id }
{
    for _ in 0..usize::from(workers) + 1 {
        if came.len() >= came.capacity() {
            return;
        }
        let Some(one) = left.take() else {
            return;
        };
        come_in(came, one);
    }
}

/// One who has left comes, if it is a worker.
fn come_in(came: &mut Vec<Box<WorkerState, Global>>, left: Left)
    requires { vec_len came.old < vec_capacity came.old }
    ensures come { came.new.items ≡ came.old.items ++ option_to_list left.state }
    ensures room { vec_capacity came.old ≤ vec_capacity came.new }
{
    if let Some(state) = left.state {
        came.push_reserved(state);
    }
}

/// Each list goes where its segment's belongs.
fn give_lists(segments: u8, lists: &mut Vec<Parked<Sent>>, room: &mut CloseRoom)
    requires all { length room.old.parts.remotes.items ≡ segments }
    requires unfilled { IsUnfilled room.old }
    ensures unfilled { IsUnfilled room.new }
    ensures policy { room.new.parts.policy ≡ room.old.parts.policy }
    ensures lists { length lists.new.items ≡ length lists.old.items }
{
    for segment in 0..segments {
        let Some(list) = lists.get_mut(usize::from(segment)) else {
            return;
        };
        give_list(segment, list, room);
    }
}

/// A list, where no other call has it, goes where its segment's belongs.
fn give_list(segment: u8, list: &mut Parked<Sent>, room: &mut CloseRoom)
    requires below { segment < length room.old.parts.remotes.items }
    requires unfilled { IsUnfilled room.old }
    ensures unfilled { IsUnfilled room.new }
    ensures policy { room.new.parts.policy ≡ room.old.parts.policy }
    ensures all { length room.new.parts.remotes.items ≡ length room.old.parts.remotes.items }
{
    if let Some(mut sent) = list.take() {
        room.take_list(segment, &mut sent.list);
    }
}

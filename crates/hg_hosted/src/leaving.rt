//! A worker leaves.

ghost use Rattle.std.specs.Prelude.{◌≡◌, false, None, Some, IsTrue, IfErr, IfOk, IfNone};
ghost use Rattle.std.specs.Prelude.{IfSome, IsFalse, MatchOption, OnOk};
ghost use Rattle.crossbeam_queue.specs.Passes.{view};
ghost use Rattle.hg_table.specs.Named.{table_of_worker};
ghost use Rattle.hg_hosted.specs.Departing.{IsGone, Parks};
ghost use Rattle.hg_hosted.specs.Has.{Has};
ghost use Rattle.hg_hosted.specs.Leaving.{HoldsFirst, HoldsNone, IsIdle};
ghost use Rattle.hg_hosted.specs.Parking.{KnowsName};
ghost use Rattle.hg_hosted.specs.Places.{HaveSamePlaces};
ghost use Rattle.hg_hosted.specs.Shared.{AreHome, AreOfService, IsSettled};

use crate::parked::Parked;
use crate::parts::Left;
use crate::shared::Shared;
use crate::worker::HostedWorker;
use hg_place::MAX_SEGMENTS;
use hg_worker::WorkerState;
use std::alloc::Global;

/// What is left of a worker that has left: its way to where its service takes it in.
#[derive(Drop)]
pub struct Departed {
    pub(crate) left: Parked<Left>,
}

impl HostedWorker {
    /// The lowest segment that the worker holds.
    pub fn first_held(&self) -> Option<u8>
        ensures { MatchOption result (Has HoldsNone self.now)
            (λ segment. Has (HoldsFirst segment) self.now) }
    {
        let Some(state) = &self.state else {
            unreachable!()
        };
        first_held(state)
    }

    /// Whether the worker holds no segment and has nothing in hand, so that it may leave.
    pub fn is_idle(&self) -> bool
        ensures yes { IsTrue result → Has IsIdle self.now }
        ensures no { IsFalse result → ¬ (Has IsIdle self.now) }
    {
        let Some(state) = &self.state else {
            unreachable!()
        };
        is_idle(state)
    }

    /// Gives the worker back to its service, which takes it in as it was when it closes. It holds no
    /// segment then and has nothing in hand; else it comes back in its state, and so it does where a
    /// call of another keeps what it has to put back. Who lets that go drops the worker, with all
    /// that it holds, and its service closes no more.
    pub fn leave(self) -> Result<Departed, HostedWorker>
        ensures idle { OnOk result (Has IsIdle self) }
        ensures gone { IfOk result (IsGone self) }
        ensures back { IfErr result (λ back. back.state ≡ self.state) }
        ensures places { IfErr result (λ back. HaveSamePlaces self.shared back.shared) }
        ensures taken { IfErr result (λ back. (view back.shared.left.pass).taken
            ≡ (view self.shared.left.pass).taken) }
    {
        let HostedWorker { state, shared } = self;
        let mut shared = shared;
        let Some(state) = state else { unreachable!() };
        if !is_idle(&state) {
            return Err(HostedWorker::made(state, shared));
        }
        if !shared.settle() {
            return Err(HostedWorker::made(state, shared));
        }
        goes(state, shared)
    }
}

/// The worker, whose caller keeps no part of what is shared, goes where those are that have left, or
/// comes back.
fn goes(state: Box<WorkerState, Global>, shared: Shared) -> Result<Departed, HostedWorker>
    requires idle { IsIdle state.value }
    requires of { AreOfService state.value.policy (table_of_worker state.value.seat) shared }
    requires home { AreHome shared }
    requires settled { IsSettled shared }
    ensures gone { IfOk result (λ gone. Parks state (view shared.left.pass)
        (view gone.left.pass)) }
    ensures gone_place { IfOk result (λ gone. gone.left.pass.table_id
        ≡ shared.left.pass.table_id) }
    ensures back { IfErr result (λ back. back.state ≡ Some state) }
    ensures places { IfErr result (λ back. HaveSamePlaces shared back.shared) }
    ensures taken { IfErr result (λ back. (view back.shared.left.pass).taken
        ≡ (view shared.left.pass).taken) }
{
    let Shared {
        segments,
        lists,
        mut left,
    } = shared;
    match goes_to(state, &mut left) {
        None => Ok(Departed { left }),
        Some(state) => {
            let shared = Shared {
                segments,
                lists,
                left,
            };
            Err(HostedWorker::made(state, shared))
        }
    }
}

/// The worker goes where those are that have left, or comes back.
fn goes_to(
    state: Box<WorkerState, Global>,
    left: &mut Parked<Left>,
) -> Option<Box<WorkerState, Global>>
    requires idle { IsIdle state.value }
    requires kept { left.old.kept ≡ None }
    requires known { KnowsName state.value.policy (table_of_worker state.value.seat)
        (view left.old.pass).known }
    ensures known { (view left.new.pass).known ≡ (view left.old.pass).known }
    ensures kept { left.new.kept ≡ None }
    ensures home { (view left.old.pass).out ≡ false → (view left.new.pass).out ≡ false }
    ensures gone { IfNone result (Parks state (view left.old.pass) (view left.new.pass)) }
    ensures back { IfSome result (λ back. back ≡ state) }
    ensures taken { (view left.new.pass).taken ≡ (view left.old.pass).taken }
    ensures place { left.new.pass.table_id ≡ left.old.pass.table_id }
{
    left.put(Left { state: Some(state) });
    left.kept.take()?.state
}

/// The lowest segment that it holds.
fn first_held(state: &WorkerState) -> Option<u8>
    ensures { MatchOption result (HoldsNone state.now) (λ segment. HoldsFirst segment state.now) }
{
    for segment in 0..MAX_SEGMENTS as u8 {
        if state.holds(segment) {
            return Some(segment);
        }
    }
    None
}

/// Whether it holds no segment and has nothing in hand.
fn is_idle(state: &WorkerState) -> bool
    ensures yes { IsTrue result → IsIdle state.now }
    ensures no { IsFalse result → ¬ (IsIdle state.now) }
{
    match first_held(state) {
        Some(_segment) => false,
        None => state.hand().is_none(),
    }
}

//! A service without names.

ghost use Rattle.std.specs.Prelude.{◌≡◌, ◌≤◌, Some, vec_capacity};
ghost use Rattle.crossbeam_queue.specs.Passes.{view};
ghost use Rattle.hg_table.specs.Named.{table_of_worker};
ghost use Rattle.hg_hosted.specs.Coming.{AreNoted, HaveLeft};
ghost use Rattle.hg_hosted.specs.Shared.{AreOfService, AreParked, table_of_shared};

use crate::shared::Shared;
use hg_policy::Policy;
use hg_worker::{ServiceName, WorkerState};
use std::alloc::Global;

/// What there is of a service beside its workers.
#[derive(Drop)]
pub struct HostedService {
    pub(crate) policy: Policy,
    pub(crate) shared: Shared,
    /// The workers that have come, as they left. There is room for each.
    pub(crate) came: Vec<Box<WorkerState, Global>>,
    ghost of: { (one : _) → (view shared.left.pass).known ≡ Some one
        → AreOfService policy (table_of_worker one.seat) shared },
    ghost home: { AreParked shared },
    ghost left: { HaveLeft policy (table_of_shared shared) came.items },
    ghost noted: { AreNoted (view shared.left.pass).taken came.items },
    ghost room: { policy.workers ≤ vec_capacity came },
}

impl HostedService {
    /// The service with these parts.
    pub(crate) fn made<N: ServiceName>(
        policy: Policy,
        shared: Shared,
        came: Vec<Box<WorkerState, Global>>,
    ) -> HostedService
        requires policy { policy ≡ N.policy }
        requires of { AreOfService N.policy N.table shared }
        requires home { AreParked shared }
        requires left { HaveLeft N.policy N.table came.items }
        requires noted { AreNoted (view shared.left.pass).taken came.items }
        requires room { policy.workers ≤ vec_capacity came }
        ensures policy { result.policy ≡ policy }
        ensures shared { result.shared ≡ shared }
        ensures came { result.came ≡ came }
    {
        HostedService {
            policy,
            shared,
            came,
        }
    }

    /// The policy that it serves by.
    pub fn policy(&self) -> &Policy
        ensures { result.now ≡ self.now.policy }
    {
        &self.policy
    }
}

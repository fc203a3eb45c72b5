//! Why a race failed, and the status that it ends with.

ghost use Rattle.std.specs.Prelude.{◌≡◌};
ghost use Rattle.hg_race.specs.Faults.{status_of};
ghost use Rattle.hg_race.specs.declared.fault.RaceFault.TheVariants as race_fault;

use hg_policy_text::PolicyFault;
use hg_replay::Status;
use std::alloc::AllocError;
use thiserror::Error;

/// Why a race failed.
#[derive(Debug, Drop, Error)]
pub(crate) enum RaceFault {
    #[error(transparent)]
    Policy(PolicyFault),
    /// No race can be run under the policy.
    #[error("race unfit")]
    Unfit,
    #[error("write fault")]
    Write,
    /// An allocation was refused, or a thread couldn't be started.
    #[error("no memory")]
    Memory,
}

impl RaceFault {
    /// The status that a race ends with.
    pub(crate) fn status(&self) -> Status
        ensures { result ≡ status_of self.now }
    {
        match self {
            RaceFault::Policy(PolicyFault::Memory) => Status::Failed,
            RaceFault::Policy(_) => Status::BadPolicy,
            RaceFault::Unfit => Status::BadPolicy,
            RaceFault::Write => Status::Failed,
            RaceFault::Memory => Status::Failed,
        }
    }
}

impl From<PolicyFault> for RaceFault {
    ghost from_gives = { λ fault race. race ≡ race_fault.Policy fault };

    fn from(fault: PolicyFault) -> RaceFault {
        RaceFault::Policy(fault)
    }
}

impl From<AllocError> for RaceFault {
    ghost from_gives = { λ _ race. race ≡ race_fault.Memory };

    fn from(_error: AllocError) -> RaceFault {
        RaceFault::Memory
    }
}

//! Why a run failed, and the status that it ends with.

ghost use Rattle.std.specs.Prelude.{◌≡◌};
ghost use Rattle.hg_replay.specs.RunFaults.{status_of};
ghost use Rattle.hg_replay.specs.declared.run.fault.RunFault.TheVariants as run_fault;

use crate::replaying::fault::ReplayFault;
use crate::run::input::ReadFault;
use crate::run::status::Status;
use hg_policy_text::PolicyFault;
use hg_trace::TraceFault;
use thiserror::Error;

/// Why a run on a policy's and a trace's bytes failed.
#[derive(Debug, Drop, Error)]
pub enum RunFault {
    #[error(transparent)]
    Read(ReadFault),
    #[error(transparent)]
    Policy(PolicyFault),
    #[error(transparent)]
    Trace(TraceFault),
    #[error(transparent)]
    Replay(ReplayFault),
}

impl RunFault {
    /// The status that a run ends with.
    pub fn status(&self) -> Status
        ensures { result ≡ status_of self.now }
    {
        match self {
            RunFault::Policy(PolicyFault::Memory) => Status::Failed,
            RunFault::Policy(_) => Status::BadPolicy,
            RunFault::Trace(TraceFault::Memory) => Status::Failed,
            RunFault::Trace(_) => Status::BadTrace,
            RunFault::Replay(ReplayFault::Worker(_)) => Status::BadTrace,
            RunFault::Replay(_) => Status::Failed,
            RunFault::Read(_) => Status::Failed,
        }
    }
}

impl From<ReadFault> for RunFault {
    ghost from_gives = { λ fault run. run ≡ run_fault.Read fault };

    fn from(fault: ReadFault) -> RunFault {
        RunFault::Read(fault)
    }
}

impl From<PolicyFault> for RunFault {
    ghost from_gives = { λ fault run. run ≡ run_fault.Policy fault };

    fn from(fault: PolicyFault) -> RunFault {
        RunFault::Policy(fault)
    }
}

impl From<TraceFault> for RunFault {
    ghost from_gives = { λ fault run. run ≡ run_fault.Trace fault };

    fn from(fault: TraceFault) -> RunFault {
        RunFault::Trace(fault)
    }
}

impl From<ReplayFault> for RunFault {
    ghost from_gives = { λ fault run. run ≡ run_fault.Replay fault };

    fn from(fault: ReplayFault) -> RunFault {
        RunFault::Replay(fault)
    }
}

use crate::asked::MOST_KEPT;
use hg_policy_text::PolicyFault;
use hg_replay::ReadFault;
use std::alloc::{AllocError, AllocFailed};
use std::io;
use thiserror::Error;

/// Why no run came to its end. As text it is one line, but for help.
#[derive(Debug, Drop, Error)]
pub enum Fault {
    /// Help was asked for, which is no fault.
    #[error("{0}")]
    Help(String),
    /// The words are no command line.
    #[error("{0}")]
    Words(String),
    #[error("error: more than {MOST_KEPT} events of each worker are only counted, with --counts")]
    ManyEvents,
    /// More workers are asked for than the policy has, which is told.
    #[error("error: the policy has no more workers than {0}")]
    ManyWorkers(u8),
    #[error(transparent)]
    Policy(PolicyFault),
    /// The policy has other bytes than those of a text.
    #[error(transparent)]
    Read(ReadFault),
    #[error("write fault")]
    Write,
    #[error("no memory")]
    Memory,
}

impl Fault {
    /// The status that the program ends with.
    pub fn status(&self) -> u8 {
        match self {
            Fault::Help(_) => 0,
            Fault::Policy(PolicyFault::Memory) => 3,
            Fault::Policy(_) => 1,
            Fault::Read(_) | Fault::Write | Fault::Memory => 3,
            Fault::Words(_) | Fault::ManyEvents | Fault::ManyWorkers(_) => 4,
        }
    }
}

impl From<AllocError> for Fault {
    fn from(_error: AllocError) -> Fault {
        Fault::Memory
    }
}

impl<T: Drop> From<AllocFailed<T>> for Fault {
    fn from(_error: AllocFailed<T>) -> Fault {
        Fault::Memory
    }
}

impl From<PolicyFault> for Fault {
    fn from(fault: PolicyFault) -> Fault {
        Fault::Policy(fault)
    }
}

impl From<ReadFault> for Fault {
    fn from(fault: ReadFault) -> Fault {
        Fault::Read(fault)
    }
}

impl From<io::Error> for Fault {
    fn from(error: io::Error) -> Fault {
        match error.kind() {
            io::ErrorKind::OutOfMemory => Fault::Memory,
            _ => Fault::Write,
        }
    }
}

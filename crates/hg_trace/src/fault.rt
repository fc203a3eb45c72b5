//! Faults of a trace.

ghost use Rattle.std.specs.Prelude.{◌≡◌};
ghost use Rattle.hg_trace.specs.Faults.{fault_number};
ghost use Rattle.hg_trace.specs.declared.fault.TraceFault.TheVariants.{Memory};

use std::alloc::{AllocError, AllocFailed};
use thiserror::Error;

/// What is wrong with a line. Of several faults the first of these is told.
#[derive(Clone, Copy, Debug, PartialEq, Eq, Error)]
pub enum LineFault {
    /// A byte before the comment that is no blank and not from 21 to 7E (hexadecimal).
    #[error("byte")]
    Byte,
    /// The first word is no worker, or the second is missing or no command.
    #[error("command")]
    Command,
    /// An operand is missing, one too many, or of the wrong form or range.
    #[error("operand")]
    Operand,
    /// A block's label that no earlier line gave.
    #[error("unknown label")]
    UnknownLabel,
    /// A label that an earlier line gave.
    #[error("repeated label")]
    RepeatedLabel,
}

/// Why no trace was read.
#[derive(Debug, Drop, Error)]
pub enum TraceFault {
    /// The fault of the first faulty line, with the line's number from 1.
    #[error("trace fault {} at line {line}: {fault}", .fault.number())]
    Line { line: u64, fault: LineFault },
    /// Want of memory.
    #[error("no memory")]
    Memory,
}

impl LineFault {
    /// Its number, from 1.
    pub fn number(self) -> u8
        ensures { result ≡ fault_number self }
    {
        match self {
            LineFault::Byte => 1,
            LineFault::Command => 2,
            LineFault::Operand => 3,
            LineFault::UnknownLabel => 4,
            LineFault::RepeatedLabel => 5,
        }
    }

    /// The fault of the line with this number.
    pub(crate) fn at(self, line: u64) -> TraceFault
        ensures { result ≡ TraceFault.Line line self }
    {
        TraceFault::Line { line, fault: self }
    }
}

impl From<AllocError> for TraceFault {
    ghost from_gives = { λ _ fault. fault ≡ Memory };

    fn from(_: AllocError) -> TraceFault {
        TraceFault::Memory
    }
}

impl<T: Drop> From<AllocFailed<T>> for TraceFault {
    ghost from_gives = { λ _ fault. fault ≡ Memory };

    fn from(_: AllocFailed<T>) -> TraceFault {
        TraceFault::Memory
    }
}

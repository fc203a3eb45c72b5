//! Why a replay gave up.

use thiserror::Error;

/// Why a replay gave up.
#[derive(Debug, Drop, Error)]
pub enum ReplayFault {
    /// The worker of the line with this number, the first such one, isn't below the policy's count.
    #[error("trace fault 6 at line {0}: worker")]
    Worker(u64),
    /// A write failed, or took nothing.
    #[error("write fault")]
    Write,
    #[error("no memory")]
    Memory,
}

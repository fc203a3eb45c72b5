//! How a run of the program ends.

ghost use Rattle.std.specs.Prelude.{◌≡◌};
ghost use Rattle.std.specs.Process.{exit_status};
ghost use Rattle.hg_replay.specs.Numbers.{number_of};

use std::process::ExitCode;

/// How a run of the program ends.
#[derive(Clone, Copy, Debug, PartialEq, Eq, Drop)]
pub enum Status {
    /// All was read and answered, or what was asked for was printed.
    Done,
    /// The policy has a fault.
    BadPolicy,
    /// The trace has a fault, or a worker that the policy lacks.
    BadTrace,
    /// Reading or writing failed, or memory was refused.
    Failed,
    /// The command line has a fault.
    BadLine,
    /// All was read and answered, and some answer isn't the one that its line states.
    Differs,
}

impl Status {
    /// The exit status: 0 to 5, in the order of the variants.
    pub fn number(self) -> u8
        ensures { result ≡ number_of self }
    {
        match self {
            Status::Done => 0,
            Status::BadPolicy => 1,
            Status::BadTrace => 2,
            Status::Failed => 3,
            Status::BadLine => 4,
            Status::Differs => 5,
        }
    }
}

impl From<Status> for ExitCode {
    ghost from_gives = { λ status code. exit_status code ≡ number_of status };

    fn from(status: Status) -> ExitCode {
        ExitCode::from(status.number())
    }
}

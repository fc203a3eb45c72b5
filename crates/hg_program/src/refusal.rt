//! What is printed and told where there is no job.

ghost use Rattle.std.specs.Prelude.{◌≡◌};
ghost use Rattle.hg_program.specs.Ends.{EndsRefusal};

use hg_job::JobFault;
use hg_replay::{ReadFault, ReplayFault, Sink, Status, put};
use std::fmt::Display;
use std::io::Write;

/// Tells a fault on one line of `err`, whose own faults are ignored.
pub(crate) fn fails<D: Display + Drop, E: Write>(fault: D, err: &mut E) -> Status
    ensures { result ≡ Status.Failed }
{
    let _ = writeln!(err, "{fault}");
    Status::Failed
}

/// Prints the text that was asked for, or tells what is wrong with the words.
pub(crate) fn refuse<W: Sink, E: Sink + Write>(fault: &JobFault, out: &mut W, err: &mut E) -> Status
    ensures ends { EndsRefusal fault.now result
        (W.seen out.old) (W.seen out.new) (E.seen err.old) (E.seen err.new) }
    ensures quiet { result ≡ Status.Done → err.new ≡ err.old }
{
    match fault {
        JobFault::Print(text) => match put(out, text.as_bytes()) {
            Ok(()) => Status::Done,
            Err(_) => fails(ReplayFault::Write, err),
        },
        JobFault::Line(text) => {
            let _ = put(err, text.as_bytes());
            Status::BadLine
        }
        JobFault::Memory => fails(ReadFault::Memory, err),
    }
}

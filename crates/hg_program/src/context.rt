//! What each job is done with.

ghost use Rattle.std.specs.Prelude.{◌≡◌, IfOk};
ghost use Rattle.hg_program.specs.Ends.{IsOf};

use crate::host::Host;
use crate::why::Why;
use hg_hints::{policy_hint, trace_hint};
use hg_policy_text::OneLine;
use hg_race::race_hint;
use hg_replay::{ReadFault, Status};
use std::alloc::{AllocError, Global};
use std::io::Write;

/// What each job is done with besides its input and outputs.
#[derive(Drop)]
pub(crate) struct Context<'a, H: Host> {
    pub(crate) alloc: Global,
    pub(crate) host: &'a H,
    /// Whether a fault is told with what is wanted in its place.
    pub(crate) explain: bool,
}

/// What is wanted in place of the first fault of a test's policy, and of its traces.
#[derive(Drop)]
pub(crate) struct Hints {
    pub(crate) of_policy: Vec<u8>,
    pub(crate) of_traces: Vec<u8>,
}

impl Hints {
    /// No fault is known yet.
    pub(crate) fn new(alloc: Global) -> Hints {
        Hints {
            of_policy: Vec::new(alloc),
            of_traces: Vec::new(alloc),
        }
    }

    /// What is told where a test ended so.
    pub(crate) fn of(&self, ended: Status) -> &[u8] {
        match ended {
            Status::BadPolicy => &self.of_policy,
            _ => &self.of_traces,
        }
    }
}

/// A file that wasn't read, and why.
#[derive(Drop)]
pub(crate) struct Unread<'a> {
    path: &'a str,
    fault: ReadFault,
}

impl<H: Host> Context<'_, H> {
    /// All bytes of a file.
    pub(crate) fn read<'a>(&self, path: &'a str) -> Result<Vec<u8>, Unread<'a>>
        ensures { IfOk result (λ bytes. IsOf (H.holds self.now.host.now path.now) bytes.items) }
    {
        match self.host.read_file(self.alloc, path) {
            Ok(bytes) => Ok(bytes),
            Err(fault) => Err(Unread { path, fault }),
        }
    }

    /// Tells on `err` that a file wasn't read, and where it is asked for, which one and why. Faults of
    /// `err` are ignored.
    pub(crate) fn fails<E: Write>(&self, unread: Unread<'_>, err: &mut E) -> Status
        ensures { result ≡ Status.Failed }
    {
        let Unread { path, fault } = unread;
        let _ = writeln!(err, "{fault}");
        if self.explain && fault != ReadFault::Memory {
            let why = self.why(path, fault);
            let _ = writeln!(err, "  {}: {why}", OneLine(path));
        }
        Status::Failed
    }

    /// Why a file wasn't read.
    fn why(&self, path: &str, fault: ReadFault) -> Why {
        match fault {
            ReadFault::Long => Why::Long,
            _ => self.host.why_unread(path),
        }
    }

    /// What is wanted in place of a policy's fault, where that is asked for: nothing where it has none,
    /// or where memory for it was refused.
    pub(crate) fn hint(&self, policy: &[u8]) -> Vec<u8> {
        if !self.explain {
            return Vec::new(self.alloc);
        }
        self.granted(policy_hint(self.alloc, policy))
    }

    /// A hint where memory wasn't refused.
    fn granted(&self, hint: Result<Vec<u8>, AllocError>) -> Vec<u8> {
        match hint {
            Ok(hint) => hint,
            Err(_) => Vec::new(self.alloc),
        }
    }

    /// The status with which a job ended. Where it is asked for, and a write failed, it tells on `err`
    /// why.
    pub(crate) fn unwritten<E: Write>(&self, ended: Status, err: &mut E) -> Status
        ensures status { result ≡ ended }
        ensures quiet { ended ≡ Status.Done → err.new ≡ err.old }
    {
        if ended == Status::Failed && self.explain {
            if let Some(why) = self.host.why_unwritten() {
                let _ = writeln!(err, "  standard output: {why}");
            }
        }
        ended
    }

    /// The status with which a job under a policy ended. Where it is asked for, and the policy has a
    /// fault, it tells on `err` what is wanted in its place; and where a write failed, why.
    pub(crate) fn explained<E: Write>(&self, ended: Status, policy: &[u8], err: &mut E) -> Status
        ensures status { result ≡ ended }
        ensures quiet { ended ≡ Status.Done → err.new ≡ err.old }
    {
        if ended == Status::BadPolicy && self.explain {
            return told(ended, &self.hint(policy), err);
        }
        self.unwritten(ended, err)
    }

    /// What is told of a trace's fault under a policy, in the same way.
    pub(crate) fn hint_on(&self, policy: &[u8], trace: &[u8]) -> Vec<u8> {
        if !self.explain {
            return Vec::new(self.alloc);
        }
        self.granted(trace_hint(self.alloc, policy, trace))
    }

    /// The same of a job on a trace, which may have a fault too: then it tells the line with the word
    /// at fault, and what is wanted there.
    pub(crate) fn explained_on<E: Write>(
        &self,
        ended: Status,
        policy: &[u8],
        trace: &[u8],
        err: &mut E,
    ) -> Status
        ensures status { result ≡ ended }
        ensures quiet { ended ≡ Status.Done → err.new ≡ err.old }
    {
        if ended == Status::BadTrace && self.explain {
            return told(ended, &self.hint_on(policy, trace), err);
        }
        self.explained(ended, policy, err)
    }

    /// The same of a race, where a policy may have no fault and lack what a race takes.
    pub(crate) fn explained_race<E: Write>(
        &self,
        ended: Status,
        policy: &[u8],
        err: &mut E,
    ) -> Status
        ensures status { result ≡ ended }
        ensures quiet { ended ≡ Status.Done → err.new ≡ err.old }
    {
        if ended == Status::BadPolicy && self.explain {
            let lack = self.granted(race_hint(self.alloc, policy));
            return told(self.explained(ended, policy, err), &lack, err);
        }
        self.unwritten(ended, err)
    }
}

/// The status with which a job ended. Where that is a fault of a policy or a trace it tells a hint on
/// `err`, whose own faults are ignored, if there is one.
pub(crate) fn told<E: Write>(ended: Status, hint: &[u8], err: &mut E) -> Status
    ensures status { result ≡ ended }
    ensures quiet { ended ≡ Status.Done → err.new ≡ err.old }
{
    if matches!(ended, Status::BadPolicy | Status::BadTrace) && !hint.is_empty() {
        let _ = err.write_all(hint);
    }
    ended
}

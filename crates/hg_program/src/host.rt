//! What the program runs on besides its input and outputs.

ghost use Rattle.std.specs.Prelude.{◌≡◌, ◌≤◌, List, ℕ, Option, Bool, true, IfOk, IfSome, vec_len};
ghost use Rattle.hg_replay.specs.declared.run.input.TheConstants.{LIMIT};

use crate::why::{Unwritten, Why};
use hg_replay::ReadFault;
use std::alloc::Global;

/// What the program runs on besides its input and outputs.
pub trait Host {
    // The bytes that the file of a path holds, where they are known.
    ghost holds: { Self → List ℕ → Option (List ℕ) };

    // Whether the input may be a terminal: where this is false, it is none.
    ghost may_be_terminal: { Self → Bool };

    /// All bytes of a file, which are not more than `LIMIT`. A file that can't be read, or that has
    /// more, is a fault.
    fn read_file(&self, alloc: Global, path: &str) -> Result<Vec<u8>, ReadFault>
        ensures whole { IfOk result
            (λ read. IfSome (holds self.now path.now) (λ bytes. read.items ≡ bytes)) }
        ensures fits { IfOk result (λ read. vec_len read ≤ LIMIT) };

    /// Why a file wasn't read, where it failed or was too long.
    fn why_unread(&self, path: &str) -> Why;

    /// Why the output took no more, where a write to it failed.
    fn why_unwritten(&self) -> Option<Unwritten>;

    /// Whether the program's input is a terminal.
    fn is_at_terminal(&self) -> bool
        ensures { result ≡ true → may_be_terminal self.now ≡ true };
}

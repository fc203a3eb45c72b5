//! The files and the terminal of the system.

ghost use Rattle.std.specs.Prelude.{None, true};

use hg_program::{Host, Unwritten, Why};
use hg_replay::{ReadFault, read_limited};
use std::alloc::Global;
use std::cell::Cell;
use std::io::{Error, ErrorKind, IsTerminal, Read};
use std::{fs, io};

/// The files and the terminal of the system, and why a write to its output failed, if one did. The file
/// `-` is the input.
#[derive(Drop)]
pub(crate) struct Disk<'a> {
    pub(crate) rt: &'a HostRuntime,
    pub(crate) failed: &'a Cell<Option<Unwritten>>,
}

impl Disk<'_> {
    /// Whether a byte can be read of a file, or why not.
    fn read_a_byte(&self, path: &str) -> io::Result<usize> {
        let mut file = fs::open(self.rt, path)?;
        file.read(&mut [0u8; 1])
    }
}

/// Why the system refused a file.
fn why(error: &Error) -> Why {
    match error.kind() {
        ErrorKind::NotFound | ErrorKind::NotADirectory => Why::Missing,
        ErrorKind::IsADirectory => Why::Folder,
        ErrorKind::PermissionDenied => Why::Denied,
        _ => Why::Other,
    }
}

impl Host for Disk<'_> {
    // What a file of the system holds is no fact of a proof.
    ghost holds = { λ _ _. None };

    // Nor is whether its input is a terminal, so it may be one.
    ghost may_be_terminal = { λ _. true };

    fn read_file(&self, alloc: Global, path: &str) -> Result<Vec<u8>, ReadFault> {
        if path == "-" {
            return read_limited(alloc, &mut self.rt.reader());
        }
        match fs::open(self.rt, path) {
            Ok(mut file) => read_limited(alloc, &mut file),
            Err(_) => Err(ReadFault::Failed),
        }
    }

    fn why_unread(&self, path: &str) -> Why {
        if path == "-" {
            return Why::Other;
        }
        match self.read_a_byte(path) {
            Ok(_) => Why::Other,
            Err(error) => why(&error),
        }
    }

    fn why_unwritten(&self) -> Option<Unwritten> {
        self.failed.get()
    }

    fn is_at_terminal(&self) -> bool {
        self.rt.stdin().is_terminal()
    }
}

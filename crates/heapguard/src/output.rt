//! The output, of which it is kept why it took no more.

use hg_program::Unwritten;
use std::cell::Cell;
use std::io;
use std::io::{Error, ErrorKind, Write};

/// A writer, and a place where it is kept why a write to it failed.
#[derive(Drop)]
pub(crate) struct Watched<'a, W: Write> {
    pub(crate) to: W,
    pub(crate) failed: &'a Cell<Option<Unwritten>>,
}

/// Why the system refused a write.
fn why(error: &Error) -> Unwritten {
    match error.kind() {
        ErrorKind::StorageFull | ErrorKind::QuotaExceeded => Unwritten::Full,
        ErrorKind::BrokenPipe => Unwritten::Closed,
        _ => Unwritten::Other,
    }
}

impl<W: Write> Watched<'_, W> {
    /// Keeps why a write failed; one that was interrupted is tried again.
    fn note(&self, error: &Error) {
        if error.kind() != ErrorKind::Interrupted {
            self.failed.set(Some(why(error)));
        }
    }
}

impl<W: Write> Write for Watched<'_, W> {
    ghost contents = { λ watched. W.contents watched.to };

    fn write(&mut self, buf: &[u8]) -> io::Result<usize> {
        let written = self.to.write(buf);
        if let Err(error) = &written {
            self.note(error);
        }
        written
    }

    fn flush(&mut self) -> io::Result<()> {
        self.to.flush()
    }
}

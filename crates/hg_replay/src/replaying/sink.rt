//! Writers of which a stop is known.

ghost use Rattle.std.specs.Prelude.{true};
ghost use Rattle.std.specs.Io.{WritesAtMost};
ghost use Rattle.hg_replay.specs.Sinks.{Seen, MarksStop, WritesSome};

use std::io;
use std::io::Write;

/// A writer. A write that fails, or that takes nothing, is seen from then on: so a caller can tell
/// a text that stopped from one that nobody tried to write. Each `Write` is one.
pub trait Sink {
    // What is known of the writer.
    ghost seen: { Self → Seen };

    /// `Write::write`.
    fn write_some(&mut self, buf: &[u8]) -> io::Result<usize>
        ensures bound { WritesAtMost result buf.now }
        ensures bytes { WritesSome (seen self.old) (seen self.new) result buf.now }
        ensures stops { MarksStop result (seen self.new) };
}

impl<W: Write> Sink for W {
    // Of a writer of std's no clause says whether a write has stopped, so it may have.
    ghost seen = { λ w. record { contents = W.contents w; has_stopped = true } };

    fn write_some(&mut self, buf: &[u8]) -> io::Result<usize> {
        self.write(buf)
    }
}

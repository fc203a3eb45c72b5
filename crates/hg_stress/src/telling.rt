//! What is printed of a run.

use crate::counts::Counts;
use crate::ending::Ending;
use crate::lane::Done;
use crate::shared::Shared;
use hg_calls::{Call, CallText, Names};
use std::io;
use std::io::Write;

/// Prints calls, a line each.
fn tell_calls<W: Write>(out: &mut W, names: &Names, calls: &[Call]) -> io::Result<()> {
    for call in calls {
        let text = CallText { names, call };
        writeln!(out, "{text}")?;
    }
    Ok(())
}

/// Prints counts, each as a comment of a trace.
fn tell_counts<W: Write>(out: &mut W, all: Counts) -> io::Result<()> {
    let Counts {
        events,
        allocated,
        freed,
        parted,
        taken,
        busy,
        seen,
        newer,
        lost,
        refilled,
        orphans,
        broken: _,
    } = all;
    writeln!(out, "# events {events}")?;
    writeln!(out, "# allocated {allocated}")?;
    writeln!(out, "# freed {freed}")?;
    writeln!(out, "# parted {parted}")?;
    writeln!(out, "# taken {taken}")?;
    writeln!(out, "# busy {busy}")?;
    writeln!(out, "# seen {seen} newer {newer} lost {lost}")?;
    writeln!(out, "# refilled {refilled} orphans {orphans}")
}

/// Prints what became of the lives, and whether each was begun and ended once.
fn tell_lives<W: Write>(out: &mut W, all: Counts, shared: &Shared) -> io::Result<bool> {
    match shared.lives.over_and_live() {
        Some((over, live)) if all.broken == 0 => {
            writeln!(out, "# lives ended {over} live {live}")?;
            Ok(true)
        }
        _ => {
            writeln!(out, "# lives broken {}", all.broken)?;
            Ok(false)
        }
    }
}

/// Prints what became of the service, and whether that is as it should be.
fn tell_ending<W: Write>(out: &mut W, ending: Ending) -> io::Result<bool> {
    match ending {
        Ending::Closed(blocks) => writeln!(out, "# closed blocks {blocks}")?,
        Ending::Differs(place) => writeln!(out, "# closed, with another life at {place}")?,
        Ending::Held(segment) => writeln!(out, "# not closed: segment {segment} is held")?,
        Ending::Out(worker) => writeln!(out, "# not closed: w{worker} hasn't left")?,
        Ending::Lost(place) => writeln!(out, "# not closed: {place} is lost")?,
    }
    Ok(matches!(&ending, Ending::Closed(_)))
}

/// Prints what workers did, one after another, and what became of the service; and whether all is as
/// it should be.
pub fn tell<W: Write>(
    out: &mut W,
    names: &Names,
    done: &[Done],
    shared: &Shared,
    ending: Ending,
) -> io::Result<bool> {
    let mut all = Counts::none();
    for one in done {
        tell_calls(out, names, &one.calls)?;
        all = all.and(one.counts);
    }
    tell_counts(out, all)?;
    let is_once = tell_lives(out, all, shared)?;
    let is_closed = tell_ending(out, ending)?;
    out.flush()?;
    Ok(is_once && is_closed)
}

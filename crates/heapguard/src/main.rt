//! heapguard: replays a trace of several workers under a policy, and prints what is answered.
#![tactic(auto)]

mod disk;
mod output;

use disk::Disk;
use hg_program::start;
use hg_replay::Sink;
use output::Watched;
use std::cell::Cell;
use std::io::{LineWriter, Write};
use std::process::ExitCode;
use std::sync::Wait;
use std::thread::Threads;
use std::{env, io};

/// The words after the program's name.
fn arguments(rt: &HostRuntime) -> io::Result<Vec<String>> {
    let mut words = Vec::new(rt.alloc());
    for word in env::args(rt)?.skip(1) {
        words.push(word)?;
    }
    Ok(words)
}

/// The whole program, which tells on `err` what goes wrong.
fn run<T: Threads + Wait, E: Sink + Write>(threads: &T, rt: &HostRuntime, err: &mut E) -> ExitCode {
    let failed = Cell::new(None);
    start(
        threads,
        rt.alloc(),
        arguments(rt),
        &Disk {
            rt,
            failed: &failed,
        },
        &mut rt.reader(),
        &mut Watched {
            to: io::writer(rt),
            failed: &failed,
        },
        err,
    )
}

fn main(rt: HostRuntime) -> ExitCode {
    // a line goes out when it ends or fills a piece, and not as it is written, a character at a time
    if let Ok(mut err) = LineWriter::new(rt.alloc(), rt.stderr()) {
        return run(&rt, &rt, &mut err);
    }
    run(&rt, &rt, &mut rt.stderr())
}

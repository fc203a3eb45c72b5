//! Explains a log of workers by one order: `hg_explain` reads a policy, a line `---`, and the calls
//! of workers with their answers. It prints the calls in an order in which a core gives the same
//! answers (status 0); or that there is none, and the shortest front that no order comes past
//! (status 1); or that it gave up (status 2). A fault is one line on standard error (status 3).
#![tactic(auto)]

use anyhow::bail;
use hg_calls::{Call, CallText, Names, read_log};
use hg_order::{Found, explain};
use hg_policy::Policy;
use hg_policy_text::read_policy;
use hg_trace::split_joined;
use std::alloc::Global;
use std::io;
use std::io::{BufWriter, Read, Write};
use std::process::ExitCode;

/// Prints calls, a line each.
fn print_calls<R: Print + AllocGlobal>(rt: &R, names: &Names, calls: &[Call]) -> io::Result<()> {
    let mut out = BufWriter::new(rt.alloc(), io::writer(rt))?;
    for call in calls {
        let text = CallText { names, call };
        writeln!(out, "{text}")?;
    }
    out.flush()
}

/// The last of the first so many calls of a worker.
fn last_of(calls: &[Call], worker: usize, count: usize) -> Option<&Call> {
    let mut left = count;
    for call in calls {
        if usize::from(call.worker) == worker {
            if left == 1 {
                return Some(call);
            }
            left = left.saturating_sub(1);
        }
    }
    None
}

/// Prints the front that no order comes past, and the last call of each worker before it.
fn print_front<R: Print + AllocGlobal>(
    rt: &R,
    names: &Names,
    calls: &[Call],
    front: &[usize],
) -> io::Result<()> {
    for (worker, count) in front.iter().enumerate() {
        if let Some(call) = last_of(calls, worker, *count) {
            let text = CallText { names, call };
            println!(rt; "w{worker} {count}: {text}")?;
        }
    }
    Ok(())
}

/// Explains a log, and prints how.
fn told<R: Print + AllocGlobal>(
    rt: &R,
    alloc: Global,
    policy: &Policy,
    names: &Names,
    calls: &[Call],
) -> Result<ExitCode, anyhow::Error> {
    match explain(alloc, policy, calls)? {
        Found::Order(order) => {
            print_calls(rt, names, &order)?;
            Ok(ExitCode::SUCCESS)
        }
        Found::Nothing(front) => {
            println!(rt; "no order")?;
            match front {
                Some(front) => print_front(rt, names, calls, &front)?,
                None => println!(rt; "the shortest front wasn't found")?,
            }
            Ok(ExitCode::from(1))
        }
        Found::GivenUp => {
            println!(rt; "given up")?;
            Ok(ExitCode::from(2))
        }
    }
}

/// Explains the log on standard input.
fn explained<R: Print + AllocGlobal>(
    rt: &R,
    input: &mut impl Read,
) -> Result<ExitCode, anyhow::Error> {
    let alloc = rt.alloc();
    let mut bytes = Vec::new(alloc);
    input.read_to_end(&mut bytes)?;
    let (document, log) = split_joined(&bytes);
    let policy = read_policy(alloc, document)?;
    let names = Names::of(alloc, &policy)?;
    let calls = match read_log(alloc, &policy, log) {
        Ok(calls) => calls,
        Err(fault) => bail!("{fault}"),
    };
    told(rt, alloc, &policy, &names, &calls)
}

fn main(rt: HostRuntime) -> ExitCode {
    match explained(&rt, &mut rt.reader()) {
        Ok(status) => status,
        Err(fault) => {
            let _ = eprintln!(rt; "{fault}");
            ExitCode::from(3)
        }
    }
}

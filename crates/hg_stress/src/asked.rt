//! What the words of the command ask for.

use crate::fault::Fault;
use crate::one_line::OneLine;
use clap::error::ErrorKind;
use clap::{Arg, ArgAction, ArgMatches, Command, Error, value_parser};
use std::alloc::{AllocError, Global};

/// How many events of each worker are kept at most.
pub const MOST_KEPT: u64 = 100_000;

const ABOUT: &str = "Workers of one service in threads, each with a seeded stream of events";

const MORE: &str = "\
Prints for each worker in turn its calls as lines of a trace with their answers, and then
what all did, as comments. A fault is told in one line on standard error.

Exit status:
  0  the service closed, with each life begun and ended once
  1  the policy has a fault
  2  a life was begun or ended twice, or the service did not close
  3  reading or writing failed, or memory was refused
  4  the command line is wrong";

/// What is asked for: `POLICY SEED WORKERS EVENTS`, and among them maybe `--counts`.
#[derive(Drop)]
pub struct Request {
    /// The file of the policy.
    pub path: String,
    pub seed: u64,
    /// 1 to 16.
    pub workers: u8,
    /// Of each worker, at least 1; at most `MOST_KEPT` unless they are only counted.
    pub events: u64,
    /// Whether no call is kept.
    pub is_counting: bool,
}

/// An operand that has to be there.
fn operand<'a>(alloc: Global, name: &'a str, help: &'a str) -> Arg<'a> {
    Arg::new(alloc, name).required(true).help(help)
}

/// Each argument is made where it is added: what an error leaves is nothing but that.
fn command<'a>(alloc: Global) -> Result<Command<'a>, AllocError> {
    Command::new(alloc, "hg_stress")
        .about(ABOUT)
        .after_help(MORE)
        .arg(operand(alloc, "POLICY", "File with the policy, a TOML document"))?
        .arg(operand(alloc, "SEED", "Seed of all streams").value_parser(value_parser!(u64)))?
        .arg(workers(alloc))?
        .arg(events(alloc))?
        .arg(counts(alloc))
}

fn workers<'a>(alloc: Global) -> Arg<'a> {
    operand(alloc, "WORKERS", "How many workers, 1 to 16").value_parser(value_parser!(u8).range(
        1..=16,
    ))
}

fn events<'a>(alloc: Global) -> Arg<'a> {
    operand(alloc, "EVENTS", "How many events each makes").value_parser(value_parser!(u64).range(
        1..=1_000_000_000_000,
    ))
}

fn counts<'a>(alloc: Global) -> Arg<'a> {
    Arg::new(alloc, "counts")
        .long("counts")
        .action(ArgAction::SetTrue)
        .help("Only counts: keeps and prints no call")
}

/// Why the words aren't taken.
fn refusal(alloc: Global, error: &Error) -> Fault {
    let kind = error.kind();
    match error.to_string(alloc) {
        Err(_) => Fault::Memory,
        Ok(_) if kind == ErrorKind::OutOfMemory => Fault::Memory,
        Ok(text) if kind == ErrorKind::DisplayHelp => Fault::Help(text),
        Ok(text) => match OneLine(text.as_str()).text(alloc) {
            Ok(line) => Fault::Words(line),
            Err(_) => Fault::Memory,
        },
    }
}

/// The request of words that were taken.
fn request_of(alloc: Global, matches: &ArgMatches) -> Result<Request, Fault> {
    let events = matches.get_one::<u64>("EVENTS").unwrap_or(1);
    let is_counting = matches.get_flag("counts");
    if events > MOST_KEPT && !is_counting {
        return Err(Fault::ManyEvents);
    }
    Ok(Request {
        path: String::from_str(alloc, matches.get_str("POLICY").unwrap_or(""))?,
        seed: matches.get_one::<u64>("SEED").unwrap_or(0),
        workers: matches.get_one::<u8>("WORKERS").unwrap_or(1),
        events,
        is_counting,
    })
}

/// What the words of the command ask for.
pub fn asked(alloc: Global, words: &[String]) -> Result<Request, Fault> {
    match command(alloc)?.try_get_matches_from(words) {
        Ok(matches) => request_of(alloc, &matches),
        Err(error) => Err(refusal(alloc, &error)),
    }
}

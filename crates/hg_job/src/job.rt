//! The job that the words of a command line ask for.

ghost use Rattle.std.specs.Prelude.{◌≡◌, ◌⊎◌, true, IfOk, IfErr, map, []};
ghost use Rattle.clap.specs.Words.{matches_of, subcommand_of, kind_of};
ghost use Rattle.hg_job.specs.CommandLine.{heapguard};
ghost use Rattle.hg_job.specs.Jobs.{accepts, faults_of, IsTaskAt, RefusedBy, TellsOf};
ghost use Rattle.hg_job.specs.declared.job.JobFault.TheVariants.{Memory};

use crate::command::command;
use crate::matches::task_in;
use clap::Error;
use clap::error::ErrorKind;
use std::alloc::{AllocError, Global};

/// What is to be done. Each operand is the name of a file, as it was written; `-`, the standard input,
/// is one file at most.
#[derive(Debug, Drop)]
pub enum Job<'a> {
    /// Replay what stands on standard input: the policy, a line `---`, and the trace.
    Joined,
    /// The same, with the reason for each answer.
    ExplainJoined,
    /// The same, as JSON.
    ExplainJoinedJson,
    /// Read the policy of this file, and count what it names.
    Check(&'a str),
    /// The same, and then read the trace of the second file, and tell which of its names the policy
    /// lacks.
    CheckTrace(&'a str, &'a str),
    /// Read the policy of the first file, and replay the trace of the second.
    Replay(&'a str, &'a str),
    /// The same, with the reason for each answer.
    Explain(&'a str, &'a str),
    /// The same, as JSON.
    ExplainJson(&'a str, &'a str),
    /// Race so many rounds, 1 to 1,000,000, under the policy of this file.
    Race(&'a str, u32),
    /// Compare the answers to the traces of these files under the policy of the first file with
    /// those that they state.
    Test(&'a str, Vec<&'a str>),
    /// Print what the policy of this file says.
    Show(&'a str),
    /// The same, as JSON.
    ShowJson(&'a str),
    /// Read the policy of the first file, run the trace of the second, and tell what stands then.
    State(&'a str, &'a str),
    /// The same, as JSON.
    StateJson(&'a str, &'a str),
    /// The same, as a map of pages and places.
    StateMap(&'a str, &'a str),
    /// The same, as a picture.
    StateSvg(&'a str, &'a str),
}

/// What the words of a command line ask for.
#[derive(Debug, Drop)]
pub struct Task<'a> {
    pub job: Job<'a>,
    /// Whether `--explain` was given: a fault is told with what is wanted in its place.
    pub explain: bool,
}

/// Why there is nothing to do.
#[derive(Debug, Drop)]
pub enum JobFault {
    /// Help or the version was asked for: the text for standard output. It isn't an error.
    Print(String),
    /// The words aren't a command line of the program: the text for standard error.
    Line(String),
    /// An allocation was refused.
    Memory,
}

impl From<AllocError> for JobFault {
    ghost from_gives = { λ _ fault. fault ≡ Memory };

    fn from(_error: AllocError) -> JobFault {
        JobFault::Memory
    }
}

/// A refusal's text without the parser's tip to pass a flag behind `--`, which would have it read
/// as the name of a file.
fn without_tip(alloc: Global, text: &str) -> Result<String, AllocError> {
    if let Some((front, tip)) = text.split_once("\n  tip: to pass '") {
        if let Some((_, usage)) = tip.rsplit_once("\n\nUsage: ") {
            let front = front.trim_end();
            return format!(in alloc; "{front}\n\nUsage: {usage}");
        }
    }
    String::from_str(alloc, text)
}

/// The refusal that an error of the parser is.
pub(crate) fn fault_in(alloc: Global, error: &Error) -> JobFault
    ensures memory { kind_of error.now ≡ ErrorKind.OutOfMemory → result ≡ JobFault.Memory }
    ensures told { (result ≡ JobFault.Memory) ⊎ TellsOf (kind_of error.now) result }
{
    let kind = error.kind();
    match error.to_string(alloc) {
        Err(_) => JobFault::Memory,
        Ok(_) if kind == ErrorKind::OutOfMemory => JobFault::Memory,
        Ok(text) if kind == ErrorKind::DisplayHelp => JobFault::Print(text),
        Ok(text) if kind == ErrorKind::DisplayVersion => JobFault::Print(text),
        Ok(text) => match without_tip(alloc, &text) {
            Ok(left) => JobFault::Line(left),
            Err(_) => JobFault::Memory,
        },
    }
}

/// What the words after the program's name ask for.
pub fn task_of<'a>(alloc: Global, words: &'a [&'a str]) -> Result<Task<'a>, JobFault>
    // The job is that of the command, the operands and the options that the parser states for these
    // words, and so is whether faults are explained.
    ensures task { IfOk result (IsTaskAt (matches_of heapguard (map (λ w. w.now) words.now))
        (subcommand_of heapguard (map (λ w. w.now) words.now))) }
    // Words that the program takes are refused for memory alone.
    ensures taken { IfErr result (λ e.
        accepts (map (λ w. w.now) words.now) ≡ true → e ≡ JobFault.Memory) }
    // There is a task only where nothing is against the words.
    ensures faultless { IfOk result (λ _. faults_of (map (λ w. w.now) words.now) ≡ []) }
    // A text is printed where the parser answers with help or the version, a line told where there
    // is another fault.
    ensures refused { IfErr result (RefusedBy (faults_of (map (λ w. w.now) words.now))) }
{
    match command(alloc)?.try_get_matches_from(words) {
        Ok(matches) => task_in(alloc, &matches),
        Err(error) => Err(fault_in(alloc, &error)),
    }
}

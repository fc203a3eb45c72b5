//! The program, from the words of its command line to its exit status.

ghost use Rattle.std.specs.Prelude.{◌≡◌, IfOk, MatchResult, map, string_bytes};
ghost use Rattle.std.specs.Process.{exit_status};
ghost use Rattle.std.specs.IoError.{error_kind};
ghost use Rattle.hg_replay.specs.Numbers.{number_of};
ghost use Rattle.hg_replay.specs.declared.run.status.Status.{Status};
ghost use Rattle.hg_program.specs.Ends.{AreQuietWords, EndsJob, EndsProgram, EndsWordless};
ghost use Rattle.hg_program.specs.Ends.{IsQuietJob};

use crate::context::Context;
use crate::files::{
    check_file, check_files, explain_files, race_file, replay_files, state_files, test_files,
};
use crate::host::Host;
use crate::joined::{explain_input, replay_input};
use crate::refusal::{fails, refuse};
use crate::showing::{show_file, show_file_json};
use hg_job::{Job, Task, task_of};
use hg_reasons::Form;
use hg_replay::{ReadFault, Sink, Status};
use hg_state::View;
use std::alloc::{AllocError, Global};
use std::io;
use std::io::{Read, Write};
use std::process::ExitCode;
use std::sync::Wait;
use std::thread::Threads;

/// Does a job.
fn do_job<T: Threads + Wait, H: Host, R: Read, W: Sink, E: Write>(
    rt: &T,
    cx: &Context<'_, H>,
    job: &Job,
    input: &mut R,
    out: &mut W,
    err: &mut E,
) -> Status
    ensures ends { EndsJob (H.holds cx.now.host.now) (R.remaining input.old) job.now result
        (W.seen out.old) (W.seen out.new) }
    ensures quiet { result ≡ Status.Done → IsQuietJob (H.may_be_terminal cx.now.host.now)
        (H.holds cx.now.host.now) job.now (err.new ≡ err.old) }
{
    match job {
        Job::Joined => replay_input(cx, input, out, err),
        Job::ExplainJoined => explain_input(cx, Form::Text, input, out, err),
        Job::ExplainJoinedJson => explain_input(cx, Form::Json, input, out, err),
        Job::Check(policy) => check_file(cx, policy, out, err),
        Job::CheckTrace(policy, trace) => check_files(cx, policy, trace, out, err),
        Job::Replay(policy, trace) => replay_files(cx, policy, trace, out, err),
        Job::Explain(policy, trace) => explain_files(cx, Form::Text, policy, trace, out, err),
        Job::ExplainJson(policy, trace) => explain_files(cx, Form::Json, policy, trace, out, err),
        Job::Race(policy, rounds) => race_file(rt, cx, policy, *rounds, out, err),
        Job::Test(policy, traces) => test_files(cx, policy, traces.as_slice(), out, err),
        Job::Show(policy) => show_file(cx, policy, out, err),
        Job::ShowJson(policy) => show_file_json(cx, policy, out, err),
        Job::State(policy, trace) => state_files(cx, View::Text, policy, trace, out, err),
        Job::StateJson(policy, trace) => state_files(cx, View::Json, policy, trace, out, err),
        Job::StateMap(policy, trace) => state_files(cx, View::Map, policy, trace, out, err),
        Job::StateSvg(policy, trace) => state_files(cx, View::Svg, policy, trace, out, err),
    }
}

/// Does what the words after the program's name ask for: a job, with its output on `out` and what
/// goes wrong in one line on `err`, before which a test may warn; help or the version, on `out`; or it
/// tells on `err` what is wrong with the words. Faults of `err` are ignored.
pub fn program<T: Threads + Wait, H: Host, R: Read, W: Sink, E: Sink + Write>(
    rt: &T,
    alloc: Global,
    words: &[&str],
    host: &H,
    input: &mut R,
    out: &mut W,
    err: &mut E,
) -> Status
    ensures ends { EndsProgram (map (λ w. w.now) words.now) (H.holds host.now)
        (R.remaining input.old) result
        (W.seen out.old) (W.seen out.new) (E.seen err.old) (E.seen err.new) }
    ensures quiet { result ≡ Status.Done → AreQuietWords (H.may_be_terminal host.now)
        (map (λ w. w.now) words.now) (H.holds host.now) (err.new ≡ err.old) }
{
    match task_of(alloc, words) {
        Ok(Task { job, explain }) => {
            let cx = Context {
                alloc,
                host,
                explain,
            };
            do_job(rt, &cx, &job, input, out, err)
        }
        Err(fault) => refuse(&fault, out, err),
    }
}

/// The texts of words.
fn texts<'a>(alloc: Global, words: &'a [String]) -> Result<Vec<&'a str>, AllocError>
    ensures { IfOk result (λ texts. map (λ w. w.now) texts.items ≡ map string_bytes words.now) }
{
    let mut texts = Vec::with_capacity(alloc, words.len())?;
    for word in words {
        texts.push(word.as_str())?;
    }
    Ok(texts)
}

/// The same, on words that the system gave.
fn program_of<T: Threads + Wait, H: Host, R: Read, W: Sink, E: Sink + Write>(
    rt: &T,
    alloc: Global,
    words: &[String],
    host: &H,
    input: &mut R,
    out: &mut W,
    err: &mut E,
) -> Status
    ensures { EndsProgram (map string_bytes words.now) (H.holds host.now)
        (R.remaining input.old) result
        (W.seen out.old) (W.seen out.new) (E.seen err.old) (E.seen err.new) }
{
    match texts(alloc, words) {
        Ok(texts) => program(rt, alloc, texts.as_slice(), host, input, out, err),
        Err(_) => fails(ReadFault::Memory, err),
    }
}

/// The same, where the system may have given no words.
fn program_on<T: Threads + Wait, H: Host, R: Read, W: Sink, E: Sink + Write>(
    rt: &T,
    alloc: Global,
    words: io::Result<Vec<String>>,
    host: &H,
    input: &mut R,
    out: &mut W,
    err: &mut E,
) -> Status
    ensures { MatchResult words
        (λ words. EndsProgram (map string_bytes words.items) (H.holds host.now)
        (R.remaining input.old) result
        (W.seen out.old) (W.seen out.new) (E.seen err.old) (E.seen err.new))
        (λ error. EndsWordless (error_kind error) result (W.seen out.old) (W.seen out.new)) }
{
    match words {
        Ok(words) => program_of(rt, alloc, words.as_slice(), host, input, out, err),
        Err(fault) if fault.kind() == io::ErrorKind::OutOfMemory => fails(ReadFault::Memory, err),
        Err(_) => {
            let _ = writeln!(err, "the arguments are no text: see heapguard --help");
            Status::BadLine
        }
    }
}

/// The whole program, from what the system gives as its words to its exit status. Words that are no
/// text are a fault of the command line.
pub fn start<T: Threads + Wait, H: Host, R: Read, W: Sink, E: Sink + Write>(
    rt: &T,
    alloc: Global,
    words: io::Result<Vec<String>>,
    host: &H,
    input: &mut R,
    out: &mut W,
    err: &mut E,
) -> ExitCode
    ensures { (ended : Status) × (exit_status result ≡ number_of ended)
        × MatchResult words
        (λ words. EndsProgram (map string_bytes words.items) (H.holds host.now)
        (R.remaining input.old) ended
        (W.seen out.old) (W.seen out.new) (E.seen err.old) (E.seen err.new))
        (λ error. EndsWordless (error_kind error) ended (W.seen out.old) (W.seen out.new)) }
{
    ExitCode::from(program_on(rt, alloc, words, host, input, out, err))
}

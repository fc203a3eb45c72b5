//! The job that a parse found.
ghost use Rattle.std.specs.Prelude.{◌≡◌, ◌≢◌, ◌⊎◌, ◌∷◌, [], Some, codes, count_by, map};
ghost use Rattle.std.specs.Prelude.{option_map, Contains, IfErr, IfOk};
ghost use Rattle.clap.specs.Kinds.{or_else};
ghost use Rattle.clap.specs.Words.{fault_of, first_of, found_of, one_of, rows_of};
ghost use Rattle.clap.specs.Words.{subcommand_rows_of};
ghost use Rattle.hg_job.specs.CommandLine.{command_names, heapguard};
ghost use Rattle.hg_job.specs.Jobs.{against, clash_faults, explains, has_option, has_two_forms};
ghost use Rattle.hg_job.specs.Jobs.{help_faults, is_given, is_input, is_read_twice, IsTaskAt};
ghost use Rattle.hg_job.specs.Jobs.{operand, operands, reads_twice, IsJobAt, IsStateOf};
ghost use Rattle.hg_job.specs.Jobs.{IsJobOf, IsKnown, IsNumber, RefusedBy, TellsOf};

use crate::command::command;
use crate::job::fault_in;
use crate::{Job, JobFault, Task};
use clap::ArgMatches;
use clap::error::ErrorKind;
use std::alloc::{AllocError, Global};

/// What is told of an option that stands before a command.
const MISPLACED: &str = "'--explain' and '--json' can't stand before a command: see \
    `heapguard replay --explain POLICY TRACE`";

/// What is told where two files are the standard input.
const TWICE: &str = "the file '-' is standard input, which can't be read twice";

/// What is told where more than one form is asked for.
const FORMS: &str = "'--json', '--map' and '--svg' are forms of the same: give one of them";

/// What is told of a word behind `help` for which the parser has no help.
const NO_HELP: &str = "there is no help of this: see `heapguard --help`";

/// The first value of an operand, if it has one.
fn first_in<'a>(matches: &ArgMatches<'a>, name: &str) -> Option<&'a str>
    ensures { option_map (λ value. value.now) result
        ≡ first_of name.now (rows_of (found_of matches.now)) }
{
    matches.get_str(name)
}

/// The first value of an operand, and no text where it has none.
fn operand_in<'a>(matches: &ArgMatches<'a>, name: &str) -> &'a str
    ensures { result.now ≡ operand name.now (rows_of (found_of matches.now)) }
{
    matches.get_str(name).unwrap_or("")
}

/// Whether an option was given.
fn is_given(matches: &ArgMatches<'_>, name: &str) -> bool
    ensures { result ≡ is_given name.now (rows_of (found_of matches.now)) }
{
    operand_in(matches, name) == "true"
}

/// Whether an option of the program alone was given.
fn has_option(options: &ArgMatches<'_>) -> bool
    ensures { result ≡ has_option (rows_of (found_of options.now)) }
{
    is_given(options, "explain") || is_given(options, "json")
}

/// A copy of some words.
fn copy_of<'a>(alloc: Global, words: &[&'a str]) -> Result<Vec<&'a str>, AllocError>
    ensures { IfOk result (λ copy. copy.items ≡ words.now) }
{
    let mut copy = Vec::new(alloc);
    copy.extend_from_slice(words)?;
    Ok(copy)
}

/// All values of an operand.
fn operands_in<'a>(
    alloc: Global,
    matches: &ArgMatches<'a>,
    name: &str,
) -> Result<Vec<&'a str>, AllocError>
    ensures { IfOk result (λ values. map (λ value. value.now) values.items
        ≡ operands name.now (rows_of (found_of matches.now))) }
{
    match matches.get_strs(name) {
        Some(values) => copy_of(alloc, values),
        None => Ok(Vec::new(alloc)),
    }
}

/// The number of an operand, and 0 where it has none.
fn number_in(matches: &ArgMatches<'_>, name: &str) -> u32
    ensures { IsNumber (one_of name.now (rows_of (found_of matches.now))) result }
{
    matches.get_one::<u32>(name).unwrap_or(0)
}

/// Whether a file of this name is the standard input.
fn is_input(name: &str) -> bool
    ensures { result ≡ is_input name.now }
{
    name == "-"
}

/// How many of these files are.
fn inputs_in(names: &[&str]) -> usize
    ensures { result ≡ count_by is_input (map (λ name. name.now) names.now) }
{
    names.iter().filter(|name| is_input(name)).count()
}

/// Whether two of these files are.
fn is_read_twice(policy: &str, traces: &[&str]) -> bool
    ensures { result ≡ is_read_twice policy.now (map (λ name. name.now) traces.now) }
{
    let inputs = inputs_in(traces);
    (is_input(policy) && inputs > 0) || inputs > 1
}

/// Whether two files of a command are.
fn reads_twice(alloc: Global, matches: &ArgMatches<'_>) -> Result<bool, AllocError>
    ensures { IfOk result (λ twice. twice ≡ reads_twice (rows_of (found_of matches.now))) }
{
    let traces = operands_in(alloc, matches, "TRACE")?;
    Ok(is_read_twice(operand_in(matches, "POLICY"), &traces))
}

/// Whether more than one form is asked for.
fn has_two_forms(matches: &ArgMatches<'_>) -> bool
    ensures { result ≡ has_two_forms (rows_of (found_of matches.now)) }
{
    let json = is_given(matches, "json");
    let map = is_given(matches, "map");
    let svg = is_given(matches, "svg");
    (json && map) || (json && svg) || (map && svg)
}

/// What stands after a trace, in the form that is asked for.
fn state_in<'a>(matches: &ArgMatches<'a>) -> Job<'a>
    ensures { IsStateOf (rows_of (found_of matches.now)) result }
{
    let policy = operand_in(matches, "POLICY");
    let trace = operand_in(matches, "TRACE");
    if is_given(matches, "json") {
        return Job::StateJson(policy, trace);
    }
    if is_given(matches, "map") {
        return Job::StateMap(policy, trace);
    }
    if is_given(matches, "svg") {
        return Job::StateSvg(policy, trace);
    }
    Job::State(policy, trace)
}

/// The job of the command of this name, with its operands.
fn job_named<'a>(alloc: Global, name: &str, matches: &ArgMatches<'a>) -> Result<Job<'a>, AllocError>
    requires known { Contains command_names name.now }
    requires other { name.now ≢ codes "help" }
    ensures { IfOk result (IsJobOf name.now (rows_of (found_of matches.now))) }
{
    let policy = operand_in(matches, "POLICY");
    match name {
        "check" => match first_in(matches, "TRACE") {
            Some(trace) => Ok(Job::CheckTrace(policy, trace)),
            None => Ok(Job::Check(policy)),
        },
        "replay" if is_given(matches, "json") => {
            Ok(Job::ExplainJson(policy, operand_in(matches, "TRACE")))
        }
        "replay" if is_given(matches, "explain") => {
            Ok(Job::Explain(policy, operand_in(matches, "TRACE")))
        }
        "replay" => Ok(Job::Replay(policy, operand_in(matches, "TRACE"))),
        "race" => Ok(Job::Race(policy, number_in(matches, "ROUNDS"))),
        "test" => {
            let traces = operands_in(alloc, matches, "TRACE")?;
            Ok(Job::Test(policy, traces))
        }
        "show" if is_given(matches, "json") => Ok(Job::ShowJson(policy)),
        "show" => Ok(Job::Show(policy)),
        "state" => Ok(state_in(matches)),
        _ => unreachable!(),
    }
}

/// The refusal of this kind, in these words.
fn told(alloc: Global, kind: ErrorKind, words: &str) -> JobFault
    ensures { (result ≡ JobFault.Memory) ⊎ TellsOf kind result }
{
    match command(alloc) {
        Ok(mut command) => match command.error(kind, words) {
            Ok(error) => fault_in(alloc, &error),
            Err(_) => JobFault::Memory,
        },
        Err(_) => JobFault::Memory,
    }
}

/// What the parser answers to these words, where it has something against them, and else a
/// refusal.
fn answered(alloc: Global, words: &[&str]) -> Result<JobFault, AllocError>
    ensures { IfOk result (RefusedBy (or_else (fault_of heapguard (map (λ w. w.now) words.now))
        (ErrorKind.InvalidSubcommand ∷ []))) }
{
    match command(alloc)?.try_get_matches_from(words) {
        Ok(_) => Ok(told(alloc, ErrorKind::InvalidSubcommand, NO_HELP)),
        Err(error) => Ok(fault_in(alloc, &error)),
    }
}

/// What `help` is answered: the help of the program, or of a command.
fn helped(alloc: Global, matches: &ArgMatches<'_>) -> Result<JobFault, AllocError>
    ensures { IfOk result (RefusedBy (help_faults (rows_of (found_of matches.now)))) }
{
    match first_in(matches, "COMMAND") {
        Some(name) => answered(alloc, &[name, "--help"]),
        None => answered(alloc, &["--help"]),
    }
}

/// The job of a command other than `help`, unless it reads the standard input twice, or more than one
/// form is asked for.
fn job_reading<'a>(alloc: Global, name: &str, matches: &ArgMatches<'a>) -> Result<Job<'a>, JobFault>
    requires known { Contains command_names name.now }
    requires other { name.now ≢ codes "help" }
    ensures job { IfOk result (IsJobOf name.now (rows_of (found_of matches.now))) }
    ensures once { IfOk result (λ _. clash_faults (rows_of (found_of matches.now)) ≡ []) }
    ensures err { IfErr result (RefusedBy (clash_faults (rows_of (found_of matches.now)))) }
{
    if reads_twice(alloc, matches)? {
        return Err(told(alloc, ErrorKind::ArgumentConflict, TWICE));
    }
    if has_two_forms(matches) {
        return Err(told(alloc, ErrorKind::ArgumentConflict, FORMS));
    }
    Ok(job_named(alloc, name, matches)?)
}

/// The job of a command, unless that is `help`, an option stands before it, it reads the standard
/// input twice, or more than one form is asked for.
fn job_within<'a>(
    alloc: Global,
    options: &ArgMatches<'a>,
    name: &str,
    matches: &ArgMatches<'a>,
) -> Result<Job<'a>, JobFault>
    requires { Contains command_names name.now }
    ensures job { IfOk result (IsJobAt (rows_of (found_of options.now))
        (Some (name.now, rows_of (found_of matches.now)))) }
    ensures err { IfErr result (RefusedBy (against (rows_of (found_of options.now))
        (Some (name.now, rows_of (found_of matches.now))))) }
{
    if has_option(options) {
        return Err(told(alloc, ErrorKind::ArgumentConflict, MISPLACED));
    }
    if name == "help" {
        return Err(helped(alloc, matches)?);
    }
    job_reading(alloc, name, matches)
}

/// The job of the command that was entered, or that of the program alone.
fn job_in<'a>(alloc: Global, matches: &ArgMatches<'a>) -> Result<Job<'a>, JobFault>
    requires { IsKnown (subcommand_rows_of matches.now) }
    ensures job { IfOk result
        (IsJobAt (rows_of (found_of matches.now)) (subcommand_rows_of matches.now)) }
    ensures err { IfErr result
        (RefusedBy (against (rows_of (found_of matches.now)) (subcommand_rows_of matches.now))) }
{
    match matches.subcommand() {
        Some((name, inner)) => job_within(alloc, matches, name, inner),
        None if is_given(matches, "json") => Ok(Job::ExplainJoinedJson),
        None if is_given(matches, "explain") => Ok(Job::ExplainJoined),
        None => Ok(Job::Joined),
    }
}

/// Whether `--explain` was given, to the command that was entered or to the program alone.
fn explains(matches: &ArgMatches<'_>) -> bool
    ensures { result ≡ explains (rows_of (found_of matches.now)) (subcommand_rows_of matches.now) }
{
    match matches.subcommand() {
        Some((_, inner)) => is_given(inner, "explain"),
        None => is_given(matches, "explain"),
    }
}

/// The same job, and whether faults are explained.
pub(crate) fn task_in<'a>(alloc: Global, matches: &ArgMatches<'a>) -> Result<Task<'a>, JobFault>
    requires { IsKnown (subcommand_rows_of matches.now) }
    ensures task { IfOk result
        (IsTaskAt (rows_of (found_of matches.now)) (subcommand_rows_of matches.now)) }
    ensures err { IfErr result
        (RefusedBy (against (rows_of (found_of matches.now)) (subcommand_rows_of matches.now))) }
{
    let explain = explains(matches);
    let job = job_in(alloc, matches)?;
    Ok(Task { job, explain })
}

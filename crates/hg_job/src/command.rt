//! The command line as it is written for its parser, with its help.
ghost use Rattle.std.specs.Prelude.{◌≡◌, codes, false, IfOk};
ghost use Rattle.clap.specs.Words.{app_of, rule_of};
ghost use Rattle.clap.specs.declared.builder.command.Command.TheViews.{out-Command};
ghost use Rattle.hg_job.specs.CommandLine.{alone, check, counted, flag, formed, heapguard, help};
ghost use Rattle.hg_job.specs.CommandLine.{named, of_policy, optional, race, reader, replay, replaying};
ghost use Rattle.hg_job.specs.CommandLine.{required, runner, several, show, shower, standing, state};
ghost use Rattle.hg_job.specs.CommandLine.{test};

use clap::{Arg, ArgAction, Command, value_parser};
use std::alloc::{AllocError, Global};

const VERSION: &str = "0.1.0";

const ABOUT: &str = "Replays traces of a multi-tenant memory service; \
    alone it reads standard input: policy, `---`, trace";

const MORE: &str = "\
Exit status, 0 where all is done:
  1  the policy has a fault
  2  the trace has a fault
  3  reading (16777216 bytes at most) or writing failed, or memory was refused
  4  the command line is wrong
  5  an answer isn't the one that a line states (`test` alone)";

const CHECK_ABOUT: &str = "Reads a policy and counts what it names";

const CHECK_MORE: &str = "\
Prints one line, `ok workers N tenants N arenas N segments N`. With a trace it reads that too,
and then warns of each tenant and arena that a line names and the policy lacks: the first
such line, a name of the policy that is like it, and how many such lines there are.

Exit status:
  0  the policy has no fault, nor has the trace
  1  the policy has a fault, told in one line on standard error
  2  the trace has a fault, told with its line's number
  3  reading or writing failed, or memory was refused
  4  the command line is wrong";

const REPLAY_ABOUT: &str = "Runs a trace under a policy and prints each answer";

const REPLAY_MORE: &str = "\
Prints the answer to each line of the trace in turn; a `list` prints its rows and then
their number. Both files are read whole, the policy first, before anything is printed.
With --explain or --json all is printed at the end: each line with its number, its answer,
and where that serves nothing the reason, in the policy's words; then counts. And --explain
tells of a fault what is wanted there, and of a file that can't be read why.

Exit status:
  0  the trace was run to its end
  1  the policy has a fault, told in one line on standard error
  2  the trace has a fault, told with its line's number
  3  reading or writing failed, or memory was refused
  4  the command line is wrong";

const RACE_ABOUT: &str = "Frees blocks twice at once and counts the answers";

const RACE_MORE: &str = "\
In each round worker 0 allocates 8 bytes for the first tenant in the first arena, and both
that worker and worker 1 free the block, each in a thread of its own. Prints one line,
`rounds R ended E freed F`: the rounds that were run, how many frees were served, and how
many were denied since the other was. It ends early where the arena has no more room.

Exit status:
  0  the race was run
  1  the policy has a fault, or no race can be run under it, told in one line
  3  reading or writing failed, memory was refused, or a thread couldn't be started
  4  the command line is wrong";

const TEST_ABOUT: &str = "Compares the answers to traces with those that they state";

const TEST_MORE: &str = "\
Behind `# =>` a line of a trace states the answer that is expected; of a `list` it is the
last line, `rows N`. Blanks between words count as one. Each line that is answered
otherwise is printed as a diff, then a line for each trace, and at the end how many
traces there are and how many differ. Standard error warns of a trace in which no line
states an answer, and of comments like one (`#=>`).

Exit status:
  0  each stated answer is the answer
  1  the policy has a fault, told in one line on standard error
  2  a trace has a fault, told with its line's number
  3  reading or writing failed, or memory was refused
  4  the command line is wrong
  5  some answer differs";

const SHOW_ABOUT: &str = "Prints what a policy says";

const SHOW_MORE: &str = "\
Prints how many workers and generations there are; of each tenant its limit and the arenas
that it may be in; of each arena its segments and the tenants that it admits; and in a row
for each tenant what it may do with the blocks of each: `-` isn't granted, `!` is denied,
`.` is granted where no arena is in common. Then it warns of each row that can't be of use.

Exit status:
  0  the policy has no fault
  1  the policy has a fault, told in one line on standard error
  3  reading or writing failed, or memory was refused
  4  the command line is wrong";

const STATE_ABOUT: &str = "Prints what stands after a trace";

const STATE_MORE: &str = "\
Runs the trace to its end, and tells what stands then: what each worker holds, has in hand
and charges; orphans and fresh segments; the blocks of each tenant; of each segment how many
places are live, parted, sent or worn; of each page with a class how many are live, parted,
worn or free; and of each class how many blocks stand, and how many were given out, with the
bytes asked for and the bytes given. With --map and --svg the pages are drawn.
No answer is printed: see `heapguard replay --explain` for lines that serve nothing.

Exit status:
  0  the trace was run to its end
  1  the policy has a fault, told in one line on standard error
  2  the trace has a fault, told with its line's number
  3  reading or writing failed, or memory was refused
  4  the command line is wrong";

const HELP_ABOUT: &str = "Prints this help, or that of a command";

/// An operand that has to be there.
fn operand<'a>(alloc: Global, name: &'a str, help: &'a str) -> Arg<'a>
    ensures rule { rule_of result ≡ required name.entry.now }
    ensures local { result.global ≡ false }
{
    Arg::new(alloc, name).required(true).help(help)
}

fn policy<'a>(alloc: Global) -> Arg<'a>
    ensures rule { rule_of result ≡ required (codes "POLICY") }
    ensures local { result.global ≡ false }
{
    operand(
        alloc,
        "POLICY",
        "File with the policy, a TOML document; `-` is standard input",
    )
}

fn trace<'a>(alloc: Global) -> Arg<'a>
    ensures rule { rule_of result ≡ required (codes "TRACE") }
    ensures local { result.global ≡ false }
{
    operand(alloc, "TRACE", "File with the trace, one event a line")
}

fn rounds<'a>(alloc: Global) -> Arg<'a>
    ensures rule { rule_of result ≡ counted (codes "ROUNDS") }
    ensures local { result.global ≡ false }
{
    let number = value_parser!(u32).range(1..=1_000_000);
    operand(alloc, "ROUNDS", "How many rounds, 1 to 1000000").value_parser(number)
}

fn traces<'a>(alloc: Global) -> Arg<'a>
    ensures rule { rule_of result ≡ several (codes "TRACE") }
    ensures local { result.global ≡ false }
{
    operand(
        alloc,
        "TRACE",
        "Files with traces whose lines state answers",
    )
    .num_args(1..)
}

/// An operand that may be left out.
fn optional<'a>(alloc: Global, name: &'a str, help: &'a str) -> Arg<'a>
    ensures rule { rule_of result ≡ optional name.entry.now }
    ensures local { result.global ≡ false }
{
    Arg::new(alloc, name).help(help)
}

/// An option that is there or not.
fn option<'a>(alloc: Global, name: &'a str, help: &'a str) -> Arg<'a>
    ensures rule { rule_of result ≡ flag name.entry.now }
    ensures local { result.global ≡ false }
{
    Arg::new(alloc, name)
        .long(name)
        .action(ArgAction::SetTrue)
        .help(help)
}

/// What `--explain` does where answers are printed, and where they aren't.
const WITH_REASONS: &str = "Print each line with its answer and the reason";

const WITH_WANTED: &str = "Tell of a fault what is wanted there";

/// What `--json` does where answers are printed.
const AS_JSON: &str = "Print the same as JSON, an object a line";

/// What `--map` and `--svg` do.
const AS_MAP: &str = "Draw pages and places, a character each";

const AS_SVG: &str = "Draw them as a picture, an SVG file";

fn explain<'a>(alloc: Global, help: &'a str) -> Arg<'a>
    ensures rule { rule_of result ≡ flag (codes "explain") }
    ensures local { result.global ≡ false }
{
    option(alloc, "explain", help)
}

/// A command with its help, of which the policy is the first operand.
fn of_policy<'a>(
    alloc: Global,
    name: &'a str,
    about: &'a str,
    more: &'a str,
) -> Result<Command<'a>, AllocError>
    ensures app { IfOk result (λ c. app_of c ≡ of_policy name.entry.now) }
    ensures local { IfOk result (λ c. (out-Command c).has_globals ≡ false) }
{
    Command::new(alloc, name)
        .about(about)
        .after_help(more)
        .arg(policy(alloc))
}

fn check_command<'a>(alloc: Global) -> Result<Command<'a>, AllocError>
    ensures app { IfOk result (λ c. app_of c ≡ check) }
    ensures local { IfOk result (λ c. (out-Command c).has_globals ≡ false) }
{
    of_policy(alloc, "check", CHECK_ABOUT, CHECK_MORE)?
        .arg(optional(alloc, "TRACE", "File with a trace for it"))?
        .arg(explain(alloc, WITH_WANTED))
}

/// A replay with no option yet.
fn replaying<'a>(alloc: Global) -> Result<Command<'a>, AllocError>
    ensures app { IfOk result (λ c. app_of c ≡ replaying) }
    ensures local { IfOk result (λ c. (out-Command c).has_globals ≡ false) }
{
    of_policy(alloc, "replay", REPLAY_ABOUT, REPLAY_MORE)?.arg(trace(alloc))
}

fn replay_command<'a>(alloc: Global) -> Result<Command<'a>, AllocError>
    ensures app { IfOk result (λ c. app_of c ≡ replay) }
    ensures local { IfOk result (λ c. (out-Command c).has_globals ≡ false) }
{
    replaying(alloc)?
        .arg(explain(alloc, WITH_REASONS))?
        .arg(option(alloc, "json", AS_JSON))
}

fn race_command<'a>(alloc: Global) -> Result<Command<'a>, AllocError>
    ensures app { IfOk result (λ c. app_of c ≡ race) }
    ensures local { IfOk result (λ c. (out-Command c).has_globals ≡ false) }
{
    of_policy(alloc, "race", RACE_ABOUT, RACE_MORE)?
        .arg(rounds(alloc))?
        .arg(explain(alloc, WITH_WANTED))
}

fn test_command<'a>(alloc: Global) -> Result<Command<'a>, AllocError>
    ensures app { IfOk result (λ c. app_of c ≡ test) }
    ensures local { IfOk result (λ c. (out-Command c).has_globals ≡ false) }
{
    of_policy(alloc, "test", TEST_ABOUT, TEST_MORE)?
        .arg(traces(alloc))?
        .arg(explain(alloc, WITH_WANTED))
}

fn show_command<'a>(alloc: Global) -> Result<Command<'a>, AllocError>
    ensures app { IfOk result (λ c. app_of c ≡ show) }
    ensures local { IfOk result (λ c. (out-Command c).has_globals ≡ false) }
{
    of_policy(alloc, "show", SHOW_ABOUT, SHOW_MORE)?
        .arg(option(alloc, "json", "Print it as JSON, for programs"))?
        .arg(explain(alloc, WITH_WANTED))
}

/// What stands after a trace, with no option yet.
fn standing<'a>(alloc: Global) -> Result<Command<'a>, AllocError>
    ensures app { IfOk result (λ c. app_of c ≡ standing) }
    ensures local { IfOk result (λ c. (out-Command c).has_globals ≡ false) }
{
    of_policy(alloc, "state", STATE_ABOUT, STATE_MORE)?.arg(trace(alloc))
}

/// The same, with two of its forms.
fn formed<'a>(alloc: Global) -> Result<Command<'a>, AllocError>
    ensures app { IfOk result (λ c. app_of c ≡ formed) }
    ensures local { IfOk result (λ c. (out-Command c).has_globals ≡ false) }
{
    standing(alloc)?
        .arg(option(alloc, "json", AS_JSON))?
        .arg(option(alloc, "map", AS_MAP))
}

fn state_command<'a>(alloc: Global) -> Result<Command<'a>, AllocError>
    ensures app { IfOk result (λ c. app_of c ≡ state) }
    ensures local { IfOk result (λ c. (out-Command c).has_globals ≡ false) }
{
    formed(alloc)?
        .arg(option(alloc, "svg", AS_SVG))?
        .arg(explain(alloc, WITH_WANTED))
}

fn help_command<'a>(alloc: Global) -> Result<Command<'a>, AllocError>
    ensures app { IfOk result (λ c. app_of c ≡ help) }
    ensures local { IfOk result (λ c. (out-Command c).has_globals ≡ false) }
{
    Command::new(alloc, "help")
        .about(HELP_ABOUT)
        .arg(optional(alloc, "COMMAND", "Name of a command"))
}

/// The program with no command and no option yet.
fn named<'a>(alloc: Global) -> Result<Command<'a>, AllocError>
    ensures app { IfOk result (λ c. app_of c ≡ named) }
    ensures local { IfOk result (λ c. (out-Command c).has_globals ≡ false) }
{
    Command::new(alloc, "heapguard")
        .no_binary_name(true)
        .disable_help_subcommand(true)
        .version(VERSION)
        .about(ABOUT)
        .after_help(MORE)
        .bin_name("heapguard")
}

/// The program with no command yet.
fn program<'a>(alloc: Global) -> Result<Command<'a>, AllocError>
    ensures { IfOk result (λ c. app_of c ≡ alone) }
{
    named(alloc)?
        .arg(explain(alloc, WITH_REASONS))?
        .arg(option(alloc, "json", AS_JSON))
}

/// The program with the commands that read a policy or a trace once.
fn reader<'a>(alloc: Global) -> Result<Command<'a>, AllocError>
    ensures { IfOk result (λ c. app_of c ≡ reader) }
{
    let check = check_command(alloc)?;
    let replay = replay_command(alloc)?;
    program(alloc)?.subcommand(check)?.subcommand(replay)
}

/// The same, with the commands that run traces and races.
fn runner<'a>(alloc: Global) -> Result<Command<'a>, AllocError>
    ensures { IfOk result (λ c. app_of c ≡ runner) }
{
    let race = race_command(alloc)?;
    let test = test_command(alloc)?;
    reader(alloc)?.subcommand(race)?.subcommand(test)
}

/// The same, with the commands that show what a policy says and what stands.
fn shower<'a>(alloc: Global) -> Result<Command<'a>, AllocError>
    ensures { IfOk result (λ c. app_of c ≡ shower) }
{
    let show = show_command(alloc)?;
    let state = state_command(alloc)?;
    runner(alloc)?.subcommand(show)?.subcommand(state)
}

/// The program's command line.
pub(crate) fn command<'a>(alloc: Global) -> Result<Command<'a>, AllocError>
    ensures { IfOk result (λ c. app_of c ≡ heapguard) }
{
    let help = help_command(alloc)?;
    shower(alloc)?.subcommand(help)
}

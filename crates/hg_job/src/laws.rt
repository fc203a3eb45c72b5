//! Laws of the definitions. Each function does nothing: what it promises is the law.

ghost use Rattle.hg_job.specs.JobLaws.{OptionsAreJobs, OptionsExplain, RequestsArePrinted};
ghost use Rattle.hg_job.specs.JobLaws.{StatesAreJobs, WordsAreJobs};

/// No words ask for a replay of standard input, `check p` for a check of that file, and `replay p t`
/// for a replay of the second file under the first; so with each command that has no option.
pub fn words_are_jobs()
    ensures { WordsAreJobs }
{}

/// `--explain` asks for a replay of standard input with reasons, and `replay --explain p t` and
/// `replay p t --explain` for one of the second file under the first; `--json`, with `--explain` or
/// without it, for the same as JSON; and `show p --json` for what the policy says as JSON.
pub fn options_are_jobs()
    ensures { OptionsAreJobs }
{}

/// `state p t` asks for what stands after the trace of the second file under the policy of the first, as
/// text; and with `--json`, `--map` or `--svg`, wherever it stands, in that form.
pub fn states_are_jobs()
    ensures { StatesAreJobs }
{}

/// With `--explain`, alone or behind a command, before its operands or after them, faults are explained;
/// without it they aren't.
pub fn options_explain()
    ensures { OptionsExplain }
{}

/// `--help`, `help`, `help check` and `--version` are answered by a text to print, and never by a line;
/// a word that is no command, also behind `help`, a race of no rounds, an option twice or before a
/// command, `-` as two files, and two forms of a state, by a line, and never by a text to print.
pub fn requests_are_printed()
    ensures { RequestsArePrinted }
{}

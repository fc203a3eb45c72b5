//! Laws of the definitions. Each function does nothing: what it promises is the law.

ghost use Rattle.hg_replay.specs.ReplayLaws.{ListLinesPrintListings, ListingsShowWhatIsListed};
ghost use Rattle.hg_replay.specs.ReplayLaws.{ReplaysAreRuns, ReplaysKeepPolicy, ReplaysKeepSound};
ghost use Rattle.hg_replay.specs.ReplayLaws.{FirstLinesBeginRuns, StopsAreInRuns};
ghost use Rattle.hg_replay.specs.StatusLaws.{ChecksEndAsDue, LongInputsFail, NumbersDiffer};
ghost use Rattle.hg_replay.specs.StatusLaws.{FailedRunsBeginWell};
ghost use Rattle.hg_replay.specs.StatusLaws.{OneStatusIsDue, RunsEndAsDue, RunsShowValuesInWords};
ghost use Rattle.hg_replay.specs.WrittenValues.{LinesShowValuesInWords, ValuesShowInWords};

/// The rows of a listing are the machine's listing, and nothing changes.
pub fn listings_show_what_is_listed()
    ensures { ListingsShowWhatIsListed }
{}

/// A line that lists writes the machine's listing and the number of its rows. Nothing changes.
pub fn list_lines_print_listings()
    ensures { ListLinesPrintListings }
{}

/// A replay is one run of the machine, of what each line means where the lines before it lead, and
/// its text is the run's.
pub fn replays_are_runs()
    ensures { ReplaysAreRuns }
{}

/// A replay leaves the policy.
pub fn replays_keep_policy()
    ensures { ReplaysKeepPolicy }
{}

/// A replay by workers that there are leaves a sound state sound.
pub fn replays_keep_sound()
    ensures { ReplaysKeepSound }
{}

/// Whatever first lines of a trace are answered, their answers are the first of the run of all.
pub fn first_lines_begin_runs()
    ensures { FirstLinesBeginRuns }
{}

/// A replay that stopped stands after first lines of the run of all, of whose text it wrote a front.
pub fn stops_are_in_runs()
    ensures { StopsAreInRuns }
{}

/// Two lines that differ in a written value alone print the same but for a word that is read.
pub fn lines_show_values_in_words()
    ensures { LinesShowValuesInWords }
{}

/// So replays of two traces that differ in written values alone print line for line the same but
/// for words that are read.
pub fn values_show_in_words()
    ensures { ValuesShowInWords }
{}

/// For all bytes one of the statuses Done, BadPolicy and BadTrace is due, and no other.
pub fn one_status_is_due()
    ensures { OneStatusIsDue }
{}

/// A run that doesn't fail ends with the status that is due.
pub fn runs_end_as_due()
    ensures { RunsEndAsDue }
{}

/// So do runs on the bytes of such traces under one policy, where both end with Done.
pub fn runs_show_values_in_words()
    ensures { RunsShowValuesInWords }
{}

/// A run that fails wrote nothing, or it stopped in the run of one on the same bytes that goes well.
pub fn failed_runs_begin_well()
    ensures { FailedRunsBeginWell }
{}

/// A check that doesn't fail ends with BadPolicy where a run would, and else with Done.
pub fn checks_end_as_due()
    ensures { ChecksEndAsDue }
{}

/// An input longer than the limit fails, with nothing written.
pub fn long_inputs_fail()
    ensures { LongInputsFail }
{}

/// Two statuses have two numbers.
pub fn numbers_differ()
    ensures { NumbersDiffer }
{}

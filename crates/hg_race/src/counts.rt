//! What a race counts.

ghost use Rattle.std.specs.Prelude.{◌≡◌, ◌+◌, ◌≤◌, ◌<◌, ◌^◌, ◌++◌, decimal, length};
ghost use Rattle.arrayvec.specs.ArrayString.{array_string_len};
ghost use Rattle.hg_race.specs.Counts.{AreCounts, counts_line, ends, finds_freed};

use arrayvec::ArrayString;
use hg_machine::{Answer, Rule};

/// The rounds that were run, and what the two frees of each were answered.
#[derive(Clone, Copy, Debug, PartialEq, Eq, Drop)]
pub(crate) struct Counts {
    pub(crate) rounds: u32,
    /// Answers `Done` and `Parted`, which end the block's life.
    pub(crate) ended: u64,
    /// Answers that the block is freed already.
    pub(crate) freed: u64,
}

/// 1 for an answer that ended the block's life.
fn ends(answer: &Answer) -> u64
    ensures { result ≡ ends answer.now }
{
    match answer {
        Answer::Done | Answer::Parted => 1,
        _ => 0,
    }
}

/// 1 for an answer that found the block freed.
fn finds_freed(answer: &Answer) -> u64
    ensures { result ≡ finds_freed answer.now }
{
    match answer {
        Answer::Denied(Rule::AlreadyFreed) => 1,
        _ => 0,
    }
}

/// Appends a word and a number behind it.
fn push_count(text: &mut ArrayString<128>, word: &str, n: u64)
    requires { array_string_len text.old + length word.now + 20 ≤ 128 }
    ensures bytes { text.new.bytes ≡ text.old.bytes ++ word.now ++ decimal n }
    ensures len { array_string_len text.new ≤ array_string_len text.old + length word.now + 20 }
{
    let mut digits = itoa::Buffer::new();
    text.push_str(word);
    text.push_str(digits.format(n));
}

impl Counts {
    /// No round was run yet.
    pub(crate) fn none() -> Counts
        ensures rounds { result.rounds ≡ 0 }
        ensures answers { result.ended + result.freed ≡ 0 }
    {
        Counts {
            rounds: 0,
            ended: 0,
            freed: 0,
        }
    }

    /// These, and a round more, whose two frees were answered so.
    pub(crate) fn with_round(self, answers: &(Answer, Answer)) -> Counts
        requires rounds { self.rounds + 1 < 2 ^ 32 }
        requires counts { AreCounts self.rounds self.rounds self.ended self.freed }
        ensures rounds { result.rounds ≡ self.rounds + 1 }
        ensures ended { result.ended ≡ self.ended + ends answers.now.0 + ends answers.now.1 }
        ensures freed { result.freed ≡ self.freed + finds_freed answers.now.0 + finds_freed answers.now.1 }
        ensures counts { AreCounts result.rounds result.rounds result.ended result.freed }
    {
        Counts {
            rounds: self.rounds + 1,
            ended: self.ended + ends(&answers.0) + ends(&answers.1),
            freed: self.freed + finds_freed(&answers.0) + finds_freed(&answers.1),
        }
    }

    /// Their line.
    #[tactic(auto, unfolding(crate::specs::Counts::counts_line))]
    pub(crate) fn line(&self) -> ArrayString<128>
        ensures { result.bytes ≡ counts_line self.now.rounds self.now.ended self.now.freed }
    {
        let mut text = ArrayString::new();
        push_count(&mut text, "rounds ", u64::from(self.rounds));
        push_count(&mut text, " ended ", self.ended);
        push_count(&mut text, " freed ", self.freed);
        text.push_str("\n");
        text
    }
}

//! Where words stand in a text.

ghost use Rattle.std.specs.Prelude.{◌≡◌, drop, not};
ghost use Rattle.std.specs.List.{position_or_len};
ghost use Rattle.hg_trace.specs.Lines.{is_blank};
ghost use Rattle.hg_trace.specs.Spans.{StandsAt};

use crate::words::{word_end, word_start};

/// Where the word of a number from 0 begins in a text, and how many bytes it has: at the text's
/// end, and none, where there are no more words than that.
pub(crate) fn span(text: &[u8], number: usize) -> (usize, usize)
    ensures { StandsAt text.now number result.0 result.1 }
{
    let mut behind = 0;
    for _before in 0..number {
        let (start, width) = first_word(&text[behind..]);
        behind += start + width;
    }
    let (start, width) = first_word(&text[behind..]);
    (behind + start, width)
}

/// The same of the first word, as far as the first blank behind it.
#[tactic(auto, using(crate::proofs::Firsts::unwrap_or_position))]
fn first_word(text: &[u8]) -> (usize, usize)
    ensures start { result.0 ≡ position_or_len (λ b. not (is_blank b)) text.now }
    ensures width { result.1 ≡ position_or_len is_blank (drop result.0 text.now) }
{
    let start = word_start(text).unwrap_or(text.len());
    let word = &text[start..];
    (start, word_end(word).unwrap_or(word.len()))
}

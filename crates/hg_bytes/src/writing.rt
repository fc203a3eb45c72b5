//! Bytes that are written.

ghost use Rattle.std.specs.Prelude.{◌≡◌, ◌≢◌, ◌≤◌, ◌<◌, ◌+◌, length, MatchOption};
ghost use Rattle.hg_machine.specs.declared.Answer.TheVariants.{Done};
ghost use Rattle.hg_bytes.specs.Bytes.{WritesBytes, Puts, PutsNot};
ghost use Rattle.hg_bytes.specs.Pieces.{words_for, piece};

use crate::pieces::{before, start_in, word_index, word_with, words_for};
use crate::progress::Progress;
use crate::store::WordStore;
use hg_machine::Answer;

/// Writes bytes into a block, from the byte of an offset on: they are Writes of the words that
/// these bytes reach into, one after another, each behind a Read of it where they don't cover it,
/// and the first of these calls that is refused ends them. No bytes write nothing; the words from
/// index 4,294,967,295 on, which no block has, are asked for as that one.
pub fn write_bytes<S: WordStore>(store: &mut S, by: &S::By, first: u64, bytes: &[u8]) -> Progress
    requires { S.may by.now store.old }
    ensures written { WritesBytes S.reads S.writes by.now first bytes.now result
        store.old store.new }
    ensures still { S.may by.now store.new }
{
    let into = (first % 8) as usize;
    for many in 0..words_for(into, bytes.len()) {
        let index = word_index(first, many);
        let piece = piece_of(into, many, bytes);
        if let Some(answer) = put(store, by, index, start_in(into, many), piece) {
            return Progress {
                done: before(into, many),
                refused: Some(answer),
            };
        }
    }
    Progress {
        done: bytes.len(),
        refused: None,
    }
}

/// The bytes that lie in the word that is so many behind the first.
fn piece_of(into: usize, many: usize, bytes: &[u8]) -> &[u8]
    requires into { into < 8 }
    requires many { many < words_for into (length bytes.now) }
    ensures { result.now ≡ piece into bytes.now many }
{
    let from = before(into, many);
    let count = (8 - start_in(into, many)).min(bytes.len() - from);
    &bytes[from..from + count]
}

/// Puts bytes into a word, from there on, or tells the answer by which they weren't.
fn put<S: WordStore>(
    store: &mut S,
    by: &S::By,
    index: u32,
    start: usize,
    piece: &[u8],
) -> Option<Answer>
    requires may { S.may by.now store.old }
    requires inside { start + length piece.now ≤ 8 }
    ensures put { MatchOption result
        (Puts S.reads S.writes by.now index start piece.now store.old store.new)
        (λ said. PutsNot S.reads S.writes by.now index start piece.now said store.old store.new) }
    ensures still { S.may by.now store.new }
{
    if piece.len() == 8 {
        return refusal(store.write(by, index, word_with(0, start, piece)));
    }
    match store.read(by, index) {
        Answer::Value(word) => refusal(store.write(by, index, word_with(word, start, piece))),
        answer => Some(answer),
    }
}

/// The answer to a Write, if it was refused.
fn refusal(answer: Answer) -> Option<Answer>
    ensures { MatchOption result (answer ≡ Done) (λ said. (said ≡ answer) × (said ≢ Done)) }
{
    match answer {
        Answer::Done => None,
        answer => Some(answer),
    }
}

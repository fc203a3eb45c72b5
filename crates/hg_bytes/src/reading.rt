//! Bytes that are read.

ghost use Rattle.std.specs.Prelude.{◌≡◌, ◌<◌, ◌%◌, length, take, drop};
ghost use Rattle.std.specs.Int.{to_le_bytes, w64};
ghost use Rattle.hg_bytes.specs.Bytes.{ReadsBytes};
ghost use Rattle.hg_bytes.specs.Pieces.{before, start_in, words_for, laid, piece};

use crate::pieces::{before, lay, start_in, word_index, words_for};
use crate::progress::Progress;
use crate::store::WordStore;
use hg_machine::Answer;

/// Reads as many bytes of a block as the room has, from the byte of an offset on: they are Reads of
/// the words that these bytes reach into, one after another, and the first that is refused ends
/// them. What stands in the room behind the bytes that were read is as it was. An empty room reads
/// nothing; the words from index 4,294,967,295 on, which no block has, are asked for as that one.
pub fn read_bytes<S: WordStore>(store: &mut S, by: &S::By, first: u64, room: &mut [u8]) -> Progress
    requires { S.may by.now store.old }
    ensures read { ReadsBytes S.reads S.writes by.now first room.old result room.new
        store.old store.new }
    ensures still { S.may by.now store.new }
{
    let into = (first % 8) as usize;
    for many in 0..words_for(into, room.len()) {
        match store.read(by, word_index(first, many)) {
            Answer::Value(word) => show(word, into, many, room),
            answer => {
                return Progress {
                    done: before(into, many),
                    refused: Some(answer),
                };
            }
        }
    }
    Progress {
        done: room.len(),
        refused: None,
    }
}

/// Puts into the room what of the word that is so many behind the first lies there.
fn show(word: u64, into: usize, many: usize, room: &mut [u8])
    requires into { into < 8 }
    requires many { many < words_for into (length room.old) }
    ensures { room.new ≡ laid (before into many)
        (take (length (piece into room.old many))
        (drop (start_in into many) (to_le_bytes w64 word))) room.old }
{
    let bytes = word.to_le_bytes();
    let start = start_in(into, many);
    let from = before(into, many);
    let count = (8 - start).min(room.len() - from);
    lay(from, &bytes[start..start + count], room);
}

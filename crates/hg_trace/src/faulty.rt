//! What stands at fault in a line.

ghost use Rattle.std.specs.Prelude.{◌≡◌, option_map, position, not};
ghost use Rattle.hg_trace.specs.Lines.{before_comment, is_plain, split_words};
ghost use Rattle.hg_trace.specs.Forms.{wrong_in, given_in, new_in};
ghost use Rattle.hg_trace.specs.FaultyWord.{line_of, Tells, TellsWord, TellsByte};

use crate::fault::LineFault;
use crate::lines::{Lines, is_plain};
use crate::operands::{block_among, label_among, operands_in, wanted_at};
use crate::spans::span;
use crate::wanted::Wanted;
use crate::words::Words;

/// What stands at fault in a line: a word, or a byte that can't stand there.
#[derive(Clone, Copy, Debug)]
pub struct FaultyWord<'a> {
    /// What is read of the line: its bytes before its comment and its end.
    pub text: &'a [u8],
    /// Where it begins in the text, in bytes from 0; the text's length where a word is missing.
    pub column: usize,
    /// How many bytes it has; none where a word is missing.
    pub width: usize,
    /// What is wanted there.
    pub wanted: Wanted,
}

/// What stands at fault in the line with this number from 1, where the fault of reading these bytes
/// is told of it. Of the faults `Command` and `Operand` it is the first word that isn't what is
/// wanted there, or the line's end where a word is missing; of a label's faults that label's word.
/// None where there is no such line, or where nothing in it can have the fault; always some where
/// the fault is one that reading the bytes told.
pub fn faulty_word<'a>(bytes: &'a [u8], line: u64, fault: LineFault) -> Option<FaultyWord<'a>>
    ensures { Tells fault (line_of bytes.now line) result }
{
    let text = text_of(bytes, line)?;
    match fault {
        LineFault::Byte => faulty_byte(text),
        LineFault::Command | LineFault::Operand => told(text, wrong_in(text)),
        LineFault::UnknownLabel => told(text, given_in(text)),
        LineFault::RepeatedLabel => told(text, new_in(text)),
    }
}

/// What is read of a line.
fn text_of(bytes: &[u8], number: u64) -> Option<&[u8]>
    ensures { option_map (λ text. text.now) result
        ≡ option_map before_comment (line_of bytes.now number) }
{
    let mut lines = Lines::new(bytes);
    let mut at = 0;
    while let Some(line) = lines.next_cut() {
        at += 1;
        if at == number {
            return Some(line.before_comment());
        }
    }
    None
}

fn faulty_byte(text: &[u8]) -> Option<FaultyWord<'_>>
    ensures { TellsByte text.now (position (λ b. not (is_plain b)) text.now) result }
{
    let column = bad_byte(text)?;
    Some(FaultyWord {
        text,
        column,
        width: 1,
        wanted: Wanted::Byte,
    })
}

/// The first byte that can't stand in a text.
fn bad_byte(text: &[u8]) -> Option<usize>
    ensures { result ≡ position (λ b. not (is_plain b)) text.now }
{
    text.iter().position(|b| !is_plain(*b))
}

/// The word of a number, where what is wanted there is known.
fn told(text: &[u8], word: Option<(usize, Wanted)>) -> Option<FaultyWord<'_>>
    ensures { TellsWord text.now word result }
{
    let (number, wanted) = word?;
    let (column, width) = span(text, number);
    Some(FaultyWord {
        text,
        column,
        width,
        wanted,
    })
}

/// The first word that isn't what is wanted there.
fn wrong_in(text: &[u8]) -> Option<(usize, Wanted)>
    ensures { result ≡ wrong_in (split_words text.now) }
{
    let operands = operands_in(text);
    let mut words = Words::new(text);
    let mut number = 0;
    while let Some(word) = words.next_word() {
        let wanted = wanted_at(operands, number);
        if !wanted.is_form_of(word) {
            return Some((number, wanted));
        }
        number += 1;
    }
    let wanted = wanted_at(operands, number);
    if wanted.may_be_missing() {
        return None;
    }
    Some((number, wanted))
}

/// The word of a block's label, which an earlier line was to give.
fn given_in(text: &[u8]) -> Option<(usize, Wanted)>
    ensures { result ≡ given_in (split_words text.now) }
{
    let operand = block_among(operands_in(text))?;
    Some((operand + 2, Wanted::GivenLabel))
}

/// The word of the label that the line gives, which no earlier line was to give.
fn new_in(text: &[u8]) -> Option<(usize, Wanted)>
    ensures { result ≡ new_in (split_words text.now) }
{
    let operand = label_among(operands_in(text))?;
    Some((operand + 2, Wanted::NewLabel))
}

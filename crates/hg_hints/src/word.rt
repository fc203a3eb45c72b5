//! What is told of a word that is at fault in a line of a trace.

ghost use Rattle.std.specs.Prelude.{◌≡◌, ◌++◌, IfOk, OnOk, map, option_map, replicate};
ghost use Rattle.hg_hints.specs.TraceWords.{bytes_of, caret_text, command_like, commands, far_text};
ghost use Rattle.hg_hints.specs.TraceWords.{shown, told, wanted_text, word_text};

use crate::alike::near;
use crate::push::{push, push_count};
use crate::reason::push_like;
use hg_trace::{FaultyWord, Wanted};
use std::alloc::{AllocError, Global};

/// The longest line that is shown, in bytes.
const SHOWN: usize = 100;

/// What is wanted.
fn wanted_text(wanted: Wanted) -> &'static str
    ensures { result.now ≡ wanted_text wanted }
{
    match wanted {
        Wanted::Byte => "wanted: a blank, or a byte from 21 to 7E (hexadecimal)",
        Wanted::Worker => "wanted: a worker, w0 to w15",
        Wanted::Command => {
            "wanted: alloc, free, deliver, take, collect, read, write, look, list, abandon or refill"
        }
        Wanted::Actor => "wanted: a tenant, 1 to 16 of a to z, 0 to 9, _ and -, the first a letter",
        Wanted::Arena => "wanted: an arena, 1 to 16 of a to z, 0 to 9, _ and -, the first a letter",
        Wanted::Bytes => "wanted: how many bytes, a whole number from 0 to 18446744073709551615",
        Wanted::Segment => "wanted: a segment, a whole number from 0 to 63",
        Wanted::Index => "wanted: which word of the block, a whole number from 0 to 4294967295",
        Wanted::Value => "wanted: a value, a whole number from 0 to 18446744073709551615",
        Wanted::Place => "wanted: a place, its segment, page and index, as 0.1.2",
        Wanted::Block => "wanted: a block, by its handle, as @0.1.2.3, or by its label",
        Wanted::As => "wanted: as and a label, or nothing more",
        Wanted::Label => "wanted: a label, 1 to 16 of a to z, 0 to 9, _ and -, the first a letter",
        Wanted::Nothing => "wanted: nothing more",
        Wanted::GivenLabel => "wanted: a label that a line above gives",
        Wanted::NewLabel => "wanted: a label that no line above gives",
    }
}

fn commands() -> [&'static str; 11]
    ensures { map (λ command. command.now) result ≡ commands }
{
    [
        "alloc", "free", "deliver", "take", "collect", "read", "write", "look", "list", "abandon",
        "refill",
    ]
}

/// The bytes of the word.
fn bytes_of<'a>(word: &FaultyWord<'a>) -> &'a [u8]
    ensures { result.now ≡ bytes_of word.now }
{
    let rest = &word.text[word.column.min(word.text.len())..];
    &rest[..word.width.min(rest.len())]
}

/// The command that a word is like.
fn command_like(alloc: Global, word: &[u8]) -> Result<Option<&'static str>, AllocError>
    ensures { IfOk result (λ like. option_map (λ name. name.now) like ≡ command_like word.now) }
{
    match str::from_utf8(word) {
        Ok(word) => near(alloc, &commands(), word),
        Err(_) => Ok(None),
    }
}

/// Appends what is told of it: the command that it is like, where a command is wanted and it is like
/// one, and else what is wanted.
fn push_told(out: &mut Vec<u8>, alloc: Global, word: &FaultyWord<'_>) -> Result<(), AllocError>
    ensures { OnOk result (out.new.items ≡ out.old.items ++ told word.now) }
{
    if word.wanted != Wanted::Command {
        return push(out, wanted_text(word.wanted));
    }
    let like = command_like(alloc, bytes_of(word))?;
    push_like(out, alloc, wanted_text(Wanted::Command), like)
}

/// A byte as it is shown.
fn shown(b: u8) -> u8
    ensures { result ≡ shown b }
{
    match b {
        b' ' | b'\t' | b'\r' => b' ',
        b'!'..=b'~' => b,
        _ => b'?',
    }
}

/// Appends a text as it is shown.
fn push_shown(out: &mut Vec<u8>, text: &[u8]) -> Result<(), AllocError>
    ensures { OnOk result (out.new.items ≡ out.old.items ++ map shown text.now) }
{
    for b in text {
        out.push(shown(*b))?;
    }
    Ok(())
}

/// Appends a byte so many times.
fn push_times(out: &mut Vec<u8>, n: usize, b: u8) -> Result<(), AllocError>
    ensures { OnOk result (out.new.items ≡ out.old.items ++ replicate n b) }
{
    for _i in 0..n {
        out.push(b)?;
    }
    Ok(())
}

/// Appends a line, and below it the word's place with these words.
#[tactic(auto, unfolding(crate::specs::TraceWords::caret_text))]
fn push_caret(out: &mut Vec<u8>, word: &FaultyWord<'_>, words: &[u8]) -> Result<(), AllocError>
    ensures { OnOk result (out.new.items ≡ out.old.items
        ++ caret_text word.now.text.now word.now.column word.now.width words.now) }
{
    push(out, "  ")?;
    push_shown(out, word.text)?;
    push(out, "\n  ")?;
    push_times(out, word.column, b' ')?;
    push_times(out, word.width.max(1), b'^')?;
    push(out, " ")?;
    out.extend_from_slice(words)?;
    push(out, "\n")
}

/// The same of a line that is too long for that.
#[tactic(auto, unfolding(crate::specs::TraceWords::far_text))]
fn push_far(out: &mut Vec<u8>, column: usize, words: &[u8]) -> Result<(), AllocError>
    ensures { OnOk result (out.new.items ≡ out.old.items ++ far_text column words.now) }
{
    push_count(out, "  behind ", column as u64)?;
    push(out, " bytes: ")?;
    out.extend_from_slice(words)?;
    push(out, "\n")
}

/// The line of a trace with the word that is at fault in it, and what is told of that; of a line of more
/// than 100 bytes only where that stands.
pub(crate) fn word_text(alloc: Global, word: &FaultyWord<'_>) -> Result<Vec<u8>, AllocError>
    ensures { IfOk result (λ text. text.items ≡ word_text word.now) }
{
    let mut words = Vec::new(alloc);
    push_told(&mut words, alloc, word)?;
    let mut out = Vec::new(alloc);
    if word.text.len() <= SHOWN {
        push_caret(&mut out, word, &words)?;
    } else {
        push_far(&mut out, word.column, &words)?;
    }
    Ok(out)
}

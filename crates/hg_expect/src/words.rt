//! Words of answers, and what is shown of a line.

ghost use Rattle.std.specs.Prelude.{◌≡◌, ◌++◌, OnOk, IfOk, map};
ghost use Rattle.hg_trace.specs.Lines.{ends_line};
ghost use Rattle.hg_expect.specs.Words.{is_gap, word_part, words, line_with, last_line, shown};
ghost use Rattle.hg_expect.specs.Words.{begins_answer, is_slip};

use std::alloc::{AllocError, Global};

fn ends_line(b: u8) -> bool
    ensures { result ≡ ends_line b }
{
    b == b'\n'
}

fn is_gap(b: u8) -> bool
    ensures { result ≡ is_gap b }
{
    matches!(b, b' ' | b'\t' | b'\r') || ends_line(b)
}

/// Appends a byte as words are written, within a word or before one.
fn push_part(out: &mut Vec<u8>, within: bool, b: u8) -> Result<(), AllocError>
    ensures { OnOk result (out.new.items ≡ out.old.items ++ word_part within b) }
{
    if is_gap(b) {
        return Ok(());
    }
    if !within {
        out.push(b' ')?;
    }
    out.push(b)?;
    Ok(())
}

/// The words of a text, each behind a space.
pub(crate) fn words(alloc: Global, text: &[u8]) -> Result<Vec<u8>, AllocError>
    ensures { IfOk result (λ out. out.items ≡ words text.now) }
{
    let mut out = Vec::new(alloc);
    let mut within = false;
    for b in text {
        push_part(&mut out, within, *b)?;
        within = !is_gap(*b);
    }
    Ok(out)
}

/// A line so far goes on by a byte, behind an end or not.
fn push_to_line(line: &mut Vec<u8>, ended: bool, b: u8) -> Result<(), AllocError>
    ensures { OnOk result (line.new.items ≡ line_with line.old.items ended b) }
{
    if ends_line(b) {
        return Ok(());
    }
    if ended {
        line.clear();
    }
    line.push(b)?;
    Ok(())
}

/// The last line of a text that isn't empty.
pub(crate) fn last_line(alloc: Global, text: &[u8]) -> Result<Vec<u8>, AllocError>
    ensures { IfOk result (λ line. line.items ≡ last_line text.now) }
{
    let mut line = Vec::new(alloc);
    let mut ended = true;
    for b in text {
        push_to_line(&mut line, ended, *b)?;
        ended = ends_line(*b);
    }
    Ok(line)
}

/// A byte as it is shown: no control byte but a tab is.
fn shown(b: u8) -> u8
    ensures { result ≡ shown b }
{
    if (b < b' ' && b != b'\t') || b == 127 {
        return b'?';
    }
    b
}

/// Appends a text as it is shown.
pub(crate) fn push_shown(out: &mut Vec<u8>, text: &[u8]) -> Result<(), AllocError>
    ensures { OnOk result (out.new.items ≡ out.old.items ++ map shown text.now) }
{
    for b in text {
        out.push(shown(*b))?;
    }
    Ok(())
}

/// Whether `=>` stands in a text behind blanks alone.
fn begins_answer(text: &[u8]) -> bool
    ensures { result ≡ begins_answer text.now }
{
    for at in 0..text.len() {
        if !is_gap(text[at]) {
            return text[at..].starts_with(b"=>");
        }
    }
    false
}

/// Whether a line that states no answer has a comment like one.
pub(crate) fn is_slip(line: &[u8]) -> bool
    ensures { result ≡ is_slip line.now }
{
    for at in 0..line.len() {
        if line[at] == b'#' && begins_answer(&line[at + 1..]) {
            return true;
        }
    }
    false
}

//! Lines of a trace, each with its answer below it.

ghost use Rattle.std.specs.Prelude.{◌≡◌, ◌++◌, map, OnOk, option_map};
ghost use Rattle.hg_reasons.specs.AsText.{line_text, reply_text, without_end};
ghost use Rattle.hg_reasons.specs.Shown.{shown};

use hg_text::{push, push_count};
use std::alloc::AllocError;

/// A byte as it is shown: no control byte but a tab is.
fn shown(b: u8) -> u8
    ensures { result ≡ shown b }
{
    if (b < b' ' && b != b'\t') || b == 127 {
        return b'?';
    }
    b
}

/// Appends a text as it is shown.
fn push_shown(out: &mut Vec<u8>, text: &[u8]) -> Result<(), AllocError>
    ensures { OnOk result (out.new.items ≡ out.old.items ++ map shown text.now) }
{
    for b in text {
        out.push(shown(*b))?;
    }
    Ok(())
}

/// Appends a line with its number.
#[tactic(auto, unfolding(crate::specs::AsText::line_text))]
fn push_line(out: &mut Vec<u8>, number: u32, text: &[u8]) -> Result<(), AllocError>
    ensures { OnOk result (out.new.items ≡ out.old.items ++ line_text number text.now) }
{
    push_count(out, "", u64::from(number))?;
    push(out, ": ")?;
    push_shown(out, text)?;
    push(out, "\n")
}

/// An answer without the byte at its end.
pub(crate) fn without_end(reply: &[u8]) -> &[u8]
    ensures { result.now ≡ without_end reply.now }
{
    &reply[..reply.len().saturating_sub(1)]
}

/// Appends an answer with its reason, if it has one.
#[tactic(auto, unfolding(crate::specs::AsText::reply_text))]
fn push_reply(out: &mut Vec<u8>, reply: &[u8], reason: Option<Vec<u8>>) -> Result<(), AllocError>
    ensures { OnOk result (out.new.items ≡ out.old.items
        ++ reply_text reply.now (option_map (λ words. words.items) reason)) }
{
    match reason {
        None => out.extend_from_slice(reply),
        Some(words) => {
            out.extend_from_slice(without_end(reply))?;
            push(out, ": ")?;
            out.extend_from_slice(&words)?;
            push(out, "\n")
        }
    }
}

/// Appends a line with its number, and its answer with its reason, if it has one.
pub(crate) fn push_line_and_reply(
    out: &mut Vec<u8>,
    number: u32,
    text: &[u8],
    reply: &[u8],
    reason: Option<Vec<u8>>,
) -> Result<(), AllocError>
    ensures { OnOk result (out.new.items ≡ out.old.items ++ (line_text number text.now
        ++ reply_text reply.now (option_map (λ words. words.items) reason))) }
{
    push_line(out, number, text)?;
    push_reply(out, reply, reason)
}

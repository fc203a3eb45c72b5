//! Lines of a trace as JSON, an object each.

ghost use Rattle.std.specs.Prelude.{◌≡◌, ◌++◌, OnOk, option_map, position};
ghost use Rattle.std.specs.List.{flat_map};
ghost use Rattle.hg_trace.specs.Lines.{is_hash};
ghost use Rattle.hg_reasons.specs.AsJson.{before_hash, command_in, escaped, line_object};
ghost use Rattle.hg_reasons.specs.AsJson.{member, reason_member, string};

use crate::as_text::without_end;
use crate::counts::{Kind, word_of};
use hg_text::{push, push_count};
use std::alloc::AllocError;

/// Appends a byte as a JSON string has it: one that is neither printable ASCII nor blank is a `?`.
fn push_escaped(out: &mut Vec<u8>, b: u8) -> Result<(), AllocError>
    ensures { OnOk result (out.new.items ≡ out.old.items ++ escaped b) }
{
    match b {
        b'"' => push(out, "\\\""),
        b'\\' => push(out, "\\\\"),
        b'\t' => push(out, "\\t"),
        b'\n' => push(out, "\\n"),
        b'\r' => push(out, "\\r"),
        _ if b < b' ' || b > b'~' => push(out, "?"),
        _ => Ok(out.push(b)?),
    }
}

/// Appends each byte of a text so.
fn push_escaped_all(out: &mut Vec<u8>, text: &[u8]) -> Result<(), AllocError>
    ensures { OnOk result (out.new.items ≡ out.old.items ++ flat_map escaped text.now) }
{
    for b in text {
        push_escaped(out, *b)?;
    }
    Ok(())
}

/// Appends a text as a JSON string.
#[tactic(auto, unfolding(crate::specs::AsJson::string))]
fn push_string(out: &mut Vec<u8>, text: &[u8]) -> Result<(), AllocError>
    ensures { OnOk result (out.new.items ≡ out.old.items ++ string text.now) }
{
    push(out, "\"")?;
    push_escaped_all(out, text)?;
    push(out, "\"")
}

/// Appends a key, and a text as its value.
#[tactic(auto, unfolding(crate::specs::AsJson::member))]
fn push_member(out: &mut Vec<u8>, key: &str, text: &[u8]) -> Result<(), AllocError>
    ensures { OnOk result (out.new.items ≡ out.old.items ++ member key.now text.now) }
{
    push(out, key)?;
    push_string(out, text)
}

/// Appends a reason, or that there is none.
#[tactic(auto, unfolding(crate::specs::AsJson::reason_member))]
fn push_reason_member(out: &mut Vec<u8>, reason: Option<Vec<u8>>) -> Result<(), AllocError>
    ensures { OnOk result (out.new.items ≡ out.old.items
        ++ reason_member (option_map (λ words. words.items) reason)) }
{
    match reason {
        None => push(out, ",\"reason\":null"),
        Some(words) => push_member(out, ",\"reason\":", &words),
    }
}

/// Where the first `#` stands.
fn hash_in(text: &[u8]) -> Option<usize>
    ensures { result ≡ position is_hash text.now }
{
    text.iter().position(|b| *b == b'#')
}

/// What stands before the first `#`, if there is one.
fn before_hash(text: &[u8]) -> &[u8]
    ensures { result.now ≡ before_hash text.now }
{
    &text[..hash_in(text).unwrap_or(text.len())]
}

/// The command of a line: without its comment, and the blanks around it.
fn command_in(text: &[u8]) -> &[u8]
    ensures { result.now ≡ command_in text.now }
{
    before_hash(text).trim_ascii()
}

/// Appends what is told of a line as an object.
#[tactic(auto, unfolding(crate::specs::AsJson::line_object))]
pub(crate) fn push_object(
    out: &mut Vec<u8>,
    number: u32,
    text: &[u8],
    kind: Kind,
    reply: &[u8],
    reason: Option<Vec<u8>>,
) -> Result<(), AllocError>
    ensures { OnOk result (out.new.items ≡ out.old.items ++ line_object number text.now kind
        reply.now (option_map (λ words. words.items) reason)) }
{
    push_count(out, "{\"line\":", u64::from(number))?;
    push_member(out, ",\"text\":", command_in(text))?;
    push_member(out, ",\"kind\":", word_of(kind).as_bytes())?;
    push_member(out, ",\"answer\":", without_end(reply))?;
    push_reason_member(out, reason)?;
    push(out, "}\n")
}

//! How an explanation is written.

ghost use Rattle.std.specs.Prelude.{◌≡◌, ◌++◌, OnOk, option_map};
ghost use Rattle.hg_reasons.specs.AsText.{reply_text};
ghost use Rattle.hg_reasons.specs.Forms.{line_told};

use crate::as_json::push_object;
use crate::as_text::push_line_and_reply;
use crate::counts::counted;
use hg_replay::Told;
use std::alloc::AllocError;

/// How an explanation is written.
#[derive(Clone, Copy)]
pub enum Form {
    /// As text, for people: a line of the trace, and its answer below it.
    Text,
    /// As JSON, for programs: an object a line.
    Json,
}

/// Appends a line with its number, and what is told of it: its answer with the reason, if it has one.
pub(crate) fn push_told(
    out: &mut Vec<u8>,
    form: Form,
    number: u32,
    text: &[u8],
    told: Told,
    reply: &[u8],
    reason: Option<Vec<u8>>,
) -> Result<(), AllocError>
    ensures { OnOk result (out.new.items ≡ out.old.items
        ++ line_told form number text.now told reply.now (option_map (λ words. words.items) reason)) }
{
    match form {
        Form::Text => push_line_and_reply(out, number, text, reply, reason),
        Form::Json => push_object(out, number, text, counted(told).kind, reply, reason),
    }
}

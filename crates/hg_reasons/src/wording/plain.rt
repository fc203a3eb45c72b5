//! Words that need no names.

ghost use Rattle.std.specs.Prelude.{◌≡◌, ◌++◌, OnOk};
ghost use Rattle.hg_replay.specs.Text.{rule_text};
ghost use Rattle.hg_reasons.specs.Wording.{asks_text, by_text, freed_text, generation_text};
ghost use Rattle.hg_reasons.specs.Wording.{generation_words, holder_text, holds_text, large_text};
ghost use Rattle.hg_reasons.specs.Wording.{no_segment_text, unserved_text, was_text};

use crate::past::Bound;
use crate::reason::Charged;
use hg_machine::{Answer, Rule};
use hg_text::{push, push_count};
use std::alloc::AllocError;

fn rule_text(rule: Rule) -> &'static str
    ensures { result.now ≡ rule_text rule }
{
    match rule {
        Rule::Stranger => "stranger",
        Rule::Stale(_) => "stale",
        Rule::AlreadyFreed => "freed",
        Rule::ForeignArena => "arena",
        Rule::Forbidden => "forbidden",
        Rule::NotGranted => "grant",
        Rule::OverLimit => "limit",
    }
}

/// What an allocation was answered that wasn't served.
fn was_text(answer: Answer) -> &'static str
    ensures { result.now ≡ was_text answer }
{
    match answer {
        Answer::Denied(_) => " was denied ",
        Answer::TooLarge => " was answered large",
        Answer::NoRoom => " was answered noroom",
        _ => " wasn't served",
    }
}

/// By which rule an allocation was denied.
fn by_text(answer: Answer) -> &'static str
    ensures { result.now ≡ by_text answer }
{
    match answer {
        Answer::Denied(rule) => rule_text(rule),
        _ => "",
    }
}

/// Appends who holds a segment.
fn push_holder(out: &mut Vec<u8>, holder: Option<u8>) -> Result<(), AllocError>
    ensures { OnOk result (out.new.items ≡ out.old.items ++ holder_text holder) }
{
    match holder {
        Some(worker) => push_count(out, "worker ", u64::from(worker)),
        None => push(out, "nobody"),
    }
}

/// The words before the generation that a place is in.
fn generation_words(generation: u32) -> &'static str
    ensures { result.now ≡ generation_words generation }
{
    if generation == 0 {
        return "no block was given out there";
    }
    "the place is in generation "
}

/// Appends which generation a place is in.
pub(super) fn push_generation(out: &mut Vec<u8>, generation: u32) -> Result<(), AllocError>
    ensures { OnOk result (out.new.items ≡ out.old.items ++ generation_text generation) }
{
    push(out, generation_words(generation))?;
    if generation != 0 {
        push_count(out, "", u64::from(generation))?;
    }
    Ok(())
}

#[tactic(auto, unfolding(crate::specs::Wording::holds_text))]
pub(super) fn push_holds(
    out: &mut Vec<u8>,
    segment: u8,
    holder: Option<u8>,
) -> Result<(), AllocError>
    ensures { OnOk result (out.new.items ≡ out.old.items ++ holds_text segment holder) }
{
    push_holder(out, holder)?;
    push_count(out, " holds segment ", u64::from(segment))
}

#[tactic(auto, unfolding(crate::specs::Wording::no_segment_text))]
pub(super) fn push_no_segment(out: &mut Vec<u8>, segment: u8) -> Result<(), AllocError>
    ensures { OnOk result (out.new.items ≡ out.old.items ++ no_segment_text segment) }
{
    push_count(out, "segment ", u64::from(segment))?;
    push(out, " isn't in the policy")
}

#[tactic(auto, unfolding(crate::specs::Wording::freed_text))]
pub(super) fn push_freed(out: &mut Vec<u8>, line: u32) -> Result<(), AllocError>
    ensures { OnOk result (out.new.items ≡ out.old.items ++ freed_text line) }
{
    push_count(out, "line ", u64::from(line))?;
    push(out, " freed the block")
}

#[tactic(auto, unfolding(crate::specs::Wording::large_text))]
pub(super) fn push_large(out: &mut Vec<u8>, bytes: u64) -> Result<(), AllocError>
    ensures { OnOk result (out.new.items ≡ out.old.items ++ large_text bytes) }
{
    push_count(out, "", bytes)?;
    push(out, " bytes are asked for, and a block has 65536 at most")
}

#[tactic(auto, unfolding(crate::specs::Wording::asks_text))]
pub(super) fn push_asks(out: &mut Vec<u8>, charged: Charged) -> Result<(), AllocError>
    ensures { OnOk result (out.new.items ≡ out.old.items ++ asks_text charged) }
{
    push_count(out, ", and asks for ", charged.bytes)?;
    push_count(out, ", a block of ", charged.block)
}

#[tactic(auto, unfolding(crate::specs::Wording::unserved_text))]
pub(super) fn push_unserved(out: &mut Vec<u8>, bound: Bound) -> Result<(), AllocError>
    ensures { OnOk result (out.new.items ≡ out.old.items ++ unserved_text bound) }
{
    push_count(out, "line ", u64::from(bound.line))?;
    push(out, was_text(bound.answer))?;
    push(out, by_text(bound.answer))
}

/// Appends two texts.
pub(super) fn push_pair(out: &mut Vec<u8>, text: &str, more: &str) -> Result<(), AllocError>
    ensures { OnOk result (out.new.items ≡ out.old.items ++ text.now ++ more.now) }
{
    push(out, text)?;
    push(out, more)
}

//! What a check of a policy and a trace prints.

ghost use Rattle.std.specs.Prelude.{◌≡◌, ◌++◌, IfOk, OnOk, map, option_map};
ghost use Rattle.std.specs.List.{flat_map, list_any};
ghost use Rattle.hg_replay.specs.Checks.{counts_line};
ghost use Rattle.hg_trace.specs.Stored.{lines_in};
ghost use Rattle.hg_strangers.specs.Mentions.{says_another, seen};
ghost use Rattle.hg_strangers.specs.Texts.{checked, kind_text, lacked_text, others_text, rest_text};
ghost use Rattle.hg_strangers.specs.Texts.{warning};

use crate::lacked::{lacked, lacks_another, lines_that_say};
use crate::mention::Mention;
use hg_hints::{Kind, near_to, push_near};
use hg_policy::Policy;
use hg_text::{push, push_count};
use hg_trace::Trace;
use std::alloc::{AllocError, Global};

fn kind_text(kind: Kind) -> &'static str
    ensures { result.now ≡ kind_text kind }
{
    match kind {
        Kind::Tenant => "tenant ",
        Kind::Arena => "arena ",
    }
}

/// Appends where a name stands that the policy lacks.
#[tactic(auto, unfolding(crate::specs::Texts::lacked_text))]
fn push_lacked(out: &mut Vec<u8>, line: u32, kind: Kind, name: &str) -> Result<(), AllocError>
    ensures { OnOk result (out.new.items ≡ out.old.items ++ lacked_text line kind name.now) }
{
    push_count(out, "warning: line ", u64::from(line))?;
    push(out, ": the policy has no ")?;
    push(out, kind_text(kind))?;
    push(out, name)
}

/// Appends a name that is like it, if there is one, and how many lines say it.
#[tactic(auto, unfolding(crate::specs::Texts::rest_text))]
fn push_rest(out: &mut Vec<u8>, near: Option<&str>, lines: usize) -> Result<(), AllocError>
    ensures { OnOk result (out.new.items
        ≡ out.old.items ++ rest_text (option_map (λ name. name.now) near.entry) lines) }
{
    push_near(out, near)?;
    push_count(out, " (such lines: ", lines as u64)?;
    push(out, ")\n")
}

/// Appends a name that the policy lacks.
#[tactic(auto, unfolding(crate::specs::Texts::warning))]
fn push_warning(
    out: &mut Vec<u8>,
    alloc: Global,
    policy: &Policy,
    trace: &Trace<'_>,
    mention: &Mention<'_>,
) -> Result<(), AllocError>
    ensures { OnOk result (out.new.items
        ≡ out.old.items ++ warning policy.now (lines_in trace.now) (seen mention.now)) }
{
    let near = near_to(alloc, policy, mention.kind, mention.name)?;
    push_lacked(out, mention.line, mention.kind, mention.name)?;
    push_rest(out, near, lines_that_say(trace, mention))
}

/// Appends the names that the policy lacks.
fn push_warnings(
    out: &mut Vec<u8>,
    alloc: Global,
    policy: &Policy,
    trace: &Trace<'_>,
    mentions: &[Mention<'_>],
) -> Result<(), AllocError>
    ensures { OnOk result (out.new.items ≡ out.old.items
        ++ flat_map (warning policy.now (lines_in trace.now)) (map seen mentions.now)) }
{
    for mention in mentions {
        push_warning(out, alloc, policy, trace, mention)?;
    }
    Ok(())
}

/// Appends that there are others.
#[tactic(auto, unfolding(crate::specs::Texts::others_text))]
fn push_others(out: &mut Vec<u8>, others: bool) -> Result<(), AllocError>
    ensures { OnOk result (out.new.items ≡ out.old.items ++ others_text others) }
{
    if others {
        push(
            out,
            "warning: the policy lacks other names of the trace too\n",
        )?;
    }
    Ok(())
}

/// Appends how much a policy names.
#[tactic(auto, unfolding(hg_replay::specs::Checks::counts_line))]
fn push_counts(out: &mut Vec<u8>, policy: &Policy) -> Result<(), AllocError>
    ensures { OnOk result (out.new.items ≡ out.old.items ++ counts_line policy.now) }
{
    push_count(out, "ok workers ", u64::from(policy.workers()))?;
    push_count(out, " tenants ", u64::from(policy.tenants()))?;
    push_count(out, " arenas ", u64::from(policy.arenas()))?;
    push_count(out, " segments ", u64::from(policy.segments()))?;
    push(out, "\n")
}

/// How much a policy names, and which names of a trace it lacks.
#[tactic(auto, unfolding(crate::specs::Texts::checked))]
pub(crate) fn checked(
    alloc: Global,
    policy: &Policy,
    trace: &Trace<'_>,
) -> Result<Vec<u8>, AllocError>
    ensures { IfOk result (λ text. text.items ≡ checked policy.now (lines_in trace.now)) }
{
    let mentions = lacked(alloc, policy, trace)?;
    let others = lacks_another(policy, trace, &mentions);
    let mut out = Vec::new(alloc);
    push_counts(&mut out, policy)?;
    push_warnings(&mut out, alloc, policy, trace, &mentions)?;
    push_others(&mut out, others)?;
    Ok(out)
}

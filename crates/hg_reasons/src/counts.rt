//! How many lines came to what.

ghost use Rattle.std.specs.Prelude.{◌≡◌, ◌++◌, OnOk, count_by, length};
ghost use Rattle.std.specs.List.{flat_map};
ghost use Rattle.hg_reasons.specs.Counts.{actor_of, answer_kind, answers_text, before_answers};
ghost use Rattle.hg_reasons.specs.Counts.{before_denials, behind_counts, behind_number, count_row};
ghost use Rattle.hg_reasons.specs.Counts.{counted, counts_text, denials_text};
ghost use Rattle.hg_reasons.specs.Counts.{is_denial, is_denied, is_denied_to, is_denied_to_none};
ghost use Rattle.hg_reasons.specs.Counts.{is_of, kind_row, rule_kind, tenant_row};
ghost use Rattle.hg_reasons.specs.Counts.{tenants_in, word_of};

use crate::form::Form;
use hg_machine::{Answer, Event, Rule};
use hg_policy::Policy;
use hg_replay::Told;
use hg_text::{push, push_count};
use std::alloc::AllocError;

/// What a line came to, as it is counted.
#[derive(Clone, Copy)]
pub(crate) enum Kind {
    Served,
    Stranger,
    Stale,
    AlreadyFreed,
    ForeignArena,
    Forbidden,
    NotGranted,
    OverLimit,
    TooLarge,
    NoRoom,
    Elsewhere,
    OutOfBlock,
    Busy,
    NothingInHand,
    NotHeld,
    NoSegment,
    Unbound,
}

/// The kinds, in the order in which they are told.
const KINDS: [Kind; 17] = [
    Kind::Served,
    Kind::Stranger,
    Kind::Stale,
    Kind::AlreadyFreed,
    Kind::ForeignArena,
    Kind::Forbidden,
    Kind::NotGranted,
    Kind::OverLimit,
    Kind::TooLarge,
    Kind::NoRoom,
    Kind::Elsewhere,
    Kind::OutOfBlock,
    Kind::Busy,
    Kind::NothingInHand,
    Kind::NotHeld,
    Kind::NoSegment,
    Kind::Unbound,
];

/// What a line came to, and the number of the tenant that asked, 255 where none did.
#[derive(Clone, Copy)]
pub(crate) struct Outcome {
    pub kind: Kind,
    pub actor: u8,
}

fn rule_kind(rule: Rule) -> Kind
    ensures { result ≡ rule_kind rule }
{
    match rule {
        Rule::Stranger => Kind::Stranger,
        Rule::Stale(_) => Kind::Stale,
        Rule::AlreadyFreed => Kind::AlreadyFreed,
        Rule::ForeignArena => Kind::ForeignArena,
        Rule::Forbidden => Kind::Forbidden,
        Rule::NotGranted => Kind::NotGranted,
        Rule::OverLimit => Kind::OverLimit,
    }
}

fn answer_kind(answer: Answer) -> Kind
    ensures { result ≡ answer_kind answer }
{
    match answer {
        Answer::Denied(rule) => rule_kind(rule),
        Answer::TooLarge => Kind::TooLarge,
        Answer::NoRoom => Kind::NoRoom,
        Answer::Elsewhere => Kind::Elsewhere,
        Answer::OutOfBlock => Kind::OutOfBlock,
        Answer::Busy => Kind::Busy,
        Answer::NothingInHand => Kind::NothingInHand,
        Answer::NotHeld => Kind::NotHeld,
        Answer::NoSegment => Kind::NoSegment,
        _ => Kind::Served,
    }
}

/// Who asks by an event.
fn actor_of(event: Event) -> u8
    ensures { result ≡ actor_of event }
{
    match event {
        Event::Alloc { actor, .. } => actor.0,
        Event::Free { actor, .. } => actor.0,
        Event::Read { actor, .. } => actor.0,
        Event::Write { actor, .. } => actor.0,
        Event::Look { actor, .. } => actor.0,
        _ => 255,
    }
}

/// What a line came to, as it is counted. A listing is served, whatever rows it has.
pub(crate) fn counted(told: Told) -> Outcome
    ensures { result ≡ counted told }
{
    match told {
        Told::One(event, answer) => Outcome {
            kind: answer_kind(answer),
            actor: actor_of(event),
        },
        Told::Listing => Outcome {
            kind: Kind::Served,
            actor: 255,
        },
        Told::Unbound => Outcome {
            kind: Kind::Unbound,
            actor: 255,
        },
    }
}

/// Whether a line came to what is told by the word of this kind.
fn is_of(kind: Kind, one: &Outcome) -> bool
    ensures { result ≡ is_of kind one.now }
{
    word_of(one.kind) == word_of(kind)
}

fn is_denial(kind: Kind) -> bool
    ensures { result ≡ is_denial kind }
{
    matches!(
        kind,
        Kind::Stranger
            | Kind::Stale
            | Kind::AlreadyFreed
            | Kind::ForeignArena
            | Kind::Forbidden
            | Kind::NotGranted
            | Kind::OverLimit
    )
}

fn is_denied(one: &Outcome) -> bool
    ensures { result ≡ is_denied one.now }
{
    is_denial(one.kind)
}

fn is_denied_to(tenant: u8, one: &Outcome) -> bool
    ensures { result ≡ is_denied_to tenant one.now }
{
    is_denial(one.kind) && one.actor == tenant
}

/// Whether it was denied to somebody who is no tenant.
fn is_denied_to_none(policy: &Policy, one: &Outcome) -> bool
    ensures { result ≡ is_denied_to_none policy.now one.now }
{
    is_denial(one.kind) && one.actor >= policy.tenants()
}

/// The word of a kind.
pub(crate) fn word_of(kind: Kind) -> &'static str
    ensures { result.now ≡ word_of kind }
{
    match kind {
        Kind::Served => "served",
        Kind::Stranger => "denied stranger",
        Kind::Stale => "denied stale",
        Kind::AlreadyFreed => "denied freed",
        Kind::ForeignArena => "denied arena",
        Kind::Forbidden => "denied forbidden",
        Kind::NotGranted => "denied grant",
        Kind::OverLimit => "denied limit",
        Kind::TooLarge => "large",
        Kind::NoRoom => "noroom",
        Kind::Elsewhere => "elsewhere",
        Kind::OutOfBlock => "range",
        Kind::Busy => "busy",
        Kind::NothingInHand => "empty",
        Kind::NotHeld => "notheld",
        Kind::NoSegment => "nosegment",
        Kind::Unbound => "unbound",
    }
}

/// Appends a word and how many there are of it: as text unless there is none.
#[tactic(auto, unfolding(crate::specs::Counts::count_row))]
fn push_row(out: &mut Vec<u8>, form: Form, word: &str, count: usize) -> Result<(), AllocError>
    ensures { OnOk result (out.new.items ≡ out.old.items ++ count_row form word.now count) }
{
    match form {
        Form::Text if count == 0 => Ok(()),
        Form::Text => {
            push(out, "  ")?;
            push(out, word)?;
            push_count(out, " ", count as u64)?;
            push(out, "\n")
        }
        Form::Json => {
            push(out, ",\"")?;
            push(out, word)?;
            push_count(out, "\":", count as u64)
        }
    }
}

/// Appends how many lines came to a kind.
fn push_kind(out: &mut Vec<u8>, form: Form, lines: &[Outcome], kind: Kind) -> Result<(), AllocError>
    ensures { OnOk result (out.new.items ≡ out.old.items ++ kind_row form lines.now kind) }
{
    let count = lines.iter().filter(|one| is_of(kind, one)).count();
    push_row(out, form, word_of(kind), count)
}

/// Appends how many lines came to each of these kinds.
fn push_kinds(
    out: &mut Vec<u8>,
    form: Form,
    lines: &[Outcome],
    kinds: &[Kind],
) -> Result<(), AllocError>
    ensures { OnOk result (out.new.items
        ≡ out.old.items ++ flat_map (kind_row form lines.now) kinds.now) }
{
    for kind in kinds {
        push_kind(out, form, lines, *kind)?;
    }
    Ok(())
}

/// Appends how much was denied to a tenant.
fn push_tenant(
    out: &mut Vec<u8>,
    form: Form,
    policy: &Policy,
    lines: &[Outcome],
    tenant: u8,
) -> Result<(), AllocError>
    ensures { OnOk result (out.new.items
        ≡ out.old.items ++ tenant_row form policy.now lines.now tenant) }
{
    let count = lines.iter().filter(|one| is_denied_to(tenant, one)).count();
    push_row(out, form, policy.tenant_name(tenant).unwrap_or(""), count)
}

/// Appends how much was denied to each tenant.
fn push_tenants(
    out: &mut Vec<u8>,
    form: Form,
    policy: &Policy,
    lines: &[Outcome],
) -> Result<(), AllocError>
    ensures { OnOk result (out.new.items ≡ out.old.items
        ++ flat_map (tenant_row form policy.now lines.now) (tenants_in policy.now)) }
{
    for tenant in 0..policy.tenants() {
        push_tenant(out, form, policy, lines, tenant)?;
    }
    Ok(())
}

fn before_answers(form: Form) -> &'static str
    ensures { result.now ≡ before_answers form }
{
    match form {
        Form::Text => "\nanswers ",
        Form::Json => "{\"answers\":{\"(all)\":",
    }
}

fn before_denials(form: Form) -> &'static str
    ensures { result.now ≡ before_denials form }
{
    match form {
        Form::Text => "denials ",
        Form::Json => "},\"denials\":{\"(all)\":",
    }
}

fn behind_number(form: Form) -> &'static str
    ensures { result.now ≡ behind_number form }
{
    match form {
        Form::Text => "\n",
        Form::Json => "",
    }
}

fn behind_counts(form: Form) -> &'static str
    ensures { result.now ≡ behind_counts form }
{
    match form {
        Form::Text => "",
        Form::Json => "}}\n",
    }
}

/// Appends how many lines there are, and how many came to each kind.
#[tactic(auto, unfolding(crate::specs::Counts::answers_text))]
fn push_answers(out: &mut Vec<u8>, form: Form, lines: &[Outcome]) -> Result<(), AllocError>
    ensures { OnOk result (out.new.items ≡ out.old.items ++ answers_text form lines.now) }
{
    push_count(out, before_answers(form), lines.len() as u64)?;
    push(out, behind_number(form))?;
    push_kinds(out, form, lines, &KINDS)
}

/// How many lines were denied.
fn denials(lines: &[Outcome]) -> usize
    ensures { result ≡ count_by is_denied lines.now }
{
    lines.iter().filter(|one| is_denied(one)).count()
}

/// How many of them to somebody who is no tenant.
fn denials_to_none(policy: &Policy, lines: &[Outcome]) -> usize
    ensures { result ≡ count_by (is_denied_to_none policy.now) lines.now }
{
    lines
        .iter()
        .filter(|one| is_denied_to_none(policy, one))
        .count()
}

/// Appends how many lines were denied, and how many of them to each tenant.
#[tactic(auto, unfolding(crate::specs::Counts::denials_text))]
fn push_denials(
    out: &mut Vec<u8>,
    form: Form,
    policy: &Policy,
    lines: &[Outcome],
) -> Result<(), AllocError>
    ensures { OnOk result (out.new.items
        ≡ out.old.items ++ denials_text form policy.now lines.now) }
{
    push_count(out, before_denials(form), denials(lines) as u64)?;
    push(out, behind_number(form))?;
    push_tenants(out, form, policy, lines)?;
    push_row(out, form, "(no tenant)", denials_to_none(policy, lines))
}

/// Appends how many lines there are, how many came to each kind, and how much was denied to each
/// tenant.
pub(crate) fn push_counts(
    out: &mut Vec<u8>,
    form: Form,
    policy: &Policy,
    lines: &[Outcome],
) -> Result<(), AllocError>
    ensures { OnOk result (out.new.items ≡ out.old.items ++ counts_text form policy.now lines.now) }
{
    push_answers(out, form, lines)?;
    push_denials(out, form, policy, lines)?;
    push(out, behind_counts(form))
}

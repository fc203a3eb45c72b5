//! Names that lines say and a policy lacks.

ghost use Rattle.std.specs.Prelude.{◌≡◌, ℕ, List, fold, map, not, option_map, OnOk, IfOk};
ghost use Rattle.std.specs.List.{list_any};
ghost use Rattle.hg_labels.specs.Indexes.{texts};
ghost use Rattle.hg_trace.specs.Stored.{line_in, lines_in};
ghost use Rattle.hg_strangers.specs.Mentions.{is_among, lacked, lacked_of, lines_that_say};
ghost use Rattle.hg_strangers.specs.Mentions.{noted, noted_in, option_list, says_another, seen};

use crate::mention::{Mention, knows, said};
use hg_hints::Kind;
use hg_policy::Policy;
use hg_trace::{StoredLine, Trace};
use std::alloc::{AllocError, Global};

/// How many names are told.
pub(crate) const MOST: usize = 64;

/// Whether a name is among these.
fn is_among(mentions: &[Mention<'_>], mention: &Mention<'_>) -> bool
    ensures { result ≡ is_among (map seen mentions.now) (seen mention.now) }
{
    mentions.iter().any(|other| mention.is_same(other))
}

/// Notes a name, unless it is there, or there are enough.
fn note<'a>(mentions: &mut Vec<Mention<'a>>, mention: Mention<'a>) -> Result<(), AllocError>
    ensures { OnOk result (map seen mentions.new.items
        ≡ noted (map seen mentions.old.items) (seen mention.entry)) }
{
    if is_among(mentions, &mention) || mentions.len() >= MOST {
        return Ok(());
    }
    Ok(mentions.push(mention)?)
}

/// The name that a line says of a kind, if it says one that the policy lacks.
fn lacked_name<'a>(
    policy: &Policy,
    names: &[&'a str],
    line: &StoredLine,
    kind: Kind,
) -> Option<Mention<'a>>
    ensures { (labels : List (List ℕ)) → option_list (option_map seen result)
        ≡ lacked_of policy.now kind (line_in (texts names.now) labels line.now) }
{
    let name = said(names, kind, line.command)?;
    if knows(policy, kind, name) {
        return None;
    }
    Some(Mention {
        kind,
        name,
        line: line.number,
    })
}

/// Notes what a line says of a kind and the policy lacks.
fn note_kind<'a>(
    mentions: &mut Vec<Mention<'a>>,
    policy: &Policy,
    names: &[&'a str],
    line: &StoredLine,
    kind: Kind,
) -> Result<(), AllocError>
    ensures { OnOk result ((labels : List (List ℕ)) → map seen mentions.new.items
        ≡ fold noted (map seen mentions.old.items)
        (lacked_of policy.now kind (line_in (texts names.now) labels line.now))) }
{
    match lacked_name(policy, names, line, kind) {
        Some(mention) => note(mentions, mention),
        None => Ok(()),
    }
}

/// Notes what a line says and the policy lacks.
fn note_line<'a>(
    mentions: &mut Vec<Mention<'a>>,
    policy: &Policy,
    names: &[&'a str],
    line: &StoredLine,
) -> Result<(), AllocError>
    ensures { OnOk result ((labels : List (List ℕ)) → map seen mentions.new.items
        ≡ noted_in policy.now (map seen mentions.old.items)
        (line_in (texts names.now) labels line.now)) }
{
    note_kind(mentions, policy, names, line, Kind::Tenant)?;
    note_kind(mentions, policy, names, line, Kind::Arena)
}

/// The first names, as many as are told, that lines say and the policy lacks, each where it is said
/// first.
pub(crate) fn lacked<'a>(
    alloc: Global,
    policy: &Policy,
    trace: &Trace<'a>,
) -> Result<Vec<Mention<'a>>, AllocError>
    ensures { IfOk result (λ mentions. map seen mentions.items
        ≡ lacked policy.now (lines_in trace.now)) }
{
    let mut mentions = Vec::new(alloc);
    for line in trace.stored() {
        note_line(&mut mentions, policy, trace.names(), line)?;
    }
    Ok(mentions)
}

/// Whether a line says another name of a kind that the policy lacks.
fn says_another_of(
    policy: &Policy,
    mentions: &[Mention<'_>],
    names: &[&str],
    line: &StoredLine,
    kind: Kind,
) -> bool
    ensures { (labels : List (List ℕ)) → result
        ≡ list_any (λ m. not (is_among (map seen mentions.now) m))
        (lacked_of policy.now kind (line_in (texts names.now) labels line.now)) }
{
    match lacked_name(policy, names, line, kind) {
        Some(mention) => !is_among(mentions, &mention),
        None => false,
    }
}

/// Whether a line says another name that the policy lacks.
fn says_another(
    policy: &Policy,
    mentions: &[Mention<'_>],
    names: &[&str],
    line: &StoredLine,
) -> bool
    ensures { (labels : List (List ℕ)) → result
        ≡ says_another policy.now (map seen mentions.now)
        (line_in (texts names.now) labels line.now) }
{
    says_another_of(policy, mentions, names, line, Kind::Tenant)
        || says_another_of(policy, mentions, names, line, Kind::Arena)
}

/// Whether some line says another name that the policy lacks.
pub(crate) fn lacks_another(policy: &Policy, trace: &Trace<'_>, mentions: &[Mention<'_>]) -> bool
    ensures { result
        ≡ list_any (says_another policy.now (map seen mentions.now)) (lines_in trace.now) }
{
    let names = trace.names();
    trace
        .stored()
        .iter()
        .any(|line| says_another(policy, mentions, names, line))
}

/// How many lines say a name.
pub(crate) fn lines_that_say(trace: &Trace<'_>, mention: &Mention<'_>) -> usize
    ensures { result ≡ lines_that_say (lines_in trace.now) (seen mention.now) }
{
    let names = trace.names();
    trace
        .stored()
        .iter()
        .filter(|line| mention.is_said(names, line))
        .count()
}

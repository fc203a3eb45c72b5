//! The lines of a trace, each with its answer and the reason for that.

ghost use Rattle.std.specs.Prelude.{◌≡◌, ◌+◌, ◌≤◌, ◌<◌, ℕ, List, [], All, true, map, IfOk};
ghost use Rattle.std.specs.Prelude.{OnOk, option_map, vec_len, vec_capacity, if◌then◌else◌};
ghost use Rattle.hg_labels.specs.Indexes.{texts};
ghost use Rattle.hg_machine.specs.Policy.{Policy};
ghost use Rattle.hg_trace.specs.Labels.{label_count};
ghost use Rattle.hg_trace.specs.Stored.{command_in, line_in, lines_in, IsNumbered};
ghost use Rattle.hg_replay.specs.KnownNames.{meanings};
ghost use Rattle.hg_replay.specs.Replays.{Answered, Progress, starting};
ghost use Rattle.hg_replay.specs.StoredLabels.{binds};
ghost use Rattle.hg_replay.specs.Tellings.{IsTold};
ghost use Rattle.hg_reasons.specs.Explaining.{beginning, story_after, text_of, texts_of};
ghost use Rattle.hg_reasons.specs.Explaining.{told_text, words_of, Explains};
ghost use Rattle.hg_reasons.specs.Wording.{left_after, said_by, words_text};

use crate::counts::push_counts;
use crate::form::{Form, push_told};
use crate::past::Past;
use crate::reason::{Reason, reason_of};
use crate::wording::Said;
use hg_core::Core;
use hg_policy::Policy;
use hg_replay::{Ready, Told};
use hg_trace::{StoredLine, Trace};
use std::alloc::{AllocError, Global};
use std::marker::Model;

/// How many reasons of a name that the policy lacks may have one that is like it.
const LIKE: u32 = 64;

/// What was told of the lines so far, and what they have done.
#[derive(Drop)]
pub(crate) struct Story {
    form: Form,
    /// How many reasons of a name that the policy lacks may still have one that is like it: to look for
    /// that takes as long as the policy has names.
    left: u32,
    past: Past,
    text: Vec<u8>,
}

impl Model for Story {
    ghost use Rattle.hg_reasons.specs.Explaining as explaining;

    ghost Value = { explaining.Story };

    ghost view = { λ story. record {
      form = story.form;
      left = story.left;
      past = story.past;
      text = story.text.items;
    } };
}

/// The lines of a trace's bytes, without their ends.
pub(crate) fn texts_of(alloc: Global, bytes: &[u8]) -> Result<Vec<&[u8]>, AllocError>
    ensures { IfOk result (λ texts. map (λ text. text.now) texts.items ≡ texts_of bytes.now) }
{
    bytes.split(|b| *b == b'\n').collect(alloc)
}

/// The text of the line with this number, from 1.
fn text_of<'a>(texts: &[&'a [u8]], number: u32) -> &'a [u8]
    ensures { result.now ≡ text_of (map (λ text. text.now) texts.now) number }
{
    match texts.get((number as usize).saturating_sub(1)) {
        Some(text) => *text,
        None => &[],
    }
}

/// A reason for what a line came to, in words, with a name that is like one that the policy lacks where
/// that is told.
fn in_words(
    alloc: Global,
    policy: &Policy,
    names: &[&str],
    line: &StoredLine,
    tells: bool,
    reason: Reason,
) -> Result<Vec<u8>, AllocError>
    ensures { IfOk result (λ words. (labels : List (List ℕ)) → words.items
        ≡ words_text (said_by policy.now line.now.worker
        (command_in (texts names.now) labels line.now.command)) tells reason) }
{
    let mut words = Vec::new(alloc);
    Said::by(policy, names, line).push_words(&mut words, alloc, tells, reason)?;
    Ok(words)
}

/// The same of a line that has a reason or none.
fn words_of(
    alloc: Global,
    policy: &Policy,
    names: &[&str],
    line: &StoredLine,
    tells: bool,
    reason: Option<Reason>,
) -> Result<Option<Vec<u8>>, AllocError>
    ensures { IfOk result (λ words. (labels : List (List ℕ))
        → option_map (λ w. w.items) words ≡ words_of policy.now
        (line_in (texts names.now) labels line.now) tells reason) }
{
    match reason {
        None => Ok(None),
        Some(reason) => {
            let words = in_words(alloc, policy, names, line, tells, reason)?;
            Ok(Some(words))
        }
    }
}

/// How many such reasons may still have such a name after a line with this one, if it has one.
fn left_after(left: u32, reason: Option<Reason>) -> u32
    ensures { result ≡ left_after left reason }
{
    match reason {
        Some(Reason::NoTenant | Reason::NoArena) => left.saturating_sub(1),
        _ => left,
    }
}

impl Story {
    /// No line was told yet.
    pub(crate) fn new(alloc: Global, form: Form, policy: &Policy) -> Result<Story, AllocError>
        ensures { IfOk result (λ story. story ≡ beginning form policy.now) }
    {
        let past = Past::new(alloc, policy)?;
        Ok(Story {
            form,
            left: LIKE,
            past,
            text: Vec::new(alloc),
        })
    }

    /// What was told.
    pub(crate) fn text(&self) -> &[u8]
        ensures { result.now ≡ self.now.text }
    {
        &self.text
    }

    /// Tells how many lines came to what.
    pub(crate) fn end(&mut self, policy: &Policy) -> Result<(), AllocError>
        ensures { OnOk result (self.new.text ≡ told_text policy.now self.old) }
    {
        push_counts(&mut self.text, self.form, policy, self.past.lines())
    }

    /// Tells a line of this text, which left this core and printed this reply.
    fn tell(
        &mut self,
        alloc: Global,
        core: &Core,
        names: &[&str],
        line: &StoredLine,
        told: Told,
        text: &[u8],
        reply: &[u8],
    ) -> Result<(), AllocError>
        ensures { OnOk result ((labels : List (List ℕ)) → self.new ≡ story_after
            self.old core.now.state
            (line_in (texts names.now) labels line.now) told text.now reply.now) }
    {
        let reason = reason_of(core, &self.past, line, told);
        let tells = self.left > 0;
        let words = words_of(alloc, core.policy(), names, line, tells, reason)?;
        push_told(
            &mut self.text,
            self.form,
            line.number,
            text,
            told,
            reply,
            words,
        )?;
        self.left = left_after(self.left, reason);
        self.past.note(line, told)
    }
}

/// What the next line comes to, and what a replay prints for it.
fn told_by(
    alloc: Global,
    ready: &mut Ready,
    line: &StoredLine,
) -> Result<(Told, Vec<u8>), AllocError>
    requires worker { line.now.worker < ready.old.core.state.policy.workers }
    requires room { binds line.now.command ≡ true
        → vec_len ready.old.handles < vec_capacity ready.old.handles }
    ensures told { IfOk result (λ told. (names labels : List (List ℕ))
        → ready.old.meant.items ≡ meanings ready.old.core.state.policy names
        → IsNumbered names labels line.now.command
        → Answered (record { kept = ready.old.core; handles = ready.old.handles.items })
        (line_in names labels line.now)
        (record { kept = ready.new.core; handles = ready.new.handles.items }) told.1.items
        × IsTold (record { kept = ready.old.core; handles = ready.old.handles.items })
        (line_in names labels line.now) told.0 ready.new.core) }
    ensures meant { ready.new.meant ≡ ready.old.meant }
    ensures count { vec_len ready.new.handles
        ≡ vec_len ready.old.handles + (if binds line.now.command then 1 else 0) }
    ensures room { vec_capacity ready.new.handles ≡ vec_capacity ready.old.handles }
{
    let mut reply = Vec::new(alloc);
    match ready.tell(line, &mut reply) {
        Ok(told) => Ok((told, reply)),
        Err(_) => Err(AllocError),
    }
}

/// Answers the lines one after another, and tells each with its answer.
pub(crate) fn explain(
    alloc: Global,
    ready: &mut Ready,
    trace: &Trace,
    texts: &[&[u8]],
    story: &mut Story,
) -> Result<(), AllocError>
    requires workers { All (λ line. line.worker < ready.old.core.state.policy.workers)
        (lines_in trace.now) }
    requires meant { ready.old.meant.items
        ≡ meanings ready.old.core.state.policy trace.now.names }
    requires none { ready.old.handles.items ≡ [] }
    requires count { vec_len ready.old.handles ≡ 0 }
    requires room { label_count (lines_in trace.now) ≤ vec_capacity ready.old.handles }
    ensures policy { OnOk result (ready.new.core.state.policy ≡ ready.old.core.state.policy) }
    ensures told { OnOk result ((end : Progress)
        × Explains (map (λ text. text.now) texts.now) (starting ready.old.core)
        story.old (lines_in trace.now) end story.new) }
{
    for line in trace.stored() {
        let (told, reply) = told_by(alloc, ready, line)?;
        let text = text_of(texts, line.number);
        story.tell(alloc, &ready.core, trace.names(), line, told, text, &reply)?;
    }
    Ok(())
}

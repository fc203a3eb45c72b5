//! What the lines so far have done with places and labels.

ghost use Rattle.std.specs.Prelude.{◌≡◌, ℕ, List, IfOk, OnOk, slice_get, slice_set, slice_index_or};
ghost use Rattle.hg_place.specs.Places.{number_of};
ghost use Rattle.hg_trace.specs.Stored.{command_in};
ghost use Rattle.hg_reasons.specs.Past.{freed_by, given, is_freed, labels_after, life_at};
ghost use Rattle.hg_reasons.specs.Past.{lives_after, lives_of, no_life, no_past, past_after};

use crate::counts::{Outcome, counted};
use hg_machine::{Answer, Event};
use hg_place::{Place, SEGMENT_PLACES};
use hg_policy::Policy;
use hg_replay::Told;
use hg_trace::{StoredCommand, StoredLine};
use std::alloc::{AllocError, Global};
use std::marker::Model;

/// Whose block a place had last, and the line that freed it, 0 where none did.
#[derive(Clone, Copy)]
pub(crate) struct Life {
    pub owner: u8,
    pub freed: u32,
}

/// The line of a label, and what its allocation was answered.
#[derive(Clone, Copy)]
pub(crate) struct Bound {
    pub line: u32,
    pub answer: Answer,
}

/// A place that no block was given out at.
const NO_LIFE: Life = Life {
    owner: 255,
    freed: 0,
};

/// What the lines so far have done: by place whose block it had last, by label its line, and what each
/// line came to, as it is counted.
#[derive(Drop)]
pub(crate) struct Past {
    lives: Vec<Life>,
    labels: Vec<Bound>,
    lines: Vec<Outcome>,
}

impl Model for Past {
    ghost use Rattle.hg_reasons.specs.Past as past;

    ghost Value = { past.Past };

    ghost view = { λ p. record {
      lives = p.lives.items;
      labels = p.labels.items;
      lines = p.lines.items;
    } };
}

/// Notes the life of a place, where there is such a place.
fn set(lives: &mut [Life], place: Place, life: Life)
    ensures { lives.new ≡ slice_set lives.old (number_of place) life }
{
    let number = place.number();
    if number < lives.len() {
        lives[number] = life;
    }
}

/// What is known of a place.
fn life_in(lives: &[Life], place: Place) -> Life
    ensures { result ≡ slice_index_or lives.now (number_of place) no_life }
{
    match lives.get(place.number()) {
        Some(life) => *life,
        None => NO_LIFE,
    }
}

/// Notes that a tenant is given a block, where this answer says so.
fn note_given(lives: &mut [Life], tenant: u8, answer: Answer)
    ensures { lives.new ≡ given lives.old tenant answer }
{
    if let Answer::Block(handle) = answer {
        set(
            lives,
            handle.place,
            Life {
                owner: tenant,
                freed: 0,
            },
        );
    }
}

/// Whether a free was served by this answer.
fn is_freed(answer: Answer) -> bool
    ensures { result ≡ is_freed answer }
{
    matches!(answer, Answer::Done | Answer::Parted)
}

/// Notes that the line of a number frees the block of a place.
fn note_freed(lives: &mut [Life], place: Place, line: u32)
    ensures { lives.new ≡ freed_by lives.old (number_of place) line }
{
    let life = life_in(lives, place);
    set(
        lives,
        place,
        Life {
            owner: life.owner,
            freed: line,
        },
    );
}

/// Notes the lives after the event of a line of this number was answered so.
fn note_event(lives: &mut [Life], line: u32, event: Event, answer: Answer)
    ensures { lives.new ≡ lives_of lives.old line event answer }
{
    match event {
        Event::Alloc { actor, .. } => note_given(lives, actor.0, answer),
        Event::Free { handle, .. } if is_freed(answer) => note_freed(lives, handle.place, line),
        _ => {}
    }
}

/// Notes the lives after a line of this number came to this.
fn note_lives(lives: &mut [Life], line: u32, told: Told)
    ensures { lives.new ≡ lives_after lives.old line told }
{
    if let Told::One(event, answer) = told {
        note_event(lives, line, event, answer);
    }
}

/// Notes what a line that gives a label was answered.
fn note_label(
    labels: &mut Vec<Bound>,
    line: u32,
    command: StoredCommand,
    told: Told,
) -> Result<(), AllocError>
    ensures { OnOk result ((names labels_given : List (List ℕ)) → labels.new.items
        ≡ labels_after labels.old.items line (command_in names labels_given command) told) }
{
    if !matches!(command, StoredCommand::Alloc { label: Some(_), .. }) {
        return Ok(());
    }
    if let Told::One(_, answer) = told {
        labels.push(Bound { line, answer })?;
    }
    Ok(())
}

impl Past {
    /// Nothing was done yet.
    pub(crate) fn new(alloc: Global, policy: &Policy) -> Result<Past, AllocError>
        ensures { IfOk result (λ past. past ≡ no_past policy.now) }
    {
        let places = usize::from(policy.segments()) * SEGMENT_PLACES;
        let lives = vec![in alloc; NO_LIFE; places]?;
        Ok(Past {
            lives,
            labels: Vec::new(alloc),
            lines: Vec::new(alloc),
        })
    }

    /// What is known of a place.
    pub(crate) fn life(&self, place: Place) -> Life
        ensures { result ≡ life_at self.now (number_of place) }
    {
        life_in(&self.lives, place)
    }

    /// What is known of a label.
    pub(crate) fn label(&self, label: u32) -> Option<Bound>
        ensures { result ≡ slice_get self.now.labels label }
    {
        self.labels.get(label as usize).copied()
    }

    /// What each line came to.
    pub(crate) fn lines(&self) -> &[Outcome]
        ensures { result.now ≡ self.now.lines }
    {
        &self.lines
    }

    /// Notes what a line came to.
    pub(crate) fn note(&mut self, line: &StoredLine, told: Told) -> Result<(), AllocError>
        ensures { OnOk result ((names labels : List (List ℕ)) → self.new
            ≡ past_after self.old line.now.number (command_in names labels line.now.command) told) }
    {
        note_lives(&mut self.lives, line.number, told);
        note_label(&mut self.labels, line.number, line.command, told)?;
        Ok(self.lines.push(counted(told))?)
    }
}

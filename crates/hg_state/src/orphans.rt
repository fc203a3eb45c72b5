//! Which segments are orphans, by what events were answered.

ghost use Rattle.std.specs.Prelude.{◌≡◌, IfErr, OnOk};
ghost use Rattle.hg_state.specs.Orphans.{given_up, orphans_after, orphans_of, taken};

use hg_machine::{Answer, Event};
use hg_replay::Told;
use std::alloc::AllocError;

/// Notes a segment that is given up, where this answer says so.
fn note_given_up(orphans: &mut Vec<u8>, segment: u8, answer: Answer) -> Result<(), AllocError>
    ensures ok { OnOk result (orphans.new.items ≡ given_up orphans.old.items segment answer) }
    ensures err { IfErr result (λ _. orphans.new.items ≡ orphans.old.items) }
{
    if let Answer::Done = answer {
        orphans.push(segment)?;
    }
    Ok(())
}

/// Notes a segment that is taken, where this answer says so.
fn note_taken(orphans: &mut Vec<u8>, answer: Answer)
    ensures { orphans.new.items ≡ taken orphans.old.items answer }
{
    if let Answer::Refilled(segment) = answer {
        orphans.retain(|other| *other != segment);
    }
}

/// Notes what an event was answered: of a core's orphans before it this makes those after it (law
/// `steps_tell_orphans`), oldest first. Its one error is want of memory, which leaves them as they were.
pub fn note_orphans(orphans: &mut Vec<u8>, event: Event, answer: Answer) -> Result<(), AllocError>
    ensures ok { OnOk result (orphans.new.items ≡ orphans_of orphans.old.items event answer) }
    ensures err { IfErr result (λ _. orphans.new.items ≡ orphans.old.items) }
{
    match event {
        Event::Abandon { segment } => note_given_up(orphans, segment, answer),
        Event::Refill { .. } => {
            note_taken(orphans, answer);
            Ok(())
        }
        _ => Ok(()),
    }
}

/// Notes what a line came to.
pub(crate) fn note(orphans: &mut Vec<u8>, told: Told) -> Result<(), AllocError>
    ensures { OnOk result (orphans.new.items ≡ orphans_after orphans.old.items told) }
{
    match told {
        Told::One(event, answer) => note_orphans(orphans, event, answer),
        _ => Ok(()),
    }
}

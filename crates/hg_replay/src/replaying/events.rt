//! The events that lines mean.

ghost use Rattle.std.specs.Prelude.{◌≡◌, ℕ, List, true};
ghost use Rattle.hg_machine.specs.Policy.{Policy};
ghost use Rattle.hg_replay.specs.Events.{actor_of, handle_named, meaning_of, of_block};
ghost use Rattle.hg_replay.specs.KnownNames.{meant_of, meanings};
ghost use Rattle.hg_replay.specs.StoredLabels.{binds};
ghost use Rattle.hg_trace.specs.Stored.{block_in, command_in, named, IsNumber, IsNumbered};

use crate::replaying::known::{Meant, NOBODY};
use hg_machine::Event;
use hg_place::{Actor, Handle};
use hg_trace::{StoredBlock, StoredCommand};

/// What a command means where a replay stands.
#[derive(Clone, Copy, Debug, PartialEq, Eq)]
pub(crate) enum Meaning {
    One(Event),
    /// A Look at each place of the segments that the worker holds, rising.
    Listing(Actor),
    /// No event, since the allocation of the block's label wasn't served.
    Unbound,
}

/// What the name at a number means, where this is what the names mean.
pub(crate) fn meant_at(meant: &[Meant], number: u32) -> Meant
    ensures { (policy : Policy) (names : List (List ℕ)) → meant.now ≡ meanings policy names
        → IsNumber names number → result ≡ meant_of policy (named names number) }
{
    match meant.get(number as usize) {
        Some(meant) => *meant,
        None => Meant {
            tenant: NOBODY,
            arena: NOBODY,
        },
    }
}

/// Who has the name at a number.
pub(crate) fn actor_at(meant: &[Meant], number: u32) -> Actor
    ensures { (policy : Policy) (names : List (List ℕ)) → meant.now ≡ meanings policy names
        → IsNumber names number → result ≡ actor_of policy (named names number) }
{
    Actor(meant_at(meant, number).tenant)
}

/// The handle of a block, where these are the handles that the labels stand for.
pub(crate) fn handle_named(handles: &[Option<Handle>], block: StoredBlock) -> Option<Handle>
    ensures { result ≡ handle_named handles.now (block_in block) }
{
    match block {
        StoredBlock::Handle(handle) => Some(handle),
        StoredBlock::Label(label) => match handles.get(label as usize) {
            Some(handle) => *handle,
            None => None,
        },
    }
}

/// A free of a block, if there is one.
fn free_meant(actor: Actor, block: Option<Handle>) -> Meaning
    ensures { result ≡ of_block block (Event.Free actor) }
{
    match block {
        Some(handle) => Meaning::One(Event::Free { actor, handle }),
        None => Meaning::Unbound,
    }
}

/// A read of a block, if there is one.
fn read_meant(actor: Actor, block: Option<Handle>, index: u32) -> Meaning
    ensures { result ≡ of_block block (λ handle. Event.Read actor handle index) }
{
    match block {
        Some(handle) => Meaning::One(Event::Read {
            actor,
            handle,
            index,
        }),
        None => Meaning::Unbound,
    }
}

/// A write to a block, if there is one.
fn write_meant(actor: Actor, block: Option<Handle>, index: u32, value: u64) -> Meaning
    ensures { result ≡ of_block block (λ handle. Event.Write actor handle index value) }
{
    match block {
        Some(handle) => Meaning::One(Event::Write {
            actor,
            handle,
            index,
            value,
        }),
        None => Meaning::Unbound,
    }
}

/// What a command means under a policy, where this is what the names mean under it, and these are
/// the handles that the labels stand for.
pub(crate) fn meaning_of(
    meant: &[Meant],
    handles: &[Option<Handle>],
    command: StoredCommand,
) -> Meaning
    ensures meaning { (policy : Policy) (names labels : List (List ℕ))
        → meant.now ≡ meanings policy names → IsNumbered names labels command
        → result ≡ meaning_of policy handles.now (command_in names labels command) }
    ensures labelled { binds command ≡ true → (event : Event) × (result ≡ Meaning.One event) }
{
    match command {
        StoredCommand::Alloc {
            actor,
            arena,
            bytes,
            label: _,
        } => Meaning::One(Event::Alloc {
            actor: actor_at(meant, actor),
            arena: meant_at(meant, arena).arena,
            bytes,
        }),
        StoredCommand::Free { actor, block } => {
            free_meant(actor_at(meant, actor), handle_named(handles, block))
        }
        StoredCommand::Deliver => Meaning::One(Event::Deliver),
        StoredCommand::Take { segment } => Meaning::One(Event::Take { segment }),
        StoredCommand::Collect => Meaning::One(Event::Collect),
        StoredCommand::Read {
            actor,
            block,
            index,
        } => read_meant(actor_at(meant, actor), handle_named(handles, block), index),
        StoredCommand::Write {
            actor,
            block,
            index,
            value,
        } => write_meant(
            actor_at(meant, actor),
            handle_named(handles, block),
            index,
            value,
        ),
        StoredCommand::Look { actor, place } => Meaning::One(Event::Look {
            actor: actor_at(meant, actor),
            place,
        }),
        StoredCommand::List { actor } => Meaning::Listing(actor_at(meant, actor)),
        StoredCommand::Abandon { segment } => Meaning::One(Event::Abandon { segment }),
        StoredCommand::Refill { arena } => Meaning::One(Event::Refill {
            arena: meant_at(meant, arena).arena,
        }),
    }
}

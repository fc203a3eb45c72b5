//! Commands of a trace as events.

use hg_machine::Event;
use hg_place::{Actor, Handle};
use hg_policy::Policy;
use hg_trace::{BlockName, Command, Name};

/// The number of a tenant or an arena that the policy lacks.
const NOBODY: u8 = 255;

fn actor_of(policy: &Policy, name: Name<'_>) -> Actor {
    Actor(policy.tenant(name.as_str()).unwrap_or(NOBODY))
}

fn arena_of(policy: &Policy, name: Name<'_>) -> u8 {
    policy.arena(name.as_str()).unwrap_or(NOBODY)
}

/// The handle of a block: a log has no labels.
fn handle_of(block: BlockName) -> Option<Handle> {
    match block {
        BlockName::Handle(handle) => Some(handle),
        BlockName::Label(_) => None,
    }
}

/// The event of a command. `None` where it has a label, or lists: that is many events.
pub(crate) fn event_of(policy: &Policy, command: Command<'_>) -> Option<Event> {
    match command {
        Command::Alloc {
            actor,
            arena,
            bytes,
            label: None,
        } => Some(Event::Alloc {
            actor: actor_of(policy, actor),
            arena: arena_of(policy, arena),
            bytes,
        }),
        Command::Free { actor, block } => Some(Event::Free {
            actor: actor_of(policy, actor),
            handle: handle_of(block)?,
        }),
        Command::Deliver => Some(Event::Deliver),
        Command::Take { segment } => Some(Event::Take { segment }),
        Command::Collect => Some(Event::Collect),
        Command::Read {
            actor,
            block,
            index,
        } => Some(Event::Read {
            actor: actor_of(policy, actor),
            handle: handle_of(block)?,
            index,
        }),
        Command::Write {
            actor,
            block,
            index,
            value,
        } => Some(Event::Write {
            actor: actor_of(policy, actor),
            handle: handle_of(block)?,
            index,
            value,
        }),
        Command::Look { actor, place } => Some(Event::Look {
            actor: actor_of(policy, actor),
            place,
        }),
        Command::Abandon { segment } => Some(Event::Abandon { segment }),
        Command::Refill { arena } => Some(Event::Refill {
            arena: arena_of(policy, arena),
        }),
        _ => None,
    }
}

//! Names of tenants and arenas.

ghost use Rattle.std.specs.Prelude.{◌≡◌, ℕ, List};
ghost use Rattle.hg_labels.specs.Indexes.{texts};
ghost use Rattle.hg_trace.specs.Stored.{command_in, named};
ghost use Rattle.hg_reasons.specs.Wording.{actor_said, arena_said, arena_text, tenant_text};

use hg_policy::Policy;
use hg_trace::StoredCommand;

/// The name that a number stands for.
fn named<'a>(names: &[&'a str], number: u32) -> &'a str
    ensures { result.now ≡ named (texts names.now) number }
{
    match names.get(number as usize) {
        Some(name) => *name,
        None => "",
    }
}

/// The name of who asks, as a command says it.
pub(super) fn actor_said<'a>(names: &[&'a str], command: StoredCommand) -> &'a str
    ensures { (labels : List (List ℕ))
        → result.now ≡ actor_said (command_in (texts names.now) labels command) }
{
    match command {
        StoredCommand::Alloc { actor, .. } => named(names, actor),
        StoredCommand::Free { actor, .. } => named(names, actor),
        StoredCommand::Read { actor, .. } => named(names, actor),
        StoredCommand::Write { actor, .. } => named(names, actor),
        StoredCommand::Look { actor, .. } => named(names, actor),
        StoredCommand::List { actor } => named(names, actor),
        _ => "",
    }
}

/// The name of the arena, as a command says it.
pub(super) fn arena_said<'a>(names: &[&'a str], command: StoredCommand) -> &'a str
    ensures { (labels : List (List ℕ))
        → result.now ≡ arena_said (command_in (texts names.now) labels command) }
{
    match command {
        StoredCommand::Alloc { arena, .. } => named(names, arena),
        StoredCommand::Refill { arena } => named(names, arena),
        _ => "",
    }
}

/// The name of a tenant.
pub(super) fn tenant_text(policy: &Policy, tenant: u8) -> &str
    ensures { result.now ≡ tenant_text policy.now tenant }
{
    match policy.tenant_name(tenant) {
        Some(name) => name,
        None => "",
    }
}

/// The name of an arena.
pub(super) fn arena_text(policy: &Policy, arena: u8) -> &str
    ensures { result.now ≡ arena_text policy.now arena }
{
    match policy.arena_name(arena) {
        Some(name) => name,
        None => "",
    }
}

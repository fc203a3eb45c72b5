//! Names that the lines of a trace say, and whether a policy knows them.

ghost use Rattle.std.specs.Prelude.{◌≡◌, ◌&&◌, ℕ, List, option_map};
ghost use Rattle.std.specs.Str.{bytes_eq};
ghost use Rattle.hg_labels.specs.Indexes.{texts};
ghost use Rattle.hg_trace.specs.Stored.{command_in, line_in, named};
ghost use Rattle.hg_strangers.specs.Mentions.{actor_said, arena_said, is_same, knows, said, says};
ghost use Rattle.hg_strangers.specs.Mentions.{seen};

use hg_hints::Kind;
use hg_policy::Policy;
use hg_trace::{StoredCommand, StoredLine};

/// A name that a line says, by the number of the line.
#[derive(Drop)]
pub(crate) struct Mention<'a> {
    pub kind: Kind,
    pub name: &'a str,
    pub line: u32,
}

impl Mention<'_> {
    /// Whether another mention is of the same name, as the same.
    pub(crate) fn is_same(&self, other: &Mention<'_>) -> bool
        ensures { result ≡ is_same (seen self.now) (seen other.now) }
    {
        self.kind == other.kind && self.name == other.name
    }

    /// Whether a line says the name, as the same.
    pub(crate) fn is_said(&self, names: &[&str], line: &StoredLine) -> bool
        ensures { (labels : List (List ℕ))
            → result ≡ says (seen self.now) (line_in (texts names.now) labels line.now) }
    {
        match said(names, self.kind, line.command) {
            Some(name) => name == self.name,
            None => false,
        }
    }
}

/// The name that a number stands for.
fn named<'a>(names: &[&'a str], number: u32) -> &'a str
    ensures { result.now ≡ named (texts names.now) number }
{
    match names.get(number as usize) {
        Some(name) => *name,
        None => "",
    }
}

/// The name of who asks, as a command says it, if it does.
fn actor_said<'a>(names: &[&'a str], command: StoredCommand) -> Option<&'a str>
    ensures { (labels : List (List ℕ)) → option_map (λ name. name.now) result
        ≡ actor_said (command_in (texts names.now) labels command) }
{
    match command {
        StoredCommand::Alloc { actor, .. } => Some(named(names, actor)),
        StoredCommand::Free { actor, .. } => Some(named(names, actor)),
        StoredCommand::Read { actor, .. } => Some(named(names, actor)),
        StoredCommand::Write { actor, .. } => Some(named(names, actor)),
        StoredCommand::Look { actor, .. } => Some(named(names, actor)),
        StoredCommand::List { actor } => Some(named(names, actor)),
        _ => None,
    }
}

/// The name of the arena, as a command says it, if it does.
fn arena_said<'a>(names: &[&'a str], command: StoredCommand) -> Option<&'a str>
    ensures { (labels : List (List ℕ)) → option_map (λ name. name.now) result
        ≡ arena_said (command_in (texts names.now) labels command) }
{
    match command {
        StoredCommand::Alloc { arena, .. } => Some(named(names, arena)),
        StoredCommand::Refill { arena } => Some(named(names, arena)),
        _ => None,
    }
}

/// The name that a command says of a kind, if it does.
pub(crate) fn said<'a>(names: &[&'a str], kind: Kind, command: StoredCommand) -> Option<&'a str>
    ensures { (labels : List (List ℕ)) → option_map (λ name. name.now) result
        ≡ said kind (command_in (texts names.now) labels command) }
{
    match kind {
        Kind::Tenant => actor_said(names, command),
        Kind::Arena => arena_said(names, command),
    }
}

/// Whether the policy has a tenant, or an arena, of a name.
pub(crate) fn knows(policy: &Policy, kind: Kind, name: &str) -> bool
    ensures { result ≡ knows policy.now kind name.now }
{
    match kind {
        Kind::Tenant => policy.tenant(name).is_some(),
        Kind::Arena => policy.arena(name).is_some(),
    }
}

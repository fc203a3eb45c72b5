//! Why an event isn't served.

ghost use Rattle.std.specs.Prelude.{◌≡◌, ◌≤◌, ◌&&◌, ◌∷◌, ℕ, List, [], count_by};
ghost use Rattle.hg_machine.specs.Holders.{holds, is_in_arena};
ghost use Rattle.hg_trace.specs.Stored.{block_in, command_in};
ghost use Rattle.hg_reasons.specs.Reasons.{asked, elsewhere_reason, event_reason, held_in};
ghost use Rattle.hg_reasons.specs.Reasons.{held_reason, holder_reason, label_reason, large_reason};
ghost use Rattle.hg_reasons.specs.Reasons.{left_reason, range_reason, reason_of, room_reason};
ghost use Rattle.hg_reasons.specs.Reasons.{unbound_reason};

mod denials;

use crate::past::{Bound, Past};
use denials::{asked_by, block_bytes, denial_reason};
use hg_core::Core;
use hg_machine::{Answer, Event};
use hg_place::{Place, Right};
use hg_policy::Policy;
use hg_replay::Told;
use hg_trace::{StoredBlock, StoredCommand, StoredLine};

/// Who asks for which right on the block of which place.
#[derive(Clone, Copy)]
pub(crate) struct Asked {
    pub actor: u8,
    pub right: Right,
    pub place: Place,
}

/// What a tenant has of its limit with the worker, what it asks for, and the block for that, in
/// bytes.
#[derive(Clone, Copy)]
pub(crate) struct Charged {
    pub tenant: u8,
    pub charge: u64,
    pub limit: u64,
    pub bytes: u64,
    pub block: u64,
}

/// A right of an actor on an owner's blocks.
#[derive(Clone, Copy)]
pub(crate) struct Between {
    pub owner: u8,
    pub actor: u8,
    pub right: Right,
}

/// How many segments of an arena the worker holds, and the block for which none has room, in bytes.
#[derive(Clone, Copy)]
pub(crate) struct Held {
    pub arena: u8,
    pub segments: u32,
    pub block: u64,
}

/// Why an event isn't served. Tenants, arenas, segments and workers go by number, lines by theirs.
#[derive(Clone, Copy)]
pub(crate) enum Reason {
    /// The policy has no tenant of the name that the line says.
    NoTenant,
    /// It has no arena of the name that the line says.
    NoArena,
    NoSegment(u8),
    /// Whom this arena admits.
    Admits(u8),
    Limit(Charged),
    /// Which generation the place is in, 0 where no block was given out there.
    Generation(u32),
    /// The line that freed the block.
    Freed(u32),
    /// The owner denies the actor the right.
    Denies(Between),
    /// The owner lets the actor have other rights than this one.
    Lets(Between),
    /// Who holds a segment.
    Holder { segment: u8, worker: Option<u8> },
    /// More bytes than a block has.
    TooLarge(u64),
    NoRoom(Held),
    /// A word past the block's end.
    NoWord(u32),
    /// The worker has a place in hand already.
    InHand,
    EmptyHand,
    /// Each segment of the arena is held.
    NoneLeft(u8),
    /// The line of a label, and what its allocation was answered.
    Unserved(Bound),
}

/// Who holds a segment, if there is such a segment.
fn holder_reason(core: &Core, segment: u8) -> Reason
    ensures { result ≡ holder_reason core.now.state segment }
{
    match core.policy().arena_of(segment) {
        Some(_) => Reason::Holder {
            segment,
            worker: core.holder(segment),
        },
        None => Reason::NoSegment(segment),
    }
}

/// Whether a worker holds a segment, and that is of an arena.
fn holds_in(core: &Core, worker: u8, arena: u8, segment: u8) -> bool
    ensures { result
        ≡ (holds core.now.state worker segment && is_in_arena core.now.state arena segment) }
{
    core.holds(worker, segment) && core.policy().arena_of(segment) == Some(arena)
}

/// One where a worker holds a segment, and that is of an arena, and else none.
fn held_one(core: &Core, worker: u8, arena: u8, segment: u8) -> u32
    ensures counted { result ≡ count_by (λ s. holds core.now.state worker s
        && is_in_arena core.now.state arena s) (segment ∷ []) }
    ensures few { result ≤ 1 }
{
    if holds_in(core, worker, arena, segment) {
        return 1;
    }
    0
}

/// How many segments of an arena a worker holds.
fn held_in(core: &Core, worker: u8, arena: u8) -> u32
    ensures { result ≡ held_in core.now.state worker arena }
{
    let mut held = 0;
    for segment in 0..core.policy().segments() {
        held += held_one(core, worker, arena, segment);
    }
    held
}

/// What the worker holds of the arena, and the block for which that has no room.
fn room_reason(core: &Core, worker: u8, event: Event) -> Option<Reason>
    ensures { result ≡ room_reason core.now.state worker event }
{
    match event {
        Event::Alloc { arena, bytes, .. } => Some(Reason::NoRoom(Held {
            arena,
            segments: held_in(core, worker, arena),
            block: block_bytes(bytes),
        })),
        _ => None,
    }
}

/// What an allocation asked for.
fn large_reason(event: Event) -> Option<Reason>
    ensures { result ≡ large_reason event }
{
    match event {
        Event::Alloc { bytes, .. } => Some(Reason::TooLarge(bytes)),
        _ => None,
    }
}

/// Who holds the segment of the block.
fn elsewhere_reason(core: &Core, asked: Option<Asked>) -> Option<Reason>
    ensures { result ≡ elsewhere_reason core.now.state asked }
{
    match asked {
        Some(asked) => Some(holder_reason(core, asked.place.segment)),
        None => None,
    }
}

/// Which word the block lacks.
fn range_reason(event: Event) -> Option<Reason>
    ensures { result ≡ range_reason event }
{
    match event {
        Event::Read { index, .. } => Some(Reason::NoWord(index)),
        Event::Write { index, .. } => Some(Reason::NoWord(index)),
        _ => None,
    }
}

/// Who holds the segment that the worker would take from or give up.
fn held_reason(core: &Core, event: Event) -> Option<Reason>
    ensures { result ≡ held_reason core.now.state event }
{
    match event {
        Event::Take { segment } => Some(holder_reason(core, segment)),
        Event::Abandon { segment } => Some(holder_reason(core, segment)),
        _ => None,
    }
}

/// An arena of which no segment is left, if there is such an arena.
fn left_reason(policy: &Policy, event: Event) -> Option<Reason>
    ensures { result ≡ left_reason policy.now event }
{
    match event {
        Event::Refill { arena } if arena < policy.arenas() => Some(Reason::NoneLeft(arena)),
        Event::Refill { .. } => Some(Reason::NoArena),
        _ => None,
    }
}

/// Why a worker's event was answered so, if that served nothing.
fn event_reason(
    core: &Core,
    past: &Past,
    worker: u8,
    event: Event,
    answer: Answer,
) -> Option<Reason>
    ensures { result ≡ event_reason core.now.state past.now worker event answer }
{
    match answer {
        Answer::Denied(rule) => denial_reason(core, past, worker, event, rule),
        Answer::TooLarge => large_reason(event),
        Answer::NoRoom => room_reason(core, worker, event),
        Answer::Elsewhere => elsewhere_reason(core, asked_by(event)),
        Answer::OutOfBlock => range_reason(event),
        Answer::Busy => Some(Reason::InHand),
        Answer::NothingInHand => Some(Reason::EmptyHand),
        Answer::NotHeld => held_reason(core, event),
        Answer::NoSegment => left_reason(core.policy(), event),
        _ => None,
    }
}

/// The line of the label of a block, and what its allocation was answered.
fn label_reason(past: &Past, block: StoredBlock) -> Option<Reason>
    ensures { result ≡ label_reason past.now (block_in block) }
{
    match block {
        StoredBlock::Handle(_) => None,
        StoredBlock::Label(label) => match past.label(label) {
            Some(bound) => Some(Reason::Unserved(bound)),
            None => None,
        },
    }
}

/// The same, of the block that a command names.
fn unbound_reason(past: &Past, command: StoredCommand) -> Option<Reason>
    ensures { (names labels : List (List ℕ))
        → result ≡ unbound_reason past.now (command_in names labels command) }
{
    match command {
        StoredCommand::Free { block, .. } => label_reason(past, block),
        StoredCommand::Read { block, .. } => label_reason(past, block),
        StoredCommand::Write { block, .. } => label_reason(past, block),
        _ => None,
    }
}

/// Why a line came to this, if that is no service.
pub(crate) fn reason_of(core: &Core, past: &Past, line: &StoredLine, told: Told) -> Option<Reason>
    ensures { (names labels : List (List ℕ)) → result ≡ reason_of core.now.state past.now
        line.now.worker (command_in names labels line.now.command) told }
{
    match told {
        Told::One(event, answer) => event_reason(core, past, line.worker, event, answer),
        Told::Listing => None,
        Told::Unbound => unbound_reason(past, line.command),
    }
}

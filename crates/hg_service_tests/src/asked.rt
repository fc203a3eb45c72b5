//! Events and answers as data. Blocks stand there by their numbers, since no table has handles.

use hg_machine::{Answer, Event, Rule};
use hg_place::{Actor, Handle, Place};
use std::process::Abort;

pub const ALICE: Actor = Actor(0);

pub const BOB: Actor = Actor(1);

pub const MAIN: u8 = 0;

/// The arena of segment 2.
pub const VAULT: u8 = 1;

/// A number that no arena has.
pub const NOWHERE: u8 = 255;

/// A block, by its segment, its page, its index there, and its generation.
#[derive(Clone, Copy)]
pub struct Block(pub u8, pub u8, pub u16, pub u32);

/// The first blocks of the first three places of segment 0.
pub const X: Block = Block(0, 0, 0, 1);

pub const Y: Block = Block(0, 0, 1, 1);

pub const Z: Block = Block(0, 0, 2, 1);

/// Those of the first two places of segment 1.
pub const V: Block = Block(1, 0, 0, 1);

pub const W: Block = Block(1, 0, 1, 1);

/// A worker's event.
#[derive(Clone, Copy)]
pub enum Asked {
    /// Whose block, of which arena, and its bytes.
    Alloc(Actor, u8, u64),
    Free(Actor, Block),
    Deliver,
    /// The segment.
    Take(u8),
    Collect,
    /// The first word of a block.
    Read(Actor, Block),
    /// The first word of a block, and its value.
    Write(Actor, Block, u64),
    /// The segment.
    Abandon(u8),
    /// The arena.
    Refill(u8),
}

/// What an event is answered.
#[derive(Clone, Copy)]
pub enum Told {
    Block(Block),
    Done,
    Parted,
    Value(u64),
    Taken(u32),
    Pages(u32),
    Refilled(u8),
    Denied(Rule),
    Elsewhere,
    NothingInHand,
    NotHeld,
    NoSegment,
}

/// What is told of a block that was freed.
pub const FREED: Told = Told::Denied(Rule::AlreadyFreed);

/// The handle of a block.
pub fn handle(rt: &impl Abort, block: Block) -> Handle {
    let Block(segment, page, index, generation) = block;
    assert!(rt; segment < 64 && page < 16 && index < 512);
    assert!(rt; generation >= 1);
    Handle {
        place: Place {
            segment,
            page,
            index,
        },
        generation,
    }
}

/// The event that is asked.
pub fn event(rt: &impl Abort, asked: Asked) -> Event {
    match asked {
        Asked::Alloc(actor, arena, bytes) => Event::Alloc {
            actor,
            arena,
            bytes,
        },
        Asked::Free(actor, block) => Event::Free {
            actor,
            handle: handle(rt, block),
        },
        Asked::Deliver => Event::Deliver,
        Asked::Take(segment) => Event::Take { segment },
        Asked::Collect => Event::Collect,
        Asked::Read(actor, block) => Event::Read {
            actor,
            handle: handle(rt, block),
            index: 0,
        },
        Asked::Write(actor, block, value) => Event::Write {
            actor,
            handle: handle(rt, block),
            index: 0,
            value,
        },
        Asked::Abandon(segment) => Event::Abandon { segment },
        Asked::Refill(arena) => Event::Refill { arena },
    }
}

/// The answer that is told.
pub fn answer(rt: &impl Abort, told: Told) -> Answer {
    match told {
        Told::Block(block) => Answer::Block(handle(rt, block)),
        Told::Done => Answer::Done,
        Told::Parted => Answer::Parted,
        Told::Value(value) => Answer::Value(value),
        Told::Taken(count) => Answer::Taken(count),
        Told::Pages(count) => Answer::Pages(count),
        Told::Refilled(segment) => Answer::Refilled(segment),
        Told::Denied(rule) => Answer::Denied(rule),
        Told::Elsewhere => Answer::Elsewhere,
        Told::NothingInHand => Answer::NothingInHand,
        Told::NotHeld => Answer::NotHeld,
        Told::NoSegment => Answer::NoSegment,
    }
}

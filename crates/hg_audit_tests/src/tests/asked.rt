//! Rows of a worked run: who asks for what, and what it must be answered.

use hg_machine::{Answer, Event, Rule};
use hg_place::{Actor, Handle, Place};
use std::process::Abort;

/// A block of segment 0, by its page, its index there, and its generation.
#[derive(Clone, Copy)]
pub struct Block(pub u8, pub u16, pub u32);

/// An event; requests for blocks are of arena 0.
#[derive(Clone, Copy)]
pub enum Asked {
    /// The bytes.
    Alloc(Actor, u64),
    Free(Actor, Block),
    Deliver,
    /// The segment.
    Take(u8),
    Collect,
    /// The index of a word.
    Read(Actor, Block, u32),
    /// The index of a word, and its value.
    Write(Actor, Block, u32, u64),
    /// The segment.
    Abandon(u8),
    /// The arena.
    Refill(u8),
}

/// An answer.
#[derive(Clone, Copy)]
pub enum Told {
    Block(u8, u16, u32),
    Done,
    Parted,
    Value(u64),
    Taken(u32),
    Pages(u32),
    Refilled(u8),
    Denied(Rule),
    Elsewhere,
    OutOfBlock,
    Busy,
    NothingInHand,
    NotHeld,
    NoSegment,
}

/// A worker's event, and its answer.
#[derive(Clone, Copy)]
pub struct Row(pub u8, pub Asked, pub Told);

/// The handle of a block.
fn handle(rt: &impl Abort, block: Block) -> Handle {
    let Block(page, index, generation) = block;
    assert!(rt; page < 16 && index < 512);
    assert!(rt; generation >= 1);
    Handle {
        place: Place {
            segment: 0,
            page,
            index,
        },
        generation,
    }
}

/// The event that is asked.
pub fn event(rt: &impl Abort, asked: Asked) -> Event {
    match asked {
        Asked::Alloc(actor, bytes) => Event::Alloc {
            actor,
            arena: 0,
            bytes,
        },
        Asked::Free(actor, block) => Event::Free {
            actor,
            handle: handle(rt, block),
        },
        Asked::Deliver => Event::Deliver,
        Asked::Take(segment) => Event::Take { segment },
        Asked::Collect => Event::Collect,
        Asked::Read(actor, block, index) => Event::Read {
            actor,
            handle: handle(rt, block),
            index,
        },
        Asked::Write(actor, block, index, value) => Event::Write {
            actor,
            handle: handle(rt, block),
            index,
            value,
        },
        Asked::Abandon(segment) => Event::Abandon { segment },
        Asked::Refill(arena) => Event::Refill { arena },
    }
}

/// The answer that is told.
pub fn answer(rt: &impl Abort, told: Told) -> Answer {
    match told {
        Told::Block(page, index, generation) => {
            Answer::Block(handle(rt, Block(page, index, generation)))
        }
        Told::Done => Answer::Done,
        Told::Parted => Answer::Parted,
        Told::Value(value) => Answer::Value(value),
        Told::Taken(count) => Answer::Taken(count),
        Told::Pages(count) => Answer::Pages(count),
        Told::Refilled(segment) => Answer::Refilled(segment),
        Told::Denied(rule) => Answer::Denied(rule),
        Told::Elsewhere => Answer::Elsewhere,
        Told::OutOfBlock => Answer::OutOfBlock,
        Told::Busy => Answer::Busy,
        Told::NothingInHand => Answer::NothingInHand,
        Told::NotHeld => Answer::NotHeld,
        Told::NoSegment => Answer::NoSegment,
    }
}

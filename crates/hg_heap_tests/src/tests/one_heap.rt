//! Runs on one heap: what each call is answered.

use crate::tests::heaps::{ALICE, BOB, MAIN, NOBODY, POLICY, VAULT};
use crate::tests::steps::{Block, Step, meets};
use hg_heap::{Heap, Refused};
use hg_machine::Rule;
use hg_place::{Actor, PlainWords};

/// `POLICY`, where each place is given out once.
static ONE_LIFE: &str = "version = 1
workers = 2
max_generation = 1
tenant = [ {name = \"alice\", limit = 8192}, {name = \"bob\", limit = 64} ]
arena = [ {name = \"main\", segments = 2},
  {name = \"vault\", segments = 1, exclusive = [\"alice\"]} ]
grant = [ {owner = \"alice\", to = \"bob\", rights = [\"read\", \"free\"]} ]
";

/// The first block of the first place of segment 0.
const X: Block = Block(0, 0, 0, 1);

/// Refusals by the rules.
const OVER: Refused = Refused::Denied(Rule::OverLimit);

const FREED: Refused = Refused::Denied(Rule::AlreadyFreed);

const STRANGER: Refused = Refused::Denied(Rule::Stranger);

const FOREIGN: Refused = Refused::Denied(Rule::ForeignArena);

const NOT_GRANTED: Refused = Refused::Denied(Rule::NotGranted);

// A heap without segments has no room; the first place is the first of its first segment.
static ROOM: [Step; 4] = [
    Step::Alloc(ALICE, MAIN, 24, Err(Refused::NoRoom)),
    Step::Adopt(0),
    Step::Alloc(ALICE, MAIN, 24, Ok(X)),
    Step::Alloc(ALICE, VAULT, 24, Err(Refused::NoRoom)),
];

#[test]
fn room_comes_with_a_segment(rt: HostRuntime) {
    meets(&rt, rt.alloc(), POLICY, &ROOM);
}

// A request of no bytes is a block of one word.
static ONE_WORD: [Step; 6] = [
    Step::Adopt(0),
    Step::Alloc(ALICE, MAIN, 0, Ok(X)),
    Step::Write(ALICE, X, 0, 7, Ok(())),
    Step::Read(ALICE, X, 0, Ok(7)),
    Step::Read(ALICE, X, 1, Err(Refused::OutOfBlock)),
    Step::Write(ALICE, X, 1, 7, Err(Refused::OutOfBlock)),
];

#[test]
fn one_word(rt: HostRuntime) {
    meets(&rt, rt.alloc(), POLICY, &ONE_WORD);
}

// A tenant is charged for the bytes of its blocks' classes, up to its limit.
static UP_TO_THE_LIMIT: [Step; 5] = [
    Step::Adopt(0),
    Step::Alloc(BOB, MAIN, 65, Err(OVER)),
    Step::Alloc(BOB, MAIN, 64, Ok(X)),
    Step::Alloc(BOB, MAIN, 1, Err(OVER)),
    Step::Charge(1, 64),
];

#[test]
fn up_to_the_limit(rt: HostRuntime) {
    meets(&rt, rt.alloc(), POLICY, &UP_TO_THE_LIMIT);
}

// Class bytes count: 8, then 8 + 4096, and 4104 + 4096 is too much.
static CLASS_BYTES: [Step; 8] = [
    Step::Adopt(0),
    Step::Alloc(BOB, MAIN, 65, Err(OVER)),
    Step::Alloc(ALICE, MAIN, 1, Ok(X)),
    Step::Alloc(ALICE, MAIN, 3585, Ok(Block(0, 1, 0, 1))),
    Step::Alloc(ALICE, MAIN, 3585, Err(OVER)),
    Step::Alloc(ALICE, MAIN, 4097, Err(OVER)),
    Step::Alloc(ALICE, MAIN, 65537, Err(Refused::TooLarge)),
    Step::Charge(0, 4104),
];

#[test]
fn class_bytes_count(rt: HostRuntime) {
    meets(&rt, rt.alloc(), POLICY, &CLASS_BYTES);
}

/// The second block of its place.
const Y: Block = Block(0, 0, 0, 2);

// A freed place is given out again, one generation up and all its words 0.
static TWICE: [Step; 9] = [
    Step::Adopt(0),
    Step::Alloc(ALICE, MAIN, 4096, Ok(X)),
    Step::Write(ALICE, X, 511, 99, Ok(())),
    Step::Free(ALICE, X, Ok(())),
    Step::Free(ALICE, X, Err(FREED)),
    Step::Alloc(ALICE, MAIN, 4096, Ok(Y)),
    Step::Free(ALICE, X, Err(Refused::Denied(Rule::Stale(2)))),
    Step::Read(ALICE, Y, 0, Ok(0)),
    Step::Read(ALICE, Y, 511, Ok(0)),
];

#[test]
fn a_place_twice(rt: HostRuntime) {
    meets(&rt, rt.alloc(), POLICY, &TWICE);
}

// Where places have one life: a worn place stays home, and its page may lose its class.
static WORN: [Step; 9] = [
    Step::Adopt(0),
    Step::Alloc(ALICE, MAIN, 4096, Ok(X)),
    Step::Free(ALICE, X, Ok(())),
    Step::Alloc(ALICE, MAIN, 4096, Ok(Block(0, 1, 0, 1))),
    Step::Collect(1),
    Step::Alloc(ALICE, MAIN, 4096, Ok(Block(0, 2, 0, 1))),
    Step::Free(ALICE, X, Err(FREED)),
    Step::Free(ALICE, Block(0, 1, 0, 1), Ok(())),
    Step::Alloc(ALICE, MAIN, 8, Ok(Block(0, 0, 1, 1))),
];

#[test]
fn places_of_one_life(rt: HostRuntime) {
    meets(&rt, rt.alloc(), ONE_LIFE, &WORN);
}

/// A block of a segment that isn't held.
const OTHER: Block = Block(1, 0, 0, 1);

// It is elsewhere, whoever asks.
static ELSEWHERE: [Step; 6] = [
    Step::Adopt(0),
    Step::Read(ALICE, OTHER, 0, Err(Refused::Elsewhere)),
    Step::Write(BOB, OTHER, 0, 5, Err(Refused::Elsewhere)),
    Step::Free(NOBODY, OTHER, Err(Refused::Elsewhere)),
    Step::Holds(1, false),
    Step::Holds(200, false),
];

#[test]
fn elsewhere(rt: HostRuntime) {
    meets(&rt, rt.alloc(), POLICY, &ELSEWHERE);
}

/// A block of the first place that was never given out.
const LATE: Block = Block(0, 0, 0, 9);

// Rights are asked for in order: a stranger, a stale handle, a freed block, a missing grant.
static VERDICTS: [Step; 11] = [
    Step::Adopt(0),
    Step::Alloc(ALICE, MAIN, 24, Ok(X)),
    Step::Read(NOBODY, LATE, 0, Err(STRANGER)),
    Step::Write(BOB, LATE, 0, 5, Err(Refused::Denied(Rule::Stale(1)))),
    Step::Write(BOB, X, 0, 5, Err(NOT_GRANTED)),
    Step::Read(BOB, X, 2, Ok(0)),
    Step::Read(BOB, X, 3, Err(Refused::OutOfBlock)),
    Step::Alloc(Actor(2), MAIN, 8, Err(STRANGER)),
    Step::Alloc(BOB, VAULT, 8, Err(FOREIGN)),
    Step::Free(BOB, X, Ok(())),
    Step::Read(BOB, X, 0, Err(FREED)),
];

#[test]
fn verdicts_in_order(rt: HostRuntime) {
    meets(&rt, rt.alloc(), POLICY, &VERDICTS);
}

// The heap is there, or memory was refused: for a run in which requests are refused in turn.
#[test]
fn heap_refused_in_turn(rt: HostRuntime) {
    let Ok(heap) = Heap::<PlainWords>::new(rt.alloc()) else {
        return;
    };
    assert!(&rt; !heap.holds(0));
    assert!(&rt; !heap.holds(63));
    assert!(&rt; heap.charge(63) == 0);
    drop(heap);
}

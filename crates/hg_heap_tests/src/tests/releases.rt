//! Segments that leave a heap: with what they leave, and what they leave behind.

use crate::tests::heaps::{ALICE, BOB, MAIN, POLICY, Tried, VAULT};
use crate::tests::steps::{Block, Step, meets};
use hg_heap::Refused;
use hg_place::PlainWords;
use hg_segment::Segment;
use std::alloc::Global;
use std::process::Abort;

/// Blocks of segment 0: of the first two places of page 0, and of the first ones of pages 1 and 2.
const X: Block = Block(0, 0, 0, 1);

const BESIDE_X: Block = Block(0, 0, 1, 1);

const Y: Block = Block(0, 1, 0, 1);

const Z: Block = Block(0, 2, 0, 1);

// What isn't held can't be released, and nothing changes.
static NOT_HELD: [Step; 11] = [
    Step::Release(0, false),
    Step::Adopt(0),
    Step::Alloc(ALICE, MAIN, 24, Ok(X)),
    Step::Release(1, false),
    Step::Release(63, false),
    Step::Release(64, false),
    Step::Release(255, false),
    Step::Holds(0, true),
    Step::Charge(0, 24),
    Step::Write(ALICE, X, 0, 7, Ok(())),
    Step::Alloc(ALICE, MAIN, 24, Ok(BESIDE_X)),
];

#[test]
fn not_held(rt: HostRuntime) {
    meets(&rt, rt.alloc(), POLICY, &NOT_HELD);
}

/// Alice has blocks of 24 and of 4,096 bytes; and bob had one.
static WITH_BLOCKS: [Step; 6] = [
    Step::Adopt(0),
    Step::Alloc(ALICE, MAIN, 24, Ok(X)),
    Step::Alloc(ALICE, MAIN, 4096, Ok(Y)),
    Step::Alloc(BOB, MAIN, 64, Ok(Z)),
    Step::Write(ALICE, X, 2, 77, Ok(())),
    Step::Free(BOB, Z, Ok(())),
];

// A heap that a segment has left charges nobody for it, and has no room in it.
static NOTHING_STAYS: [Step; 4] = [
    Step::Release(0, true),
    Step::Charge(0, 0),
    Step::Read(ALICE, X, 2, Err(Refused::Elsewhere)),
    Step::Alloc(ALICE, MAIN, 24, Err(Refused::NoRoom)),
];

#[test]
fn nothing_stays(rt: HostRuntime) {
    let mut tried = Tried::new(&rt, rt.alloc(), POLICY);
    tried.meets(&rt, rt.alloc(), &WITH_BLOCKS);
    tried.meets(&rt, rt.alloc(), &NOTHING_STAYS);
    drop(tried);
}

/// Segment 0 as a heap leaves it that meets these steps.
fn left(rt: &impl Abort, alloc: Global, steps: &[Step]) -> Segment<PlainWords> {
    let mut tried = Tried::new(rt, alloc, POLICY);
    tried.meets(rt, alloc, steps);
    let segment = tried.heap.release(0).expect(rt, "a held segment");
    assert!(rt; segment.number() == 0);
    assert!(rt; !tried.heap.holds(0));
    drop(tried);
    segment
}

/// A heap must meet these steps, and more once it has the segment.
fn meets_with(
    rt: &impl Abort,
    alloc: Global,
    segment: Segment<PlainWords>,
    before: &[Step],
    after: &[Step],
) {
    let mut tried = Tried::new(rt, alloc, POLICY);
    tried.meets(rt, alloc, before);
    tried.adopt(rt, segment);
    tried.meets(rt, alloc, after);
    drop(tried);
}

// Blocks go with their segment, and so does what tenants are charged for them. The last one is of
// the next place of the page of the first.
static GONE_ALONG: [Step; 5] = [
    Step::Charge(0, 4120),
    Step::Read(ALICE, X, 2, Ok(77)),
    Step::Free(ALICE, Y, Ok(())),
    Step::Charge(0, 24),
    Step::Alloc(ALICE, MAIN, 24, Ok(BESIDE_X)),
];

#[test]
fn blocks_go_along(rt: HostRuntime) {
    let segment = left(&rt, rt.alloc(), &WITH_BLOCKS);
    meets_with(&rt, rt.alloc(), segment, &[], &GONE_ALONG);
}

/// Pages 1 and 0 are queued in this turn, each with a place of its second life.
static QUEUED: [Step; 5] = [
    Step::Adopt(0),
    Step::Alloc(ALICE, MAIN, 4096, Ok(X)),
    Step::Alloc(ALICE, MAIN, 4096, Ok(Y)),
    Step::Free(ALICE, Y, Ok(())),
    Step::Free(ALICE, X, Ok(())),
];

/// A page of another segment is queued.
static BEFORE: [Step; 3] = [
    Step::Adopt(1),
    Step::Alloc(ALICE, MAIN, 4096, Ok(Block(1, 0, 0, 1))),
    Step::Free(ALICE, Block(1, 0, 0, 1), Ok(())),
];

// Pages stand by number in the heap that takes the segment, the greatest foremost, whatever their
// turn was before, and in front of the pages that it had; they leave with it.
static BY_NUMBER: [Step; 3] = [
    Step::Alloc(ALICE, MAIN, 4096, Ok(Block(0, 1, 0, 2))),
    Step::Release(0, true),
    Step::Alloc(ALICE, MAIN, 4096, Ok(Block(1, 0, 0, 2))),
];

#[test]
fn pages_stand_by_number(rt: HostRuntime) {
    let segment = left(&rt, rt.alloc(), &QUEUED);
    meets_with(&rt, rt.alloc(), segment, &BEFORE, &BY_NUMBER);
}

// The last segment stands in the place of the one that left, and is found there.
static FOUND: [Step; 10] = [
    Step::Adopt(1),
    Step::Alloc(ALICE, MAIN, 24, Ok(Block(1, 0, 0, 1))),
    Step::Adopt(2),
    Step::Alloc(ALICE, VAULT, 24, Ok(Block(2, 0, 0, 1))),
    Step::Release(1, true),
    Step::Charge(0, 24),
    Step::Read(ALICE, Block(1, 0, 0, 1), 0, Err(Refused::Elsewhere)),
    Step::Read(ALICE, Block(2, 0, 0, 1), 0, Ok(0)),
    Step::Release(2, true),
    Step::Charge(0, 0),
];

#[test]
fn the_last_is_still_found(rt: HostRuntime) {
    meets(&rt, rt.alloc(), POLICY, &FOUND);
}

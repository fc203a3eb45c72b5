//! Lists of events of two workers, given to a core from its opening, and what each is answered.

use crate::tests::asked::{Asked, Block, Row, Told};
use crate::tests::policies::{LARGE_BLOCKS, ONE_LIFE, TWO_WORKERS};
use hg_machine::Rule;
use hg_place::Actor;

pub const ALICE: Actor = Actor(0);

const BOB: Actor = Actor(1);

pub const MAIN: u8 = 0;

/// A number that no arena has.
const NOWHERE: u8 = 255;

/// The blocks of the first two places of page 0.
pub const X: Block = Block(0, 0, 1);

const Y: Block = Block(0, 1, 1);

/// A list of events, and the policy.
pub struct Run {
    pub policy: &'static str,
    pub rows: &'static [Row],
}

pub static RUNS: [Run; 10] = [
    // A block freed elsewhere is freed for all at once, and home once delivered and taken.
    Run {
        policy: TWO_WORKERS,
        rows: &[
            Row(0, Asked::Refill(MAIN), Told::Refilled(0)),
            Row(0, Asked::Alloc(ALICE, 24), Told::Block(0, 0, 1)),
            Row(1, Asked::Free(BOB, X), Told::Parted),
            Row(
                0,
                Asked::Read(ALICE, X, 0),
                Told::Denied(Rule::AlreadyFreed),
            ),
            Row(0, Asked::Take(0), Told::Taken(0)),
            Row(1, Asked::Deliver, Told::Done),
            Row(0, Asked::Take(0), Told::Taken(1)),
            Row(1, Asked::Deliver, Told::NothingInHand),
        ],
    },
    // What is in a hand stays there, also where its own worker holds the segment.
    Run {
        policy: TWO_WORKERS,
        rows: &[
            Row(0, Asked::Refill(MAIN), Told::Refilled(0)),
            Row(0, Asked::Alloc(ALICE, 4096), Told::Block(0, 0, 1)),
            Row(1, Asked::Free(ALICE, X), Told::Parted),
            Row(0, Asked::Abandon(0), Told::Done),
            Row(1, Asked::Refill(MAIN), Told::Refilled(0)),
            Row(1, Asked::Deliver, Told::Done),
            Row(1, Asked::Take(0), Told::Taken(1)),
            Row(0, Asked::Take(0), Told::NotHeld),
            Row(1, Asked::Alloc(ALICE, 4096), Told::Block(0, 0, 2)),
        ],
    },
    // A hand has one block; the verdict on a block is told before a full hand.
    Run {
        policy: TWO_WORKERS,
        rows: &[
            Row(0, Asked::Refill(MAIN), Told::Refilled(0)),
            Row(0, Asked::Alloc(ALICE, 24), Told::Block(0, 0, 1)),
            Row(0, Asked::Alloc(ALICE, 24), Told::Block(0, 1, 1)),
            Row(1, Asked::Free(ALICE, X), Told::Parted),
            Row(1, Asked::Free(ALICE, Y), Told::Busy),
            Row(1, Asked::Free(ALICE, X), Told::Denied(Rule::AlreadyFreed)),
            Row(0, Asked::Read(ALICE, Y, 0), Told::Value(0)),
            Row(1, Asked::Deliver, Told::Done),
            Row(1, Asked::Free(ALICE, Y), Told::Parted),
        ],
    },
    // A parted block counts in the charge until it is taken.
    Run {
        policy: TWO_WORKERS,
        rows: &[
            Row(0, Asked::Refill(MAIN), Told::Refilled(0)),
            Row(0, Asked::Alloc(BOB, 64), Told::Block(0, 0, 1)),
            Row(1, Asked::Free(BOB, X), Told::Parted),
            Row(0, Asked::Alloc(BOB, 8), Told::Denied(Rule::OverLimit)),
            Row(1, Asked::Deliver, Told::Done),
            Row(0, Asked::Alloc(BOB, 8), Told::Denied(Rule::OverLimit)),
            Row(0, Asked::Take(0), Told::Taken(1)),
            Row(0, Asked::Alloc(BOB, 8), Told::Block(1, 0, 1)),
        ],
    },
    // A place past its last life is never given out again, in no class.
    Run {
        policy: ONE_LIFE,
        rows: &[
            Row(0, Asked::Refill(MAIN), Told::Refilled(0)),
            Row(0, Asked::Alloc(ALICE, 4096), Told::Block(0, 0, 1)),
            Row(0, Asked::Free(ALICE, X), Told::Done),
            Row(0, Asked::Alloc(ALICE, 4096), Told::Block(1, 0, 1)),
            Row(0, Asked::Collect, Told::Pages(1)),
            Row(0, Asked::Alloc(ALICE, 4096), Told::Block(2, 0, 1)),
            Row(0, Asked::Free(ALICE, X), Told::Denied(Rule::AlreadyFreed)),
            Row(0, Asked::Free(ALICE, Block(1, 0, 1)), Told::Done),
            Row(0, Asked::Alloc(ALICE, 8), Told::Block(0, 1, 1)),
        ],
    },
    // What isn't granted is denied wherever it is asked; then holder and length are told.
    Run {
        policy: TWO_WORKERS,
        rows: &[
            Row(0, Asked::Refill(MAIN), Told::Refilled(0)),
            Row(0, Asked::Alloc(ALICE, 24), Told::Block(0, 0, 1)),
            Row(
                0,
                Asked::Write(BOB, X, 0, 5),
                Told::Denied(Rule::NotGranted),
            ),
            Row(
                1,
                Asked::Write(BOB, X, 0, 5),
                Told::Denied(Rule::NotGranted),
            ),
            Row(1, Asked::Read(ALICE, X, 3), Told::Elsewhere),
            Row(0, Asked::Read(ALICE, X, 3), Told::OutOfBlock),
            Row(0, Asked::Read(BOB, X, 2), Told::Value(0)),
        ],
    },
    // Places of two pages are taken at once, and both pages lose their classes.
    Run {
        policy: TWO_WORKERS,
        rows: &[
            Row(0, Asked::Refill(MAIN), Told::Refilled(0)),
            Row(0, Asked::Alloc(ALICE, 8), Told::Block(0, 0, 1)),
            Row(0, Asked::Alloc(ALICE, 8), Told::Block(0, 1, 1)),
            Row(0, Asked::Alloc(ALICE, 8), Told::Block(0, 2, 1)),
            Row(0, Asked::Alloc(ALICE, 16), Told::Block(1, 0, 1)),
            Row(1, Asked::Free(ALICE, X), Told::Parted),
            Row(1, Asked::Deliver, Told::Done),
            Row(1, Asked::Free(ALICE, Y), Told::Parted),
            Row(1, Asked::Deliver, Told::Done),
            Row(1, Asked::Free(ALICE, Block(0, 2, 1)), Told::Parted),
            Row(1, Asked::Deliver, Told::Done),
            Row(1, Asked::Free(ALICE, Block(1, 0, 1)), Told::Parted),
            Row(1, Asked::Deliver, Told::Done),
            Row(0, Asked::Take(0), Told::Taken(4)),
            Row(0, Asked::Collect, Told::Pages(2)),
        ],
    },
    // Of two orphans the one that was abandoned first is taken.
    Run {
        policy: TWO_WORKERS,
        rows: &[
            Row(0, Asked::Refill(MAIN), Told::Refilled(0)),
            Row(1, Asked::Refill(MAIN), Told::Refilled(1)),
            Row(0, Asked::Refill(MAIN), Told::NoSegment),
            Row(1, Asked::Abandon(1), Told::Done),
            Row(0, Asked::Abandon(0), Told::Done),
            Row(1, Asked::Refill(MAIN), Told::Refilled(1)),
            Row(1, Asked::Abandon(0), Told::NotHeld),
            Row(0, Asked::Refill(NOWHERE), Told::NoSegment),
        ],
    },
    // Blocks stay live while nobody holds their segment, and go with it to who takes it.
    Run {
        policy: TWO_WORKERS,
        rows: &[
            Row(0, Asked::Refill(MAIN), Told::Refilled(0)),
            Row(0, Asked::Alloc(ALICE, 24), Told::Block(0, 0, 1)),
            Row(0, Asked::Write(ALICE, X, 1, 5), Told::Done),
            Row(0, Asked::Abandon(0), Told::Done),
            Row(0, Asked::Read(ALICE, X, 1), Told::Elsewhere),
            Row(1, Asked::Refill(MAIN), Told::Refilled(0)),
            Row(1, Asked::Read(ALICE, X, 1), Told::Value(5)),
            Row(1, Asked::Free(ALICE, X), Told::Done),
        ],
    },
    // A block of two pages is parted, goes with its segment to who takes it, and comes home.
    Run {
        policy: LARGE_BLOCKS,
        rows: &[
            Row(0, Asked::Refill(MAIN), Told::Refilled(0)),
            Row(0, Asked::Alloc(ALICE, 4097), Told::Block(0, 0, 1)),
            Row(0, Asked::Alloc(ALICE, 8), Told::Block(2, 0, 1)),
            Row(1, Asked::Free(ALICE, X), Told::Parted),
            Row(1, Asked::Deliver, Told::Done),
            Row(0, Asked::Abandon(0), Told::Done),
            Row(1, Asked::Refill(MAIN), Told::Refilled(0)),
            Row(1, Asked::Take(0), Told::Taken(1)),
            Row(1, Asked::Collect, Told::Pages(1)),
        ],
    },
];

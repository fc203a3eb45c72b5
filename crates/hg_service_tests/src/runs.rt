//! Worked runs of the workers of a service, called in turn.

use crate::asked::{ALICE, Asked, BOB, Block, FREED, MAIN, NOWHERE, Told, V, W, X, Y, Z};
use crate::steps::{BOTH, NOBODY, Run, Step};
use crate::tried::all_go;
use hg_machine::Rule;

/// What is told where a tenant would have more than its limit.
const OVER: Told = Told::Denied(Rule::OverLimit);

static RUNS: [Run; 13] = [
    // A block that another worker frees is parted, sent, and taken in.
    Run {
        name: "delivered_then_taken",
        begins: BOTH,
        steps: &[
            Step::Asks(0, Asked::Refill(MAIN), Told::Refilled(0)),
            Step::Asks(0, Asked::Alloc(ALICE, MAIN, 24), Told::Block(X)),
            Step::Asks(1, Asked::Free(BOB, X), Told::Parted),
            Step::Asks(0, Asked::Read(ALICE, X), FREED),
            Step::Asks(0, Asked::Take(0), Told::Taken(0)),
            Step::Asks(1, Asked::Deliver, Told::Done),
            Step::Asks(0, Asked::Take(0), Told::Taken(1)),
            Step::Asks(1, Asked::Deliver, Told::NothingInHand),
        ],
        then: &[],
    },
    // What is in a hand stays there, also where its own worker comes to hold the segment.
    Run {
        name: "hand_is_not_taken",
        begins: BOTH,
        steps: &[
            Step::Asks(0, Asked::Refill(MAIN), Told::Refilled(0)),
            Step::Asks(0, Asked::Alloc(ALICE, MAIN, 4096), Told::Block(X)),
            Step::Asks(1, Asked::Free(ALICE, X), Told::Parted),
            Step::Asks(0, Asked::Abandon(0), Told::Done),
            Step::Asks(1, Asked::Refill(MAIN), Told::Refilled(0)),
            Step::Asks(1, Asked::Take(0), Told::Taken(0)),
            Step::Asks(1, Asked::Deliver, Told::Done),
            Step::Asks(1, Asked::Take(0), Told::Taken(1)),
            Step::Asks(0, Asked::Take(0), Told::NotHeld),
            Step::Asks(
                1,
                Asked::Alloc(ALICE, MAIN, 4096),
                Told::Block(Block(0, 0, 0, 2)),
            ),
        ],
        then: &[],
    },
    // A parted block counts against the limit until it is taken in.
    Run {
        name: "parted_block_counts_in_charge",
        begins: BOTH,
        steps: &[
            Step::Asks(0, Asked::Refill(MAIN), Told::Refilled(0)),
            Step::Asks(0, Asked::Alloc(BOB, MAIN, 64), Told::Block(X)),
            Step::Asks(1, Asked::Free(BOB, X), Told::Parted),
            Step::Asks(0, Asked::Alloc(BOB, MAIN, 8), OVER),
            Step::Asks(1, Asked::Deliver, Told::Done),
            Step::Asks(0, Asked::Alloc(BOB, MAIN, 8), OVER),
            Step::Asks(0, Asked::Take(0), Told::Taken(1)),
            Step::Asks(
                0,
                Asked::Alloc(BOB, MAIN, 8),
                Told::Block(Block(0, 1, 0, 1)),
            ),
        ],
        then: &[],
    },
    // What is sent goes to the list of its own segment, and is taken in by that segment's holder.
    Run {
        name: "each_segment_has_its_list",
        begins: BOTH,
        steps: &[
            Step::Asks(0, Asked::Refill(MAIN), Told::Refilled(0)),
            Step::Asks(1, Asked::Refill(MAIN), Told::Refilled(1)),
            Step::Asks(1, Asked::Alloc(ALICE, MAIN, 24), Told::Block(V)),
            Step::Asks(0, Asked::Alloc(ALICE, MAIN, 24), Told::Block(X)),
            Step::Asks(0, Asked::Free(ALICE, V), Told::Parted),
            Step::Asks(0, Asked::Deliver, Told::Done),
            Step::Asks(0, Asked::Take(0), Told::Taken(0)),
            Step::Asks(1, Asked::Take(1), Told::Taken(1)),
            Step::Asks(1, Asked::Free(ALICE, X), Told::Parted),
            Step::Asks(1, Asked::Deliver, Told::Done),
            Step::Asks(1, Asked::Take(1), Told::Taken(0)),
            Step::Asks(0, Asked::Take(0), Told::Taken(1)),
        ],
        then: &[],
    },
    // Of three blocks the second and the third are freed elsewhere: each comes home once it was sent,
    // neither while it is in the hand, and the first lives on.
    Run {
        name: "what_was_sent_comes_home",
        begins: BOTH,
        steps: &[
            Step::Asks(0, Asked::Refill(MAIN), Told::Refilled(0)),
            Step::Asks(0, Asked::Alloc(ALICE, MAIN, 24), Told::Block(X)),
            Step::Asks(0, Asked::Alloc(ALICE, MAIN, 24), Told::Block(Y)),
            Step::Asks(0, Asked::Alloc(ALICE, MAIN, 24), Told::Block(Z)),
            Step::Asks(1, Asked::Free(ALICE, Y), Told::Parted),
            Step::Asks(0, Asked::Take(0), Told::Taken(0)),
            Step::Asks(1, Asked::Deliver, Told::Done),
            Step::Asks(1, Asked::Free(ALICE, Z), Told::Parted),
            Step::Asks(0, Asked::Take(0), Told::Taken(1)),
            Step::Asks(1, Asked::Deliver, Told::Done),
            Step::Asks(0, Asked::Take(0), Told::Taken(1)),
            Step::Asks(0, Asked::Take(0), Told::Taken(0)),
            Step::Asks(0, Asked::Read(ALICE, X), Told::Value(0)),
            Step::Asks(0, Asked::Read(ALICE, Z), FREED),
        ],
        then: &[],
    },
    // Two blocks of one segment are sent one after the other: no delivery takes away what was sent
    // before, and both come home at once.
    Run {
        name: "what_was_sent_stays_on_its_list",
        begins: BOTH,
        steps: &[
            Step::Asks(0, Asked::Refill(MAIN), Told::Refilled(0)),
            Step::Asks(1, Asked::Refill(MAIN), Told::Refilled(1)),
            Step::Asks(1, Asked::Alloc(ALICE, MAIN, 24), Told::Block(V)),
            Step::Asks(1, Asked::Alloc(ALICE, MAIN, 24), Told::Block(W)),
            Step::Asks(0, Asked::Free(ALICE, W), Told::Parted),
            Step::Asks(0, Asked::Deliver, Told::Done),
            Step::Asks(0, Asked::Free(ALICE, V), Told::Parted),
            Step::Asks(0, Asked::Deliver, Told::Done),
            Step::Asks(0, Asked::Take(0), Told::Taken(0)),
            Step::Asks(1, Asked::Take(1), Told::Taken(2)),
            Step::Asks(1, Asked::Collect, Told::Pages(1)),
        ],
        then: &[],
    },
    // Segments go from worker to worker: the oldest orphan first, then the lowest fresh one.
    Run {
        name: "oldest_orphan_first",
        begins: BOTH,
        steps: &[
            Step::Asks(0, Asked::Refill(MAIN), Told::Refilled(0)),
            Step::Asks(1, Asked::Refill(MAIN), Told::Refilled(1)),
            Step::Asks(0, Asked::Refill(MAIN), Told::NoSegment),
            Step::Asks(1, Asked::Abandon(1), Told::Done),
            Step::Asks(0, Asked::Abandon(0), Told::Done),
            Step::Asks(1, Asked::Refill(MAIN), Told::Refilled(1)),
            Step::Asks(1, Asked::Abandon(0), Told::NotHeld),
            Step::Asks(0, Asked::Refill(NOWHERE), Told::NoSegment),
        ],
        then: &[],
    },
    // A block is written, read and freed by its worker, and its page loses its class.
    Run {
        name: "used_by_its_worker",
        begins: BOTH,
        steps: &[
            Step::Asks(0, Asked::Refill(MAIN), Told::Refilled(0)),
            Step::Asks(0, Asked::Alloc(ALICE, MAIN, 24), Told::Block(X)),
            Step::Asks(0, Asked::Write(ALICE, X, 88), Told::Done),
            Step::Asks(0, Asked::Read(ALICE, X), Told::Value(88)),
            Step::Asks(0, Asked::Read(BOB, X), Told::Value(88)),
            Step::Asks(1, Asked::Read(ALICE, X), Told::Elsewhere),
            Step::Asks(0, Asked::Free(ALICE, X), Told::Done),
            Step::Asks(0, Asked::Collect, Told::Pages(1)),
        ],
        then: &[],
    },
    // A worker that has never looked there frees a live block, and isn't told that it is stale.
    Run {
        name: "no_invented_stale",
        begins: BOTH,
        steps: &[
            Step::Asks(0, Asked::Refill(MAIN), Told::Refilled(0)),
            Step::Asks(0, Asked::Alloc(ALICE, MAIN, 24), Told::Block(X)),
            Step::Asks(1, Asked::Free(ALICE, X), Told::Parted),
        ],
        then: &[],
    },
    // Each worker of the policy is taken once, whether it leaves or is dropped.
    Run {
        name: "each_worker_once",
        begins: NOBODY,
        steps: &[
            Step::Takes(2, false),
            Step::Takes(255, false),
            Step::Takes(0, true),
            Step::Takes(0, false),
            Step::Leaves(0),
            Step::Takes(0, false),
            Step::Takes(1, true),
            Step::Drops(1),
            Step::Takes(1, false),
        ],
        then: &[],
    },
    // Whoever leaves sends what it has in hand, and it is taken in.
    Run {
        name: "hand_is_sent_by_leaving",
        begins: BOTH,
        steps: &[
            Step::Asks(0, Asked::Refill(MAIN), Told::Refilled(0)),
            Step::Asks(0, Asked::Alloc(ALICE, MAIN, 24), Told::Block(X)),
            Step::Asks(0, Asked::Alloc(ALICE, MAIN, 24), Told::Block(Y)),
            Step::Asks(1, Asked::Free(ALICE, X), Told::Parted),
            Step::Leaves(1),
            Step::Asks(0, Asked::Take(0), Told::Taken(1)),
            Step::Asks(0, Asked::Free(ALICE, Y), Told::Done),
            Step::Drops(0),
        ],
        then: &[],
    },
    // Whoever leaves gives its segments to the pool, rising, with the blocks that live there.
    Run {
        name: "segments_stay_when_one_leaves",
        begins: BOTH,
        steps: &[
            Step::Asks(0, Asked::Refill(MAIN), Told::Refilled(0)),
            Step::Asks(0, Asked::Alloc(ALICE, MAIN, 24), Told::Block(X)),
            Step::Asks(0, Asked::Write(ALICE, X, 7), Told::Done),
            Step::Asks(0, Asked::Refill(MAIN), Told::Refilled(1)),
            Step::Leaves(0),
            Step::Asks(1, Asked::Refill(MAIN), Told::Refilled(0)),
            Step::Asks(1, Asked::Read(ALICE, X), Told::Value(7)),
            Step::Asks(1, Asked::Refill(MAIN), Told::Refilled(1)),
            Step::Asks(1, Asked::Refill(MAIN), Told::NoSegment),
            Step::Drops(1),
        ],
        then: &[],
    },
    // Two workers see one word where they meet, whoever calls; and 0 in a segment that the policy lacks.
    Run {
        name: "meets",
        begins: BOTH,
        steps: &[
            Step::Asks(0, Asked::Refill(MAIN), Told::Refilled(0)),
            Step::Asks(0, Asked::Alloc(ALICE, MAIN, 24), Told::Block(X)),
            Step::Meets(0, 1, X, 0x0000_0001_0000_0001),
            Step::Asks(1, Asked::Free(ALICE, X), Told::Parted),
            Step::Meets(0, 1, X, 0x0000_0001_0000_0000),
            Step::Meets(0, 1, V, 0),
            Step::Meets(0, 1, Block(9, 0, 0, 1), 0),
            Step::Asks(0, Asked::Abandon(0), Told::Done),
            Step::Meets(0, 1, X, 0x0000_0001_0000_0000),
        ],
        then: &[],
    },
];

#[test]
fn workers_in_turn(rt: HostRuntime) {
    all_go(&rt, rt.alloc(), &RUNS);
}

//! Services that close, and that go on.

use crate::after::Then;
use crate::asked::{ALICE, Asked, Block, MAIN, Told, V, VAULT, W, X, Y};
use crate::steps::{BOTH, Beginning, NOBODY, PARTS, Run, Step};
use crate::tried::all_go;
use hg_close::CloseFault;

/// As many workers as a policy may have.
const ALL_WORKERS: &str = r#"version = 1
workers = 16
tenant = [ {name = "alice", limit = 64} ]
arena = [ {name = "main", segments = 1} ]
"#;

const MANY: Beginning = Beginning {
    document: ALL_WORKERS,
    is_of_parts: false,
    takes: 16,
    may_refuse: false,
};

const ONE_OF_MANY: Beginning = Beginning {
    document: ALL_WORKERS,
    is_of_parts: false,
    takes: 0,
    may_refuse: false,
};

/// As many segments as a policy may have.
const WIDE: Beginning = Beginning {
    document: r#"version = 1
workers = 2
tenant = [ {name = "alice", limit = 8388608} ]
arena = [ {name = "main", segments = 64} ]
"#,
    is_of_parts: false,
    takes: 2,
    may_refuse: false,
};

/// The first block of segment 2.
const IN_VAULT: Block = Block(2, 0, 0, 1);

static CLOSING: [Run; 12] = [
    // A service goes on while a worker holds a segment; once both have left it closes, and a block
    // lives on in the core with what was written.
    Run {
        name: "close_goes_on",
        begins: BOTH,
        steps: &[
            Step::Asks(0, Asked::Refill(MAIN), Told::Refilled(0)),
            Step::Asks(0, Asked::Alloc(ALICE, MAIN, 24), Told::Block(X)),
            Step::GoesOn(CloseFault::StillHeld(0)),
            Step::Asks(0, Asked::Write(ALICE, X, 5), Told::Done),
            Step::Leaves(0),
            Step::Leaves(1),
            Step::Closes,
        ],
        then: &[
            Then::Answers(Asked::Refill(MAIN), Told::Refilled(0)),
            Then::Answers(Asked::Read(ALICE, X), Told::Value(5)),
        ],
    },
    // A service of which no worker was ever taken closes.
    Run {
        name: "nobody_was_taken",
        begins: NOBODY,
        steps: &[Step::Closes],
        then: &[Then::Answers(Asked::Refill(MAIN), Told::Refilled(0))],
    },
    // A worker that was dropped never leaves.
    Run {
        name: "dropped_worker_is_out",
        begins: NOBODY,
        steps: &[
            Step::Takes(1, true),
            Step::Drops(1),
            Step::GoesOn(CloseFault::StillOut(1)),
        ],
        then: &[],
    },
    // What a dropped worker held is held for good, and is told before who is out.
    Run {
        name: "dropped_segment_is_held",
        begins: BOTH,
        steps: &[
            Step::Asks(0, Asked::Refill(MAIN), Told::Refilled(0)),
            Step::Drops(0),
            Step::Drops(1),
            Step::GoesOn(CloseFault::StillHeld(0)),
        ],
        then: &[],
    },
    // The lowest segment is told that somebody holds, and then the lowest worker that is out.
    Run {
        name: "lowest_is_told",
        begins: BOTH,
        steps: &[
            Step::Asks(0, Asked::Refill(MAIN), Told::Refilled(0)),
            Step::Asks(1, Asked::Refill(MAIN), Told::Refilled(1)),
            Step::GoesOn(CloseFault::StillHeld(0)),
            Step::Asks(0, Asked::Abandon(0), Told::Done),
            Step::GoesOn(CloseFault::StillHeld(1)),
            Step::Leaves(1),
            Step::GoesOn(CloseFault::StillOut(0)),
            Step::Leaves(0),
            Step::Closes,
        ],
        then: &[],
    },
    // What was sent to a segment is there in the core, for its holder to take in.
    Run {
        name: "sent_block_is_taken_in",
        begins: BOTH,
        steps: &[
            Step::Asks(0, Asked::Refill(MAIN), Told::Refilled(0)),
            Step::Asks(0, Asked::Alloc(ALICE, MAIN, 24), Told::Block(X)),
            Step::Asks(1, Asked::Free(ALICE, X), Told::Parted),
            Step::Leaves(1),
            Step::Leaves(0),
            Step::Closes,
        ],
        then: &[
            Then::Answers(Asked::Refill(MAIN), Told::Refilled(0)),
            Then::Answers(Asked::Take(0), Told::Taken(1)),
        ],
    },
    // What was sent to each segment is there in the core, on the list of that segment.
    Run {
        name: "each_list_comes_over",
        begins: BOTH,
        steps: &[
            Step::Asks(0, Asked::Refill(MAIN), Told::Refilled(0)),
            Step::Asks(1, Asked::Refill(MAIN), Told::Refilled(1)),
            Step::Asks(1, Asked::Refill(VAULT), Told::Refilled(2)),
            Step::Asks(1, Asked::Alloc(ALICE, MAIN, 24), Told::Block(V)),
            Step::Asks(0, Asked::Free(ALICE, V), Told::Parted),
            Step::Asks(0, Asked::Deliver, Told::Done),
            Step::Asks(1, Asked::Alloc(ALICE, MAIN, 24), Told::Block(W)),
            Step::Asks(0, Asked::Free(ALICE, W), Told::Parted),
            Step::Asks(0, Asked::Deliver, Told::Done),
            Step::Asks(1, Asked::Alloc(ALICE, VAULT, 24), Told::Block(IN_VAULT)),
            Step::Asks(0, Asked::Free(ALICE, IN_VAULT), Told::Parted),
            Step::Asks(0, Asked::Deliver, Told::Done),
            Step::Leaves(0),
            Step::Leaves(1),
            Step::Closes,
        ],
        then: &[
            Then::Answers(Asked::Refill(MAIN), Told::Refilled(0)),
            Then::Answers(Asked::Refill(MAIN), Told::Refilled(1)),
            Then::Answers(Asked::Refill(VAULT), Told::Refilled(2)),
            Then::Answers(Asked::Take(0), Told::Taken(0)),
            Then::Answers(Asked::Take(1), Told::Taken(2)),
            Then::Answers(Asked::Take(2), Told::Taken(1)),
        ],
    },
    // A service that comes back has behind its locks what it had.
    Run {
        name: "service_comes_back_whole",
        begins: BOTH,
        steps: &[
            Step::Asks(0, Asked::Refill(MAIN), Told::Refilled(0)),
            Step::Asks(0, Asked::Alloc(ALICE, MAIN, 24), Told::Block(X)),
            Step::Asks(0, Asked::Alloc(ALICE, MAIN, 24), Told::Block(Y)),
            Step::Asks(0, Asked::Write(ALICE, Y, 7), Told::Done),
            Step::Asks(1, Asked::Free(ALICE, X), Told::Parted),
            Step::Asks(1, Asked::Deliver, Told::Done),
            Step::GoesOn(CloseFault::StillHeld(0)),
            Step::Leaves(0),
            Step::GoesOn(CloseFault::StillOut(1)),
            Step::Takes(0, false),
            Step::Asks(1, Asked::Refill(MAIN), Told::Refilled(0)),
            Step::Asks(1, Asked::Take(0), Told::Taken(1)),
            Step::Asks(1, Asked::Read(ALICE, Y), Told::Value(7)),
            Step::Asks(1, Asked::Refill(MAIN), Told::Refilled(1)),
            Step::Leaves(1),
            Step::Closes,
        ],
        then: &[],
    },
    // As many lists as there may be come over, each that of its segment.
    Run {
        name: "all_lists_come_over",
        begins: WIDE,
        steps: &[
            Step::SendsToEach(64),
            Step::Leaves(1),
            Step::Leaves(0),
            Step::Closes,
        ],
        then: &[Then::TakesInEach(64)],
    },
    // Of as many workers as there may be the lowest is told that is still out.
    Run {
        name: "each_worker_is_asked_for",
        begins: MANY,
        steps: &[Step::EachIsOut(16), Step::Closes],
        then: &[],
    },
    // The last of them is asked for, too.
    Run {
        name: "last_worker_is_out",
        begins: ONE_OF_MANY,
        steps: &[
            Step::Takes(15, true),
            Step::GoesOn(CloseFault::StillOut(15)),
            Step::Leaves(15),
            Step::Closes,
        ],
        then: &[],
    },
    // The parts of a service, in the hands of a host that locks by itself: a worker with a full hand is
    // out, and what was sent is there in the core.
    Run {
        name: "parts_close",
        begins: PARTS,
        steps: &[
            Step::Asks(0, Asked::Refill(MAIN), Told::Refilled(0)),
            Step::Asks(0, Asked::Alloc(ALICE, MAIN, 24), Told::Block(X)),
            Step::Asks(0, Asked::Alloc(ALICE, MAIN, 24), Told::Block(Y)),
            Step::Asks(1, Asked::Free(ALICE, X), Told::Parted),
            Step::Asks(1, Asked::Deliver, Told::Done),
            Step::Asks(0, Asked::Take(0), Told::Taken(1)),
            Step::Asks(1, Asked::Free(ALICE, Y), Told::Parted),
            Step::GoesOn(CloseFault::StillHeld(0)),
            Step::Asks(0, Asked::Abandon(0), Told::Done),
            Step::GoesOn(CloseFault::StillOut(1)),
            Step::Asks(1, Asked::Deliver, Told::Done),
            Step::Closes,
        ],
        then: &[
            Then::Answers(Asked::Refill(MAIN), Told::Refilled(0)),
            Then::Answers(Asked::Take(0), Told::Taken(1)),
        ],
    },
];

#[test]
fn services_close_or_go_on(rt: HostRuntime) {
    all_go(&rt, rt.alloc(), &CLOSING);
}

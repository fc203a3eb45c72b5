//! Closing, and an audit, where the process has no memory left, as under a limit of its address
//! space, which tools/refusals sets and then looks for the line below. With ample memory it is told
//! what else is wrong.

use crate::after::Then;
use crate::asked::{Asked, MAIN, Told};
use crate::steps::{BOTH, NOBODY, PARTS, Run, Step};
use crate::tried::all_go;
use hg_close::CloseFault;
use std::alloc::Global;
use std::process::Abort;

/// Pieces of at most so many sizes are taken: of 64 MiB first, and then of half as much each time,
/// the least of 4 KiB.
const SIZES: usize = 15;

/// And so many of each size.
const PIECES: usize = 64;

/// What memory there was, in pieces, and whether not even 4 KiB are left.
#[derive(Drop)]
pub struct UsedUp {
    pieces: Vec<Vec<u8>>,
    pub is_all: bool,
}

impl UsedUp {
    /// Takes what memory there is, where that is little, and tells so.
    pub fn take(rt: &(impl Abort + Print), alloc: Global) -> UsedUp {
        let pieces = Vec::with_capacity(alloc, SIZES * PIECES).expect(rt, "memory");
        let mut used = UsedUp {
            pieces,
            is_all: false,
        };
        let mut size = 64 << 20;
        for _ in 0..SIZES {
            used.is_all = used.is_refused(rt, alloc, size);
            size /= 2;
        }
        if used.is_all {
            println!(rt; "memory was used up").expect(rt, "output");
        }
        used
    }

    /// Takes pieces of a size. Whether one was refused.
    fn is_refused(&mut self, rt: &impl Abort, alloc: Global, size: usize) -> bool {
        for _ in 0..PIECES {
            match Vec::with_capacity(alloc, size) {
                Ok(piece) => self.pieces.push(piece).expect(rt, "room for it"),
                Err(_) => return true,
            }
        }
        false
    }
}

static OUT: [Run; 2] = [
    Run {
        name: "a worker of a service is out",
        begins: BOTH,
        steps: &[Step::GoesOnWithNone(CloseFault::StillOut(0))],
        then: &[],
    },
    Run {
        name: "a worker of parts is missing",
        begins: PARTS,
        steps: &[
            Step::Misses(1),
            Step::GoesOnWithNone(CloseFault::StillOut(1)),
        ],
        then: &[],
    },
];

/// Want of memory is told before who is out.
#[test]
fn memory_before_who_is_out_where_used_up(rt: HostRuntime) {
    all_go(&rt, rt.alloc(), &OUT);
}

static HELD: [Run; 2] = [
    Run {
        name: "a worker of a service holds a segment",
        begins: BOTH,
        steps: &[
            Step::Asks(0, Asked::Refill(MAIN), Told::Refilled(0)),
            Step::GoesOnWithNone(CloseFault::StillHeld(0)),
        ],
        then: &[],
    },
    Run {
        name: "a worker of parts holds a segment",
        begins: PARTS,
        steps: &[
            Step::Asks(0, Asked::Refill(MAIN), Told::Refilled(0)),
            Step::GoesOnWithNone(CloseFault::StillHeld(0)),
        ],
        then: &[],
    },
];

/// And before what is held.
#[test]
fn memory_before_what_is_held_where_used_up(rt: HostRuntime) {
    all_go(&rt, rt.alloc(), &HELD);
}

static MISSING: [Run; 1] = [Run {
    name: "a segment is missing",
    begins: NOBODY,
    steps: &[Step::Closes],
    then: &[Then::LacksSegment0],
}];

/// And an audit tells it before a segment that is missing.
#[test]
fn memory_before_what_is_missing_where_used_up(rt: HostRuntime) {
    all_go(&rt, rt.alloc(), &MISSING);
}

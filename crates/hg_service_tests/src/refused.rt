//! A service, and its parts, of which each request for memory may be refused as they open, and as they
//! close.

use crate::after::Then;
use crate::asked::{ALICE, Asked, MAIN, Told, X, Y};
use crate::steps::{Beginning, DOCUMENT, Run, Step};
use crate::tried::is_tried;
use hg_close::CloseFault;

/// A block with a word that was written lives on in the core, and another that was sent is there to
/// be taken in.
static SERVICE: Run = Run {
    name: "service_refused_in_turn",
    begins: Beginning {
        document: DOCUMENT,
        is_of_parts: false,
        takes: 2,
        may_refuse: true,
    },
    steps: &[
        Step::Asks(0, Asked::Refill(MAIN), Told::Refilled(0)),
        Step::Asks(0, Asked::Alloc(ALICE, MAIN, 24), Told::Block(X)),
        Step::Asks(0, Asked::Alloc(ALICE, MAIN, 24), Told::Block(Y)),
        Step::Asks(0, Asked::Write(ALICE, X, 5), Told::Done),
        Step::Asks(1, Asked::Free(ALICE, Y), Told::Parted),
        Step::Asks(1, Asked::Deliver, Told::Done),
        Step::Leaves(0),
        Step::GoesOn(CloseFault::StillOut(1)),
        Step::Asks(1, Asked::Refill(MAIN), Told::Refilled(0)),
        Step::Asks(1, Asked::Read(ALICE, X), Told::Value(5)),
        Step::Leaves(1),
        Step::Closes,
    ],
    then: &[
        Then::Answers(Asked::Refill(MAIN), Told::Refilled(0)),
        Then::Answers(Asked::Read(ALICE, X), Told::Value(5)),
        Then::Answers(Asked::Take(0), Told::Taken(1)),
    ],
};

/// A service, or want of memory, and then another try meets none. It closes as it should, or goes on
/// whole for want of memory, and closes at the next try.
#[test]
fn service_refused_in_turn(rt: HostRuntime) {
    let alloc = rt.alloc();
    assert!(&rt; is_tried(&rt, alloc, &SERVICE) || is_tried(&rt, alloc, &SERVICE));
}

static PARTS: Run = Run {
    name: "parts_refused_in_turn",
    begins: Beginning {
        document: DOCUMENT,
        is_of_parts: true,
        takes: 0,
        may_refuse: true,
    },
    steps: &[
        Step::Asks(0, Asked::Refill(MAIN), Told::Refilled(0)),
        Step::Asks(0, Asked::Alloc(ALICE, MAIN, 24), Told::Block(X)),
        Step::Asks(1, Asked::Free(ALICE, X), Told::Parted),
        Step::Asks(1, Asked::Deliver, Told::Done),
        Step::Asks(0, Asked::Abandon(0), Told::Done),
        Step::Closes,
    ],
    then: &[
        Then::Answers(Asked::Refill(MAIN), Told::Refilled(0)),
        Then::Answers(Asked::Take(0), Told::Taken(1)),
    ],
};

/// The same of its parts.
#[test]
fn parts_refused_in_turn(rt: HostRuntime) {
    let alloc = rt.alloc();
    assert!(&rt; is_tried(&rt, alloc, &PARTS) || is_tried(&rt, alloc, &PARTS));
}

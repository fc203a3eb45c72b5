//! Blocks that aren't accounted for where a service closes, and what a host makes of the parts.

use crate::after::Then;
use crate::asked::{ALICE, Asked, MAIN, Told, X, Y, Z};
use crate::steps::{BOTH, Run, Step};
use crate::tried::all_go;

static LOST: [Run; 3] = [
    // A block on a list of the caller's own is lost, with its place and the parts; one that was sent
    // isn't.
    Run {
        name: "block_on_another_list_is_lost",
        begins: BOTH,
        steps: &[
            Step::Asks(0, Asked::Refill(MAIN), Told::Refilled(0)),
            Step::Asks(0, Asked::Alloc(ALICE, MAIN, 24), Told::Block(X)),
            Step::Asks(0, Asked::Alloc(ALICE, MAIN, 24), Told::Block(Y)),
            Step::Asks(1, Asked::Free(ALICE, Y), Told::Parted),
            Step::SendsAway(1),
            Step::Asks(1, Asked::Free(ALICE, X), Told::Parted),
            Step::Leaves(0),
            Step::Leaves(1),
            Step::Loses(Y),
        ],
        then: &[],
    },
    // Of two lost places the lower is told, and the other once that is mended; then the parts become
    // a core, in which both are taken in.
    Run {
        name: "lost_blocks_are_mended",
        begins: BOTH,
        steps: &[
            Step::Asks(0, Asked::Refill(MAIN), Told::Refilled(0)),
            Step::Asks(0, Asked::Alloc(ALICE, MAIN, 24), Told::Block(X)),
            Step::Asks(0, Asked::Alloc(ALICE, MAIN, 24), Told::Block(Y)),
            Step::Asks(0, Asked::Alloc(ALICE, MAIN, 24), Told::Block(Z)),
            Step::Asks(1, Asked::Free(ALICE, Z), Told::Parted),
            Step::SendsAway(1),
            Step::Asks(1, Asked::Free(ALICE, X), Told::Parted),
            Step::SendsAway(1),
            Step::Asks(1, Asked::Free(ALICE, Y), Told::Parted),
            Step::Leaves(0),
            Step::Leaves(1),
            Step::Loses(X),
        ],
        then: &[
            Then::Puts(X),
            Then::Loses(Z),
            Then::Puts(Z),
            Then::Closes,
            Then::Answers(Asked::Refill(MAIN), Told::Refilled(0)),
            Then::Answers(Asked::Take(0), Told::Taken(3)),
        ],
    },
    // A place that stands on its list and has come home by another is lost, too.
    Run {
        name: "home_place_on_its_list_is_lost",
        begins: BOTH,
        steps: &[
            Step::Asks(0, Asked::Refill(MAIN), Told::Refilled(0)),
            Step::Asks(0, Asked::Alloc(ALICE, MAIN, 24), Told::Block(X)),
            Step::Asks(0, Asked::Alloc(ALICE, MAIN, 24), Told::Block(Y)),
            Step::Asks(1, Asked::Free(ALICE, X), Told::Parted),
            Step::Asks(1, Asked::Deliver, Told::Done),
            Step::TakesAway(0, X),
            Step::Asks(1, Asked::Free(ALICE, Y), Told::Parted),
            Step::Leaves(0),
            Step::Leaves(1),
            Step::Loses(X),
        ],
        then: &[],
    },
];

#[test]
fn lost_places(rt: HostRuntime) {
    all_go(&rt, rt.alloc(), &LOST);
}

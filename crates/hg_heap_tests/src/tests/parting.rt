//! Blocks of a heap that a worker frees which hasn't the heap.

use crate::tests::heaps::{ALICE, MAIN, POLICY};
use crate::tests::steps::{Block, Step, meets};
use hg_heap::Refused;
use hg_machine::Rule;

/// The first block of the first place of segment 0, and the words of its place while it is live and
/// once it is freed.
const X: Block = Block(0, 0, 0, 1);

const LIVE: u64 = 0x0000_0001_0000_0001;

const FREED: u64 = 0x0000_0001_0000_0000;

const ALREADY: Refused = Refused::Denied(Rule::AlreadyFreed);

// A block is parted once; nobody reaches it then, and its owner is charged for it.
static PARTED: [Step; 9] = [
    Step::Adopt(0),
    Step::Alloc(ALICE, MAIN, 24, Ok(X)),
    Step::Word(X, LIVE),
    Step::Part(X, 0, Ok(())),
    Step::Word(X, FREED),
    Step::Part(X, 0, Err(FREED)),
    Step::Read(ALICE, X, 0, Err(ALREADY)),
    Step::Free(ALICE, X, Err(ALREADY)),
    Step::Charge(0, 24),
];

#[test]
fn parted_once(rt: HostRuntime) {
    meets(&rt, rt.alloc(), POLICY, &PARTED);
}

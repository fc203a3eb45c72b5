//! What was sent to a segment is taken in.

use crate::tests::heaps::{ALICE, MAIN, Tried, free_far, fresh, handle, send};
use crate::tests::steps::{Block, Step};
use hg_heap::Refused;
use hg_place::{Handle, PlainWords, SEGMENT_PAGES};
use hg_remote::RemoteList;
use hg_segment::Segment;
use hg_size::class_of;
use std::alloc::Global;
use std::process::Abort;

/// One tenant with room for 16 pages, and one segment.
static ONE_TENANT: &str = "version = 1
workers = 1
tenant = [ {name = \"alice\", limit = 65536} ]
arena = [ {name = \"main\", segments = 1} ]
";

/// The same, where each place is given out once.
static ONE_LIFE: &str = "version = 1
workers = 1
max_generation = 1
tenant = [ {name = \"alice\", limit = 65536} ]
arena = [ {name = \"main\", segments = 1} ]
";

/// What is done with segment 0 before a heap has it.
enum Before {
    /// A page gets the class of blocks of so many words, and alice so many of them.
    Open(u8, u64, u16),
    /// Another worker frees the first block of a place of a page, which is sent.
    FreeFar(u8, u16),
    /// A place of a page is sent.
    Send(u8, u16),
}

/// The first block of a place of segment 0.
fn first(rt: &impl Abort, page: u8, index: u16) -> Handle {
    handle(rt, 0, page, index, 1)
}

/// Gives a page the class of blocks of so many words, and alice so many of them.
fn open(rt: &impl Abort, segment: &mut Segment<PlainWords>, page: u8, words: u64, many: u16) {
    let class = class_of(words).expect(rt, "a class");
    assert!(rt; (page as usize) < SEGMENT_PAGES && segment.may_begin(page, class));
    segment.assign_page(page, class);
    for _ in 0..many {
        assert!(rt; segment.open_in(page, 0).is_some());
    }
}

/// Does each of these with a segment and what was sent to it.
fn prepare(
    rt: &impl Abort,
    segment: &mut Segment<PlainWords>,
    remote: &mut RemoteList,
    steps: &[Before],
) {
    for step in steps {
        match step {
            Before::Open(page, words, many) => open(rt, segment, *page, *words, *many),
            Before::FreeFar(page, index) => {
                free_far(rt, segment, remote, first(rt, *page, *index), 0);
            }
            Before::Send(page, index) => send(rt, remote, first(rt, *page, *index).place),
        }
    }
}

/// A heap takes nothing in before it has the segment, and then what was sent; so many come home.
fn takes(
    rt: &impl Abort,
    tried: &mut Tried,
    segment: Segment<PlainWords>,
    remote: &mut RemoteList,
    expected: u32,
) {
    assert!(rt; tried.heap.take(0, remote) == 0);
    tried.adopt(rt, segment);
    assert!(rt; tried.heap.holds(0));
    assert!(rt; tried.heap.take(0, remote) == expected);
    assert!(rt; remote.is_empty());
}

/// Of what was sent to segment 0 so many places come home, and then a heap meets these steps.
fn meets_taken(
    rt: &impl Abort,
    alloc: Global,
    policy: &str,
    before: &[Before],
    expected: u32,
    after: &[Step],
) {
    let mut tried = Tried::new(rt, alloc, policy);
    let mut segment = fresh(rt, alloc, &tried.policy, 0);
    let mut remote = RemoteList::new(alloc).expect(rt, "memory");
    prepare(rt, &mut segment, &mut remote, before);
    takes(rt, &mut tried, segment, &mut remote, expected);
    tried.meets(rt, alloc, after);
    drop(remote);
    drop(tried);
}

// Each place goes in front of those that came home before it: of places 1, 3 and 0, which were
// sent in this order, 0 comes home first and 1 last, behind 3.
static SENT_PLACES: [Before; 4] = [
    Before::Open(0, 64, 8),
    Before::FreeFar(0, 1),
    Before::FreeFar(0, 3),
    Before::FreeFar(0, 0),
];

static PLACES: [Step; 5] = [
    Step::Charge(0, 5 * 512),
    Step::Alloc(ALICE, MAIN, 512, Ok(Block(0, 0, 1, 2))),
    Step::Alloc(ALICE, MAIN, 512, Ok(Block(0, 0, 3, 2))),
    Step::Alloc(ALICE, MAIN, 512, Ok(Block(0, 0, 0, 2))),
    Step::Alloc(ALICE, MAIN, 512, Ok(Block(0, 1, 0, 1))),
];

#[test]
fn places_in_order(rt: HostRuntime) {
    meets_taken(&rt, rt.alloc(), ONE_TENANT, &SENT_PLACES, 3, &PLACES);
}

// A full page that regains a place goes to the front of its queue, in the order in which places are
// drained: that of the page which was sent first comes last, so it stands foremost. A page that has
// places keeps its turn.
static SENT_PAGES: [Before; 9] = [
    Before::Open(0, 512, 1),
    Before::Open(1, 512, 1),
    Before::Open(2, 512, 1),
    Before::Open(4, 64, 2),
    Before::Open(5, 64, 2),
    Before::FreeFar(0, 0),
    Before::FreeFar(4, 1),
    Before::FreeFar(1, 0),
    Before::FreeFar(2, 0),
];

static PAGES: [Step; 4] = [
    Step::Alloc(ALICE, MAIN, 4096, Ok(Block(0, 0, 0, 2))),
    Step::Alloc(ALICE, MAIN, 4096, Ok(Block(0, 1, 0, 2))),
    Step::Alloc(ALICE, MAIN, 4096, Ok(Block(0, 2, 0, 2))),
    Step::Alloc(ALICE, MAIN, 512, Ok(Block(0, 5, 2, 1))),
];

#[test]
fn pages_in_order(rt: HostRuntime) {
    meets_taken(&rt, rt.alloc(), ONE_TENANT, &SENT_PAGES, 4, &PAGES);
}

// A worn place comes home, and on no list: it is charged no more, and its page has no room.
static SENT_WORN: [Before; 4] = [
    Before::Open(0, 512, 1),
    Before::Open(1, 64, 8),
    Before::FreeFar(0, 0),
    Before::FreeFar(1, 7),
];

static WORN: [Step; 4] = [
    Step::Charge(0, 7 * 512),
    Step::Home(Block(0, 1, 7, 1)),
    Step::Alloc(ALICE, MAIN, 512, Ok(Block(0, 2, 0, 1))),
    Step::Alloc(ALICE, MAIN, 4096, Ok(Block(0, 3, 0, 1))),
];

#[test]
fn worn_places(rt: HostRuntime) {
    meets_taken(&rt, rt.alloc(), ONE_LIFE, &SENT_WORN, 2, &WORN);
}

// A place that lives and one that is home are passed over, and leave the list all the same.
static SENT_OTHERS: [Before; 5] = [
    Before::Open(0, 512, 1),
    Before::Open(1, 512, 1),
    Before::Send(0, 0),
    Before::FreeFar(1, 0),
    Before::Send(2, 9),
];

static PASSED_OVER: [Step; 5] = [
    Step::Charge(0, 4096),
    Step::Read(ALICE, Block(0, 0, 0, 1), 511, Ok(0)),
    Step::Free(ALICE, Block(0, 0, 0, 1), Ok(())),
    Step::Alloc(ALICE, MAIN, 4096, Ok(Block(0, 0, 0, 2))),
    Step::Alloc(ALICE, MAIN, 4096, Ok(Block(0, 1, 0, 2))),
];

#[test]
fn passed_over(rt: HostRuntime) {
    meets_taken(&rt, rt.alloc(), ONE_TENANT, &SENT_OTHERS, 1, &PASSED_OVER);
}

// Of nothing nothing comes home.
static SENT_NOTHING: [Before; 1] = [Before::Open(0, 512, 1)];

static NOTHING: [Step; 2] = [
    Step::Charge(0, 4096),
    Step::Alloc(ALICE, MAIN, 65537, Err(Refused::TooLarge)),
];

#[test]
fn nothing_was_sent(rt: HostRuntime) {
    meets_taken(&rt, rt.alloc(), ONE_TENANT, &SENT_NOTHING, 0, &NOTHING);
}

//! What a core tells of places by their kind, and of numbers that its policy lacks.

use hg_core::{Core, PlaceKind, PlaceLife};
use hg_machine::{Answer, Event};
use hg_place::{Actor, Handle, MAX_SEGMENTS, PAGE_PLACES, SEGMENT_PLACES, place_at};
use hg_policy_text::read_policy;
use std::alloc::Global;
use std::process::Abort;

/// Two workers and one segment, each place of which is given out once.
static ONE_LIFE: &str = "version = 1
workers = 2
max_generation = 1
tenant = [ {name = \"alice\", limit = 64}, {name = \"bob\", limit = 64} ]
arena = [ {name = \"main\", segments = 1} ]
";

const ALICE: Actor = Actor(0);

const BOB: Actor = Actor(1);

/// What a core answers.
fn answer(rt: &impl Abort, core: &mut Core, worker: u8, event: Event) -> Answer {
    assert!(rt; worker < core.policy().workers());
    core.step(worker, event)
}

/// A block that worker 0 is given.
fn block(rt: &impl Abort, core: &mut Core, actor: Actor, bytes: u64) -> Handle {
    let event = Event::Alloc {
        actor,
        arena: 0,
        bytes,
    };
    match answer(rt, core, 0, event) {
        Answer::Block(handle) => handle,
        other => panic!(rt; "{other:?}"),
    }
}

/// A core with three places that were given out. Of page 0 the first is worn, and the second has a
/// live block of alice; of page 1 the first has bob's, which is parted and in the hand of worker 1.
fn used(rt: &impl Abort, alloc: Global) -> Core {
    let policy = read_policy(alloc, ONE_LIFE.as_bytes()).expect(rt, "a policy");
    let mut core = Core::open(alloc, policy).expect(rt, "memory");
    answer(rt, &mut core, 0, Event::Refill { arena: 0 });
    let worn = block(rt, &mut core, ALICE, 8);
    let _live = block(rt, &mut core, ALICE, 8);
    let parted = block(rt, &mut core, BOB, 64);
    for (worker, actor, handle) in [(0, ALICE, worn), (1, BOB, parted)] {
        answer(rt, &mut core, worker, Event::Free { actor, handle });
    }
    core
}

/// A kind of places; of so many from a number on which is the first, and how many there are.
struct Row(PlaceKind, usize, usize, Option<usize>, usize);

/// The place that has a parted block.
const PARTED: usize = PAGE_PLACES;

static ROWS: [Row; 13] = [
    Row(PlaceKind::Live, 0, SEGMENT_PLACES, Some(1), 1),
    Row(PlaceKind::Live, 1, 1, Some(1), 1),
    Row(PlaceKind::Live, 0, 1, None, 0),
    Row(PlaceKind::Live, 2, 1000, None, 0),
    Row(PlaceKind::LiveOf(0), 0, SEGMENT_PLACES, Some(1), 1),
    Row(PlaceKind::LiveOf(1), 0, SEGMENT_PLACES, None, 0),
    Row(PlaceKind::LiveOf(200), 0, SEGMENT_PLACES, None, 0),
    Row(PlaceKind::Parted, 0, SEGMENT_PLACES, Some(PARTED), 1),
    Row(PlaceKind::PartedOf(1), 0, PARTED + 1, Some(PARTED), 1),
    Row(PlaceKind::PartedOf(1), 0, PARTED, None, 0),
    Row(PlaceKind::PartedOf(0), 0, SEGMENT_PLACES, None, 0),
    Row(PlaceKind::Worn, 0, SEGMENT_PLACES, Some(0), 1),
    Row(PlaceKind::Worn, 0, 0, None, 0),
];

/// A core tells of the places of a kind what a row says.
fn check_kind(rt: &impl Abort, core: &Core, row: &Row) {
    let Row(kind, first, many, found, count) = row;
    let (first, many) = (first % SEGMENT_PLACES, many % (SEGMENT_PLACES + 1));
    assert_eq!(rt;
        core.first_of(*kind, first, many)
            .map(|place| place.number()),
        *found
    );
    assert_eq!(rt; core.count(*kind, first, many), *count);
    if let Some(number) = found {
        assert!(rt; core.is_kind(*kind, place_at(number % SEGMENT_PLACES)));
    }
}

// The first of a kind is found, and each is counted.
#[test]
fn places_of_each_kind(rt: HostRuntime) {
    let core = used(&rt, rt.alloc());
    for row in &ROWS {
        check_kind(&rt, &core, row);
    }
    drop(core);
}

/// Nothing is told of a worker, a tenant and a segment of these numbers.
fn check_lacked(rt: &impl Abort, core: &Core, number: u8) {
    assert!(rt; core.holder(number).is_none() && !core.holds(0, number) && !core.holds(number, 0));
    assert!(rt; core.charge(number, 0) == 0 && core.charge(0, number) == 0);
    assert!(rt; core.block_places(number, 0) == 0 && core.page_class(number, 0).is_none());
    assert!(rt; core.block_places(0, number) == 0 && core.page_class(0, number).is_none());
    assert!(rt; core.hand(number).is_none());
}

// A core tells nothing of numbers that its policy lacks, nor of a place that it lacks.
#[test]
fn numbers_that_the_policy_lacks(rt: HostRuntime) {
    let core = used(&rt, rt.alloc());
    for number in [16, 63, 64, 255] {
        check_lacked(&rt, &core, number);
    }
    let record = core.record(place_at(MAX_SEGMENTS * SEGMENT_PLACES - 1));
    assert!(&rt; record.generation == 0 && record.life == PlaceLife::Home);
    drop(core);
}

//! Parts that public calls have damaged, and the fault that an audit tells.

ghost use Rattle.std.specs.Prelude.{IsTrue};
ghost use Rattle.hg_audit.specs.Handed.{IsComplete};

use crate::tests::asked::{Asked, Block, Row, Told};
use crate::tests::each_step::{opened, serve};
use crate::tests::policies::{LARGE_BLOCKS, ONE_LIFE, OTHER_ARENAS, policy_of};
use crate::tests::runs::{ALICE, MAIN, X};
use hg_core::{AuditFault, Core, Parts};
use hg_place::{Place, PlainWords};
use hg_pool::Pool;
use hg_segment::Segment;
use std::alloc::Global;
use std::process::Abort;

/// A place by its segment, its page and its index there.
#[derive(Clone, Copy)]
struct At(u8, u8, u16);

/// What is done to parts.
#[derive(Clone, Copy)]
enum Damage {
    /// A segment is taken out of the pool.
    Picked(u8),
    /// Another segment of that number is put into the pool.
    Twin(u8),
    /// The policy gives segment 1 to the other arena.
    OtherArenas,
    /// The policy lets places be given out once.
    FewerLives,
    /// A place goes onto its segment's remote list.
    Sent(At),
    /// A worker's hand has this place.
    InHand(usize, At),
    /// A worker's hand has nothing.
    Emptied(usize),
}

/// What an audit tells.
#[derive(Clone, Copy)]
enum Found {
    Segment(u8),
    Place(At),
}

/// A place.
fn place(rt: &impl Abort, at: At) -> Place {
    let At(segment, page, index) = at;
    assert!(rt; segment < 64);
    assert!(rt; page < 16 && index < 512);
    Place {
        segment,
        page,
        index,
    }
}

/// Of page 0 the place is live in its second life; of page 1 the second place is on the remote list
/// of segment 0, the first in the hand of worker 1, and the others are home; and a live block lies
/// over the pages 2 and 3.
static USED: [Row; 10] = [
    Row(0, Asked::Refill(MAIN), Told::Refilled(0)),
    Row(0, Asked::Alloc(ALICE, 4096), Told::Block(0, 0, 1)),
    Row(0, Asked::Free(ALICE, X), Told::Done),
    Row(0, Asked::Alloc(ALICE, 4096), Told::Block(0, 0, 2)),
    Row(0, Asked::Alloc(ALICE, 24), Told::Block(1, 0, 1)),
    Row(0, Asked::Alloc(ALICE, 24), Told::Block(1, 1, 1)),
    Row(0, Asked::Alloc(ALICE, 8192), Told::Block(2, 0, 1)),
    Row(1, Asked::Free(ALICE, Block(1, 1, 1)), Told::Parted),
    Row(1, Asked::Deliver, Told::Done),
    Row(1, Asked::Free(ALICE, Block(1, 0, 1)), Told::Parted),
];

/// The parts of a core whose worker 0 holds segment 0, after those events.
fn parts(rt: &impl Abort, alloc: Global) -> Parts {
    let mut core = opened(rt, alloc, LARGE_BLOCKS);
    for row in &USED {
        serve(rt, &mut core, row);
    }
    core.into_parts()
}

/// Takes a segment out of the pool.
fn pick(rt: &impl Abort, parts: &mut Parts, segment: u8) {
    assert!(rt; parts.pool.pick(segment).is_some());
}

/// Puts a segment into the pool.
fn put(rt: &impl Abort, pool: &mut Pool<PlainWords>, segment: Segment<PlainWords>) {
    let number = segment.number();
    if pool.has(number) {
        panic!(rt; "segment {number} is there already");
    }
    pool.put_fresh(segment);
}

/// Puts another segment of that number into the pool.
fn put_twin(rt: &impl Abort, alloc: Global, parts: &mut Parts, segment: u8) {
    assert!(rt; segment < 64);
    let greatest = parts.policy.max_generation();
    let slots = PlainWords::new(alloc, segment).expect(rt, "memory");
    let twin = Segment::new(alloc, segment, 0, greatest, slots).expect(rt, "memory");
    put(rt, &mut parts.pool, twin);
}

/// Puts a place onto its segment's remote list.
fn send(rt: &impl Abort, parts: &mut Parts, place: Place) {
    let segment = usize::from(place.segment);
    assert!(rt; segment < parts.remotes.len());
    assert!(rt; parts.remotes[segment].push(place.page, place.index).is_ok());
}

/// Puts into a worker's hand what may be there.
fn fill(rt: &impl Abort, parts: &mut Parts, worker: usize, hand: Option<Place>) {
    assert!(rt; worker < parts.hands.len());
    assert!(rt; parts.hands[worker] != hand);
    parts.hands[worker] = hand;
}

/// Damages parts.
fn inflict(rt: &impl Abort, alloc: Global, parts: &mut Parts, damage: Damage) {
    match damage {
        Damage::Picked(segment) => pick(rt, parts, segment),
        Damage::Twin(segment) => put_twin(rt, alloc, parts, segment),
        Damage::OtherArenas => parts.policy = policy_of(rt, alloc, OTHER_ARENAS),
        Damage::FewerLives => parts.policy = policy_of(rt, alloc, ONE_LIFE),
        Damage::Sent(at) => send(rt, parts, place(rt, at)),
        Damage::InHand(worker, at) => fill(rt, parts, worker, Some(place(rt, at))),
        Damage::Emptied(worker) => fill(rt, parts, worker, None),
    }
}

/// Whether there are as many heaps and hands as workers, and as many remote lists as segments.
fn are_complete(parts: &Parts) -> bool
    ensures { IsTrue result → IsComplete parts.now }
{
    let workers = usize::from(parts.policy.workers());
    parts.heaps.len() == workers
        && parts.hands.len() == workers
        && parts.remotes.len() == usize::from(parts.policy.segments())
}

/// The fault that an audit tells of parts, which come back.
fn refused(rt: &impl Abort, alloc: Global, parts: Parts) -> (Parts, AuditFault) {
    assert!(rt; are_complete(&parts));
    match Core::audit(alloc, parts) {
        Ok(core) => {
            drop(core);
            panic!(rt; "no fault")
        }
        Err(refused) => refused,
    }
}

/// The fault that is told.
fn fault(rt: &impl Abort, told: Found) -> AuditFault {
    match told {
        Found::Segment(segment) => AuditFault::Segment(segment),
        Found::Place(at) => AuditFault::Place(place(rt, at)),
    }
}

/// Of damaged parts an audit tells this fault, and tells it again of the parts that come back.
fn tells(rt: &impl Abort, alloc: Global, case: &Case) {
    let Case(done, told) = case;
    let mut damaged = parts(rt, alloc);
    for damage in *done {
        inflict(rt, alloc, &mut damaged, *damage);
    }
    let (damaged, once) = refused(rt, alloc, damaged);
    assert_eq!(rt; once, fault(rt, *told));
    let (damaged, again) = refused(rt, alloc, damaged);
    assert_eq!(rt; again, once);
    drop(damaged);
}

/// What is done to the parts, and what an audit tells.
struct Case(&'static [Damage], Found);

/// The places of the parts that are live, in a hand, sent, and home; one of a page that a block
/// covers; and one of a segment that the policy lacks.
const LIVE: At = At(0, 0, 0);

const HELD: At = At(0, 1, 0);

const SENT: At = At(0, 1, 1);

const HOME: At = At(0, 1, 2);

const COVERED: At = At(0, 3, 0);

const BEYOND: At = At(63, 15, 511);

/// One kind of damage each; then two at once: the lowest segment is told before any place, and the
/// lowest place.
static CASES: [Case; 20] = [
    Case(&[Damage::Picked(1)], Found::Segment(1)),
    Case(&[Damage::Picked(2)], Found::Segment(2)),
    Case(&[Damage::Twin(0)], Found::Segment(0)),
    Case(&[Damage::Twin(5)], Found::Segment(5)),
    Case(&[Damage::OtherArenas], Found::Segment(1)),
    Case(&[Damage::FewerLives], Found::Segment(0)),
    Case(&[Damage::Sent(LIVE)], Found::Place(LIVE)),
    Case(&[Damage::Sent(HELD)], Found::Place(HELD)),
    Case(&[Damage::InHand(0, HOME)], Found::Place(HOME)),
    Case(&[Damage::InHand(0, HELD)], Found::Place(HELD)),
    Case(&[Damage::InHand(0, COVERED)], Found::Place(COVERED)),
    Case(&[Damage::Emptied(1)], Found::Place(HELD)),
    Case(&[Damage::InHand(0, BEYOND)], Found::Place(BEYOND)),
    Case(&[Damage::Picked(2), Damage::Twin(0)], Found::Segment(0)),
    Case(&[Damage::Sent(LIVE), Damage::Picked(1)], Found::Segment(1)),
    Case(
        &[Damage::InHand(0, SENT), Damage::Sent(LIVE)],
        Found::Place(LIVE),
    ),
    Case(
        &[Damage::InHand(0, BEYOND), Damage::Emptied(1)],
        Found::Place(HELD),
    ),
    Case(
        &[Damage::InHand(0, COVERED), Damage::Sent(HOME)],
        Found::Place(HOME),
    ),
    Case(
        &[Damage::InHand(0, At(2, 3, 4)), Damage::Sent(At(1, 15, 511))],
        Found::Place(At(1, 15, 511)),
    ),
    Case(
        &[Damage::InHand(0, At(40, 0, 0)), Damage::Sent(At(2, 0, 511))],
        Found::Place(At(2, 0, 511)),
    ),
];

// Each kind of damage is told, and the lower of two.
#[test]
fn damaged_parts(rt: HostRuntime) {
    for case in &CASES {
        tells(&rt, rt.alloc(), case);
    }
}

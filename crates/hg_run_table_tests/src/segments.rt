//! The seat of a segment, to which that of a worker is lent.

ghost use Rattle.std.specs.Prelude.{◌≡◌, length};

use crate::policies::policy;
use hg_place::{SlotWords, place_at};
use hg_policy::Policy;
use hg_run_table::{RunSegment, RunTable};
use std::alloc::{AllocError, Global};
use std::marker::Brand;
use std::sync::Arc;

/// The word of the last place, as the seat of its segment finds it in a look that answers nothing, as a
/// worker meets it there, and as the seat finds it in a look that answers a Collect, which that worker is
/// asked, part of whose seat is lent to it.
fn lent(alloc: Global, policy: &Policy) -> Result<[u64; 3], AllocError>
    requires segments { length policy.now.segments ≡ 2 }
    requires workers { policy.now.workers ≡ 2 }
{
    let (table, mut seats) = RunTable::open(alloc, policy)?;
    let Some(mut worker) = seats.workers.pop() else {
        unreachable!()
    };
    let Some(seat) = seats.segments.pop() else {
        unreachable!()
    };
    let table = Arc::new(alloc, table)?;
    let mut slots = RunSegment::new(alloc, &table, seat, 1)?;
    let place = place_at(16_383);
    let rests = slots.look(place);
    let mut call = table.split::<Brand>(&mut worker);
    let met = slots.meet(&mut worker, place);
    table.ask::<Brand>(&mut call);
    slots.lend(call);
    let answered = slots.look(place);
    let call = slots.give_back();
    let mut seat = slots.into_seat();
    table.join(&mut seat, call);
    table.join(&mut seat, worker);
    Ok([rests, met, answered])
}

#[test]
fn a_segments_seat_answers_what_a_worker_is_asked(rt: HostRuntime) {
    let alloc = rt.alloc();
    let policy = policy(alloc).ok().expect(&rt, "a policy");
    assert!(&rt; policy.segments() == 2);
    assert!(&rt; policy.workers() == 2);
    let read = lent(alloc, &policy).ok().expect(&rt, "memory");
    assert_eq!(&rt; read, [0, 0, 0]);
}

// The same, where memory may be refused: for a run in which requests are refused in turn.
#[test]
fn run_segment_refused_in_turn(rt: HostRuntime) {
    let alloc = rt.alloc();
    let Ok(policy) = policy(alloc) else {
        return;
    };
    assert!(&rt; policy.segments() == 2);
    assert!(&rt; policy.workers() == 2);
    let Ok(read) = lent(alloc, &policy) else {
        return;
    };
    assert_eq!(&rt; read, [0, 0, 0]);
}

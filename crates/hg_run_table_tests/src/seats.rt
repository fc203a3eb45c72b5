//! A table with a seat for each part of the service.

ghost use Rattle.std.specs.Prelude.{◌≡◌, length};

use crate::policies::policy;
use hg_place::place_at;
use hg_policy::Policy;
use hg_run_table::RunTable;
use std::alloc::{AllocError, Global};
use std::marker::Brand;

/// The word of the last place, as a seat of each kind reads it, and at the end.
fn words(alloc: Global, policy: &Policy) -> Result<[u64; 5], AllocError>
    requires segments { length policy.now.segments ≡ 2 }
    requires workers { policy.now.workers ≡ 2 }
{
    let (table, mut seats) = RunTable::open(alloc, policy)?;
    let by_worker = table.look(&mut seats.workers[1], place_at(16_383));
    let by_list = table.look(&mut seats.lists[1], place_at(16_383));
    let by_segment = table.look(&mut seats.segments[1], place_at(16_383));
    let by_pool = table.look(&mut seats.pool, place_at(16_383));
    let closed = table.close(seats.pool);
    let at_the_end = closed.word(16_384);
    closed.free();
    Ok([by_worker, by_list, by_segment, by_pool, at_the_end])
}

/// The word of the last place as the seat of a worker takes it home, which took in the seat of its
/// segment, as that seat reads it then, and as it reads it when it answers a Collect, which it is asked.
fn taken(alloc: Global, policy: &Policy) -> Result<[u64; 3], AllocError>
    requires segments { length policy.now.segments ≡ 2 }
    requires workers { policy.now.workers ≡ 2 }
{
    let (table, mut seats) = RunTable::open(alloc, policy)?;
    let Some(mut seat) = seats.workers.pop() else {
        unreachable!()
    };
    let Some(segment) = seats.segments.pop() else {
        unreachable!()
    };
    table.join(&mut seat, segment);
    let taken = table.take::<Brand>(&mut seat, place_at(16_383));
    let read = table.look(&mut seat, place_at(16_383));
    table.ask::<Brand>(&mut seat);
    let answered = table.look_asked(&mut seat, place_at(16_383));
    table.close(seat).free();
    Ok([taken, read, answered])
}

#[test]
fn each_part_has_a_seat(rt: HostRuntime) {
    let alloc = rt.alloc();
    let policy = policy(alloc).ok().expect(&rt, "a policy");
    assert!(&rt; policy.segments() == 2);
    assert!(&rt; policy.workers() == 2);
    let read = words(alloc, &policy).ok().expect(&rt, "memory");
    assert_eq!(&rt; read, [0, 0, 0, 0, 0]);
}

#[test]
fn seats_of_two_parts_take_home_and_answer(rt: HostRuntime) {
    let alloc = rt.alloc();
    let policy = policy(alloc).ok().expect(&rt, "a policy");
    assert!(&rt; policy.segments() == 2);
    assert!(&rt; policy.workers() == 2);
    let read = taken(alloc, &policy).ok().expect(&rt, "memory");
    assert_eq!(&rt; read, [0, 0, 0]);
}

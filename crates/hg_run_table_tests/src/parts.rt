//! Seats are cut and joined, and the table ends.

ghost use Rattle.std.specs.Prelude.{◌≡◌, length};

use crate::policies::policy;
use hg_place::place_at;
use hg_policy::Policy;
use hg_run_table::RunTable;
use std::alloc::Global;
use std::marker::Brand;
use std::process::Abort;

/// The words of the first and the last place, and of the spare one and the last place at the end.
fn words(rt: &impl Abort, alloc: Global, policy: &Policy) -> [u64; 4]
    requires { length policy.now.segments ≡ 2 }
{
    let (table, mut seat) = RunTable::new(alloc, policy).expect(rt, "memory");
    let mut others = table.split::<Brand>(&mut seat);
    let first = table.look(&mut seat, place_at(0));
    let last = table.look(&mut others, place_at(16_383));
    table.join(&mut seat, others);
    let closed = table.close(seat);
    let spare = closed.word(0);
    let last_at_the_end = closed.word(16_384);
    closed.free();
    [first, last, spare, last_at_the_end]
}

#[test]
fn parts_are_cut_and_joined(rt: HostRuntime) {
    let alloc = rt.alloc();
    let policy = policy(alloc).ok().expect(&rt, "a policy");
    assert!(&rt; policy.segments() == 2);
    assert_eq!(&rt; words(&rt, alloc, &policy), [0, 0, 0, 0]);
}

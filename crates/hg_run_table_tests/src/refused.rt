//! A table, where memory may be refused.

use crate::policies::policy;
use hg_run_table::RunTable;

// The table is there, or memory was refused: for a run in which requests are refused in turn.
#[test]
fn run_table_refused_in_turn(rt: HostRuntime) {
    let alloc = rt.alloc();
    let Ok(policy) = policy(alloc) else {
        return;
    };
    let Ok((table, seat)) = RunTable::new(alloc, &policy) else {
        return;
    };
    let closed = table.close(seat);
    assert_eq!(&rt; closed.word(0), 0);
    closed.free();
}

// The same of a table with a seat for each part.
#[test]
fn run_seats_refused_in_turn(rt: HostRuntime) {
    let alloc = rt.alloc();
    let Ok(policy) = policy(alloc) else {
        return;
    };
    let Ok((table, seats)) = RunTable::open(alloc, &policy) else {
        return;
    };
    let closed = table.close(seats.pool);
    assert_eq!(&rt; closed.word(0), 0);
    closed.free();
}

//! A worker and its calls, where memory may be refused.

use crate::calls::served;
use crate::policies::policy;

// Each call is answered as it must be, or memory was refused: for a run in which requests are refused in
// turn.
#[test]
fn run_worker_refused_in_turn(rt: HostRuntime) {
    let alloc = rt.alloc();
    let Ok(policy) = policy(alloc) else {
        return;
    };
    assert!(&rt; policy.segments() == 2);
    assert!(&rt; policy.workers() == 2);
    let Ok(other) = served(alloc, &policy) else {
        return;
    };
    assert_eq!(&rt; other, None);
}

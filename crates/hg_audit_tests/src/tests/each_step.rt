//! Cores that are taken apart after each event, and made again.

use crate::tests::asked::{Row, answer, event};
use crate::tests::policies::policy_of;
use crate::tests::runs::{RUNS, Run};
use hg_core::{AuditFault, AuditRoom, Core, Parts};
use hg_machine::{Answer, Event};
use std::alloc::Global;
use std::process::Abort;

/// A core that just opened.
pub fn opened(rt: &impl Abort, alloc: Global, text: &str) -> Core {
    Core::open(alloc, policy_of(rt, alloc, text)).expect(rt, "memory")
}

/// What a core answers to an event of one of its workers.
fn step(rt: &impl Abort, core: &mut Core, worker: u8, event: Event) -> Answer {
    assert!(rt; worker < core.policy().workers());
    core.step(worker, event)
}

/// The event of a row is answered as the row says.
pub fn serve(rt: &impl Abort, core: &mut Core, row: &Row) {
    let Row(worker, asked, told) = row;
    let event = event(rt, *asked);
    assert_eq!(rt;
        step(rt, core, *worker, event),
        answer(rt, *told),
        "{event:?}"
    );
}

/// The core that an audit makes.
fn made(rt: &impl Abort, audited: Result<Core, (Parts, AuditFault)>) -> Core {
    match audited {
        Ok(core) => core,
        Err(refused) => {
            drop(refused);
            panic!(rt; "a fault")
        }
    }
}

/// A core is taken apart and made again, in room that is asked for, and then in room that was made
/// before.
fn made_again(rt: &impl Abort, alloc: Global, core: Core) -> Core {
    let core = made(rt, Core::audit(alloc, core.into_parts()));
    let parts = core.into_parts();
    let room = AuditRoom::new(alloc, &parts.policy).expect(rt, "memory");
    made(rt, Core::audit_in(room, parts))
}

/// The events of a run are answered as its rows say, by a core that is taken apart after each of
/// them, and by one that isn't.
fn goes_on(rt: &impl Abort, alloc: Global, run: &Run) {
    let mut other = opened(rt, alloc, run.policy);
    let mut core = made_again(rt, alloc, opened(rt, alloc, run.policy));
    for row in run.rows {
        serve(rt, &mut other, row);
        serve(rt, &mut core, row);
        core = made_again(rt, alloc, core);
    }
    drop(core);
    drop(other);
}

// After each event of each list the core is taken apart, audited without a fault, and made again.
#[test]
fn audit_each_step(rt: HostRuntime) {
    for run in &RUNS {
        goes_on(&rt, rt.alloc(), run);
    }
}

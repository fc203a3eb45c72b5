//! Runs of many events in one call.

ghost use Rattle.std.specs.Prelude.{◌<◌, IsTrue, All};

use crate::tests::asked::{Asked, Row, answer, event};
use crate::tests::each_step::opened;
use crate::tests::policies::TWO_WORKERS;
use crate::tests::runs::{ALICE, MAIN, RUNS, Run, X};
use hg_core::Core;
use hg_machine::{Answer, Event};
use std::alloc::Global;
use std::process::Abort;

/// Whether each event is one of a worker of the core.
fn are_of_workers(core: &Core, events: &[(u8, Event)]) -> bool
    ensures { IsTrue result
        → All (λ event. event.0 < core.now.state.policy.workers) events.now }
{
    let workers = core.policy().workers();
    events.iter().all(|event| event.0 < workers)
}

/// What a core that just opened answers to these events, each of which must be one of a worker.
fn answers(rt: &impl Abort, alloc: Global, policy: &str, events: &[(u8, Event)]) -> Vec<Answer> {
    let mut core = opened(rt, alloc, policy);
    assert!(rt; are_of_workers(&core, events));
    let answers = core.run(alloc, events).expect(rt, "memory");
    drop(core);
    answers
}

/// All events of a list in one call are answered as its rows say.
fn meets(rt: &impl Abort, alloc: Global, run: &Run) {
    let mut events = Vec::new(alloc);
    for Row(worker, asked, _) in run.rows {
        let event = event(rt, *asked);
        events.push((*worker, event)).expect(rt, "memory");
    }
    let answers = answers(rt, alloc, run.policy, &events);
    assert_eq!(rt; answers.len(), run.rows.len());
    for (number, (given, row)) in answers.iter().zip(run.rows).enumerate() {
        assert_eq!(rt; *given, answer(rt, row.2), "event {number}");
    }
    drop(answers);
    drop(events);
}

#[test]
fn runs_are_answered(rt: HostRuntime) {
    for run in &RUNS {
        meets(&rt, rt.alloc(), run);
    }
}

/// How often the block of a long run is written.
const TIMES: u64 = 50_000;

/// A block is given out, and a word of it is written and read in turn.
fn long_run(rt: &impl Abort, alloc: Global) -> Vec<(u8, Event)> {
    let mut events = Vec::new(alloc);
    for asked in [Asked::Refill(MAIN), Asked::Alloc(ALICE, 24)] {
        events.push((0, event(rt, asked))).expect(rt, "memory");
    }
    for value in 0..TIMES {
        for asked in [Asked::Write(ALICE, X, 2, value), Asked::Read(ALICE, X, 2)] {
            events.push((0, event(rt, asked))).expect(rt, "memory");
        }
    }
    events
}

// 100,002 events in one call.
#[test]
fn long_run_is_answered(rt: HostRuntime) {
    let events = long_run(&rt, rt.alloc());
    let answers = answers(&rt, rt.alloc(), TWO_WORKERS, &events);
    assert_eq!(&rt; answers.len(), events.len());
    for (number, told) in answers.iter().skip(2).enumerate() {
        let wanted = if number % 2 == 0 {
            Answer::Done
        } else {
            Answer::Value(number as u64 / 2)
        };
        assert_eq!(&rt; *told, wanted, "event {number}");
    }
    drop(answers);
    drop(events);
}

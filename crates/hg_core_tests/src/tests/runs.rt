//! Runs of many events in one call.

ghost use Rattle.std.specs.Prelude.{◌<◌, IsTrue, All};

use hg_core::Core;
use hg_machine::{Answer, Event};
use hg_place::Actor;
use hg_policy_text::{PolicyFault, read_policy};
use std::alloc::{AllocError, Global};
use std::process::Abort;

/// One worker, one tenant and one segment.
static POLICY: &str = "version = 1
workers = 1
tenant = [ {name = \"alice\", limit = 64} ]
arena = [ {name = \"main\", segments = 1} ]
";

/// Whether each event is one of a worker of the core.
fn are_of_workers(core: &Core, events: &[(u8, Event)]) -> bool
    ensures { IsTrue result
        → All (λ event. event.0 < core.now.state.policy.workers) events.now }
{
    let workers = core.policy().workers();
    events.iter().all(|event| event.0 < workers)
}

/// What a core answers to all events at once, in room of the caller.
fn run_in(rt: &impl Abort, core: &mut Core, events: &[(u8, Event)], answers: &mut [Answer]) {
    assert!(rt; are_of_workers(core, events));
    assert!(rt; answers.len() == events.len());
    core.run_in(events, answers);
}

/// What a core answers to all events at once, in room that it asks for.
fn run(
    rt: &impl Abort,
    alloc: Global,
    core: &mut Core,
    events: &[(u8, Event)],
) -> Result<Vec<Answer>, AllocError> {
    assert!(rt; are_of_workers(core, events));
    core.run(alloc, events)
}

/// A core that just opened.
fn opened(alloc: Global) -> Result<Core, PolicyFault> {
    let policy = read_policy(alloc, POLICY.as_bytes())?;
    Ok(Core::open(alloc, policy)?)
}

/// The events of a worker that takes a segment, is denied a block, and gives the segment up.
fn few_events() -> [(u8, Event); 3] {
    let actor = Actor(255);
    [
        (0, Event::Refill { arena: 0 }),
        (
            0,
            Event::Alloc {
                actor,
                arena: 0,
                bytes: 8,
            },
        ),
        (0, Event::Abandon { segment: 0 }),
    ]
}

/// Whether these are the answers to those events.
fn are_answers(answers: &[Answer]) -> bool {
    matches!(
        answers,
        [Answer::Refilled(0), Answer::Denied(_), Answer::Done]
    )
}

/// Runs the events twice on one core: asking for room, which may be refused, and without. Whether
/// there was room.
fn ran_twice(rt: &impl Abort, alloc: Global) -> Result<bool, PolicyFault> {
    let events = few_events();
    let mut answers = [Answer::Busy; 3];
    let mut core = opened(alloc)?;
    let first = run(rt, alloc, &mut core, &events);
    let had_room = first.is_ok();
    if let Ok(first) = first {
        assert!(rt; are_answers(&first));
        drop(first);
    }
    run_in(rt, &mut core, &events, &mut answers);
    drop(core);
    assert!(rt; are_answers(&answers));
    Ok(had_room)
}

// Both runs are answered in full.
#[test]
fn runs_are_answered(rt: HostRuntime) {
    let had_room = ran_twice(&rt, rt.alloc()).expect(&rt, "a core");
    assert!(&rt; had_room);
}

// A run that is refused memory serves nothing; one in room of the caller asks for none, and is
// answered in full.
#[test]
fn run_refused_in_turn(rt: HostRuntime) {
    if let Err(fault) = ran_twice(&rt, rt.alloc()) {
        assert!(&rt; matches!(fault, PolicyFault::Memory));
    }
}

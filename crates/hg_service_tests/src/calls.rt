//! The calls of a worker and of a core, by the event's name: in functions without clauses, so that
//! none of what a call does is carried to the next.

use crate::asked::{self, Asked, Told};
use hg_core::Core;
use hg_machine::{Answer, Event};
use hg_service::{CallerLocked, Worker};
use hg_worker::ServiceName;
use std::process::Abort;
use std::sync::Wait;

/// What a worker answers that needs nothing of what is shared.
fn by_itself<N: ServiceName>(worker: &mut hg_worker::Worker<N>, event: Event) -> Option<Answer> {
    match event {
        Event::Alloc {
            actor,
            arena,
            bytes,
        } => Some(worker.alloc(actor, arena, bytes)),
        Event::Free { actor, handle } => Some(worker.free(actor, handle)),
        Event::Collect => Some(worker.collect_own()),
        Event::Read {
            actor,
            handle,
            index,
        } => Some(worker.read(actor, handle, index)),
        Event::Write {
            actor,
            handle,
            index,
            value,
        } => Some(worker.write(actor, handle, index, value)),
        Event::Look { actor, place } => Some(worker.look(actor, place)),
        _ => None,
    }
}

/// What a worker of a service answers.
pub fn by_worker<N: ServiceName, R: Wait>(
    rt: &R,
    worker: &mut Worker<N>,
    event: Event,
) -> Option<Answer> {
    match event {
        Event::Deliver => Some(worker.deliver(rt)),
        Event::Take { segment } => Some(worker.take(rt, segment)),
        Event::Abandon { segment } => Some(worker.abandon(rt, segment)),
        Event::Refill { arena } => Some(worker.refill(rt, arena)),
        _ => by_itself(&mut worker.own, event),
    }
}

/// What a worker among the parts of a service answers, on the list of the segment that it means.
pub fn by_parts<N: ServiceName>(
    parts: &mut CallerLocked<N>,
    number: u8,
    event: Event,
) -> Option<Answer> {
    let worker = parts.workers.get_mut(usize::from(number))?;
    match event {
        Event::Deliver => {
            let segment = worker.hand()?.segment;
            Some(parts.lists.get_mut(usize::from(segment))?.deliver(worker))
        }
        Event::Take { segment } => { Some(parts.lists.get_mut(usize::from(segment))?.take(worker)) }
        Event::Abandon { segment } => Some(worker.abandon_to(segment, &mut parts.pool)),
        Event::Refill { arena } => Some(worker.refill_from(arena, &mut parts.pool)),
        _ => by_itself(worker, event),
    }
}

/// A worker must answer so.
pub fn answers<N: ServiceName, R: Wait + Abort>(
    rt: &R,
    worker: &mut Worker<N>,
    asked: Asked,
    wanted: Told,
) {
    let told = by_worker(rt, worker, asked::event(rt, asked));
    assert_eq!(rt; told, Some(asked::answer(rt, wanted)));
}

/// Whether a core answers its first worker so.
pub fn is_told(rt: &impl Abort, core: &mut Core, asked: Asked, wanted: Told) -> bool {
    assert!(rt; 0 < core.policy().workers());
    core.step(0, asked::event(rt, asked)) == asked::answer(rt, wanted)
}

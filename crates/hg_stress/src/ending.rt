//! How a service ends, and what lives in the core that it becomes.

use crate::shared::Shared;
use hg_close::CloseFault;
use hg_core::Core;
use hg_machine::{Answer, Event, Row, Rule};
use hg_place::{Actor, MAX_SEGMENTS, Place, SEGMENT_PLACES, place_at};
use hg_service::{Service, Unclosed};
use hg_worker::ServiceName;
use std::alloc::{AllocError, Global};
use std::sync::Wait;

/// What became of a service that was to close.
#[derive(Clone, Copy)]
pub enum Ending {
    /// It is a core with so many live blocks.
    Closed(u64),
    /// It is a core in which another life goes on at a place than that which was begun last.
    Differs(Place),
    /// It goes on, since a segment isn't in the pool.
    Held(u8),
    /// It goes on, since a worker hasn't left.
    Out(u8),
    /// A block is lost.
    Lost(Place),
}

/// Closes a service, and looks at the core. An error is that it asked for memory in vain.
pub fn end<N: ServiceName, R: Wait>(
    rt: &R,
    alloc: Global,
    service: Service<N>,
    shared: &Shared,
) -> Result<Ending, AllocError> {
    match service.close(rt, alloc) {
        Ok(mut core) => {
            let ending = ended(&mut core, shared);
            drop(core);
            Ok(ending)
        }
        Err(Unclosed::Running(service, fault)) => {
            drop(service);
            why_running(fault)
        }
        Err(Unclosed::Lost(place, parts)) => {
            drop(parts);
            Ok(Ending::Lost(place))
        }
    }
}

fn why_running(fault: CloseFault) -> Result<Ending, AllocError> {
    match fault {
        CloseFault::StillHeld(segment) => Ok(Ending::Held(segment)),
        CloseFault::StillOut(worker) => Ok(Ending::Out(worker)),
        CloseFault::Memory => Err(AllocError),
    }
}

/// What a core answers its first worker.
fn answered(core: &mut Core, event: Event) -> Option<Answer> {
    if core.policy().workers() == 0 {
        return None;
    }
    Some(core.step(0, event))
}

/// The first worker takes all segments.
fn hold_all(core: &mut Core) {
    for arena in 0..core.policy().arenas() {
        for _ in 0..core.policy().segments() {
            let _ = answered(core, Event::Refill { arena });
        }
    }
}

/// The block that lives at a place, as its owner is shown it.
fn row_at(core: &mut Core, place: Place) -> Option<Row> {
    for tenant in 0..core.policy().tenants() {
        let actor = Actor(tenant);
        match answered(core, Event::Look { actor, place }) {
            Some(Answer::Listed(row)) => return Some(row),
            Some(Answer::Denied(Rule::Forbidden | Rule::NotGranted)) => {}
            _ => return None,
        }
    }
    None
}

/// What lives in a core, place by place beside the lives that were begun and ended.
fn ended(core: &mut Core, shared: &Shared) -> Ending {
    hold_all(core);
    let mut count = 0u64;
    for number in 0..usize::from(core.policy().segments()).min(MAX_SEGMENTS) * SEGMENT_PLACES {
        let place = place_at(number);
        let row = row_at(core, place);
        if row.map(|row| row.handle.generation) != shared.lives.goes_on(place) {
            return Ending::Differs(place);
        }
        if row.is_some() {
            count = count.wrapping_add(1);
        }
    }
    Ending::Closed(count)
}

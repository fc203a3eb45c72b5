//! What a service, or its parts, become as they close, and steps on that.

ghost use Rattle.std.specs.Prelude.{IsTrue};
ghost use Rattle.hg_audit.specs.Handed.{IsComplete};

use crate::asked::{Asked, Block, MAIN, Told, handle};
use crate::calls::is_told;
use crate::used_up::UsedUp;
use hg_close::CloseFault;
use hg_core::{AuditFault, Core, Parts};
use hg_place::Place;
use std::alloc::Global;
use std::process::Abort;

/// How it ends where a service, or its parts, are asked to close.
#[derive(Clone, Copy, PartialEq, Eq)]
pub enum Ended {
    /// There is a core.
    Closed,
    /// They go on, for this reason.
    GoesOn(CloseFault),
    /// A place is lost, and there are the parts of a core.
    Lost(Place),
}

/// A step on what there is then, and what must come of it.
pub enum Then {
    /// The core answers an event of worker 0 so.
    Answers(Asked, Told),
    /// Worker 0 of the core takes as many segments as this one after the other, and then in each of
    /// them the one place that was sent there.
    TakesInEach(u8),
    /// The place of a block of segment 0 is put on that segment's list.
    Puts(Block),
    /// An audit of the parts tells that the place of a block is lost.
    Loses(Block),
    /// The parts become a core.
    Closes,
    /// The core is taken apart, and an audit of its parts without segment 0 tells that this is missing;
    /// or, where memory was used up before, that first.
    LacksSegment0,
}

/// The core, or the parts of one, or nothing yet.
#[derive(Drop)]
pub struct After {
    pub core: Option<Core>,
    pub parts: Option<Parts>,
}

/// Whether there are as many heaps and hands as workers, and as many remote lists as segments.
fn are_complete(parts: &Parts) -> bool
    ensures { IsTrue result → IsComplete parts.now }
{
    let workers = usize::from(parts.policy.workers());
    parts.heaps.len() == workers
        && parts.hands.len() == workers
        && parts.remotes.len() == usize::from(parts.policy.segments())
}

impl After {
    /// Before anything has closed.
    pub fn nothing() -> After {
        After {
            core: None,
            parts: None,
        }
    }

    /// Makes a core of the parts, or tells the first fault, where there are parts.
    fn audit(&mut self, rt: &impl Abort, alloc: Global) -> Option<Result<(), AuditFault>> {
        let parts = self.parts.take()?;
        assert!(rt; are_complete(&parts));
        match Core::audit(alloc, parts) {
            Ok(core) => {
                self.core = Some(core);
                Some(Ok(()))
            }
            Err((parts, fault)) => {
                self.parts = Some(parts);
                Some(Err(fault))
            }
        }
    }

    /// Whether segment 0 is missed in an audit, or memory first where that was used up.
    fn is_missed(&mut self, rt: &(impl Abort + Print), alloc: Global) -> bool {
        let Some(core) = self.core.take() else {
            return false;
        };
        let mut parts = core.into_parts();
        drop(parts.pool.pick(0));
        self.parts = Some(parts);
        let used = UsedUp::take(rt, alloc);
        let first = match used.is_all {
            true => AuditFault::Memory,
            false => AuditFault::Segment(0),
        };
        let told = self.audit(rt, alloc);
        drop(used);
        told == Some(Err(first)) && self.audit(rt, alloc) == Some(Err(AuditFault::Segment(0)))
    }

    /// Whether the core answers its first worker so.
    fn is_told(&mut self, rt: &impl Abort, asked: Asked, wanted: Told) -> bool {
        match &mut self.core {
            Some(core) => is_told(rt, core, asked, wanted),
            None => false,
        }
    }

    /// Whether so many segments come to worker 0, and in each of them a place comes home.
    fn is_taken_in(&mut self, rt: &impl Abort, count: u8) -> bool {
        for segment in 0..count {
            if !self.is_told(rt, Asked::Refill(MAIN), Told::Refilled(segment)) {
                return false;
            }
        }
        for segment in 0..count {
            if !self.is_told(rt, Asked::Take(segment), Told::Taken(1)) {
                return false;
            }
        }
        true
    }

    /// A place comes on the first remote list of the parts. Whether it wasn't there.
    fn is_put(&mut self, place: Place) -> bool {
        let Some(parts) = &mut self.parts else {
            return false;
        };
        match parts.remotes.first_mut() {
            Some(list) => list.push(place.page, place.index).is_ok(),
            None => false,
        }
    }

    /// Whether a step goes so.
    fn is_met(&mut self, rt: &(impl Abort + Print), alloc: Global, step: &Then) -> bool {
        match step {
            Then::Answers(asked, wanted) => self.is_told(rt, *asked, *wanted),
            Then::TakesInEach(count) => self.is_taken_in(rt, *count),
            Then::Puts(block) => self.is_put(handle(rt, *block).place),
            Then::Loses(block) => {
                let place = handle(rt, *block).place;
                self.audit(rt, alloc) == Some(Err(AuditFault::Place(place)))
            }
            Then::Closes => self.audit(rt, alloc) == Some(Ok(())),
            Then::LacksSegment0 => self.is_missed(rt, alloc),
        }
    }

    /// Each step of a run's end must be met.
    pub fn meets(&mut self, rt: &(impl Abort + Print), alloc: Global, name: &str, steps: &[Then]) {
        for (at, step) in steps.iter().enumerate() {
            assert!(rt;
                self.is_met(rt, alloc, step),
                "{name}, step {at} of what came then"
            );
        }
    }
}

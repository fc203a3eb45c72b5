//! A service, or its parts, whose workers are called in turn by one thread, and one function that
//! goes over the steps of a run.

use crate::after::{After, Ended};
use crate::asked::{ALICE, Asked, Block, MAIN, Told, answer, event, handle};
use crate::calls::{by_parts, by_worker};
use crate::steps::{Run, Step};
use crate::used_up::UsedUp;
use hg_close::CloseFault;
use hg_machine::{Answer, Event};
use hg_place::{Handle, Place};
use hg_remote::RemoteList;
use hg_service::{CallerLocked, Service, Unclosed, UnclosedParts, Worker};
use hg_worker::ServiceName;
use std::alloc::{AllocError, Global};
use std::process::Abort;
use std::sync::Wait;

/// As many workers as a policy may have.
const WORKERS: usize = 16;

/// The bytes of a block as large as a segment.
const SEGMENT: u64 = 65_536;

/// A service, or its parts, and what its caller has.
#[derive(Drop)]
pub struct InTurn<N: ServiceName> {
    /// Until it closes.
    service: Option<Service<N>>,
    /// Or its parts, until they do.
    parts: Option<CallerLocked<N>>,
    /// By number, those that were taken, and neither left nor were dropped.
    workers: Vec<Option<Worker<N>>>,
    /// One of the caller's own.
    list: RemoteList,
    after: After,
}

/// Room for the workers that are taken.
fn room<N: ServiceName>(alloc: Global) -> Result<Vec<Option<Worker<N>>>, AllocError> {
    let mut room = Vec::with_capacity(alloc, WORKERS)?;
    for _ in 0..WORKERS {
        room.push(None)?;
    }
    Ok(room)
}

impl<N: ServiceName> InTurn<N> {
    /// Of a service, or of its parts.
    pub fn new(
        alloc: Global,
        service: Option<Service<N>>,
        parts: Option<CallerLocked<N>>,
    ) -> Result<InTurn<N>, AllocError> {
        let list = RemoteList::new(alloc)?;
        let workers = room(alloc)?;
        Ok(InTurn {
            service,
            parts,
            workers,
            list,
            after: After::nothing(),
        })
    }

    /// Takes a worker. Whether there was one.
    fn is_taken(&mut self, number: u8) -> bool {
        let Some(service) = &mut self.service else {
            return false;
        };
        match service.worker(number) {
            Some(worker) => self.is_seated(number, worker),
            None => false,
        }
    }

    /// A worker has its place here. Whether there is one.
    fn is_seated(&mut self, number: u8, worker: Worker<N>) -> bool {
        match self.workers.get_mut(usize::from(number)) {
            Some(seat) => {
                drop(seat.replace(worker));
                true
            }
            None => {
                drop(worker);
                false
            }
        }
    }

    /// What a worker answers, if it is there.
    fn answer<R: Wait + Abort>(&mut self, rt: &R, number: u8, event: Event) -> Option<Answer> {
        if let Some(parts) = &mut self.parts {
            return by_parts(parts, number, event);
        }
        match self.workers.get_mut(usize::from(number)) {
            Some(Some(worker)) => by_worker(rt, worker, event),
            _ => None,
        }
    }

    /// A worker that was taken, and isn't there any more.
    fn out(&mut self, number: u8) -> Option<Worker<N>> {
        self.workers.get_mut(usize::from(number))?.take()
    }

    /// The word that two workers see where they meet.
    fn meet(&mut self, number: u8, other: u8, handle: Handle) -> Option<u64> {
        let mut worker = self.out(number)?;
        let word = match self.workers.get_mut(usize::from(other)) {
            Some(Some(other)) => Some(worker.own.meet(&mut other.own, handle)),
            _ => None,
        };
        match self.is_seated(number, worker) {
            true => word,
            false => None,
        }
    }

    /// A worker leaves, or is dropped. Whether it was there.
    fn is_out<R: Wait>(&mut self, rt: &R, number: u8, leaves: bool) -> bool {
        let Some(worker) = self.out(number) else {
            return false;
        };
        if leaves {
            worker.leave(rt);
        } else {
            drop(worker);
        }
        true
    }

    /// What a worker answers that sends what it has in hand to the caller's own list.
    fn sends_away(&mut self, number: u8) -> Option<Answer> {
        match self.workers.get_mut(usize::from(number)) {
            Some(Some(worker)) => Some(worker.own.deliver_to(&mut self.list)),
            _ => None,
        }
    }

    /// What the holder of segment 0 answers that takes in a place from the caller's own list.
    fn takes_away(&mut self, number: u8, place: Place) -> Option<Answer> {
        self.list.push(place.page, place.index).ok()?;
        match self.workers.get_mut(usize::from(number)) {
            Some(Some(worker)) => Some(worker.own.take_from(0, &mut self.list)),
            _ => None,
        }
    }

    /// How it ends where the service is asked to close, if there is one.
    fn service_ended<R: Wait>(&mut self, rt: &R, alloc: Global) -> Option<Ended> {
        match self.service.take()?.close(rt, alloc) {
            Ok(core) => {
                self.after.core = Some(core);
                Some(Ended::Closed)
            }
            Err(Unclosed::Running(service, fault)) => {
                self.service = Some(service);
                Some(Ended::GoesOn(fault))
            }
            Err(Unclosed::Lost(place, parts)) => {
                self.after.parts = Some(parts);
                Some(Ended::Lost(place))
            }
        }
    }

    /// How it ends where the parts are asked to close, if there are parts.
    fn parts_ended(&mut self, alloc: Global) -> Option<Ended> {
        match self.parts.take()?.close(alloc) {
            Ok(core) => {
                self.after.core = Some(core);
                Some(Ended::Closed)
            }
            Err(UnclosedParts::Running(parts, fault)) => {
                self.parts = Some(parts);
                Some(Ended::GoesOn(fault))
            }
            Err(UnclosedParts::Lost(place, parts)) => {
                self.after.parts = Some(parts);
                Some(Ended::Lost(place))
            }
        }
    }

    /// How it ends; once more, where memory may be refused and was.
    fn ended<R: Wait>(&mut self, rt: &R, alloc: Global, may_refuse: bool) -> Option<Ended> {
        for _ in 0..2 {
            let ended = match self.service_ended(rt, alloc) {
                Some(ended) => Some(ended),
                None => self.parts_ended(alloc),
            };
            if !may_refuse || ended != Some(Ended::GoesOn(CloseFault::Memory)) {
                return ended;
            }
        }
        None
    }

    /// Whether it goes on for this reason, and where memory was used up for that one first.
    fn goes_on_with_none<R: Wait + Abort + Print>(
        &mut self,
        rt: &R,
        alloc: Global,
        wanted: CloseFault,
    ) -> bool {
        let used = UsedUp::take(rt, alloc);
        let first = match used.is_all {
            true => CloseFault::Memory,
            false => wanted,
        };
        let told = self.ended(rt, alloc, false);
        drop(used);
        told == Some(Ended::GoesOn(first))
            && self.ended(rt, alloc, false) == Some(Ended::GoesOn(wanted))
    }

    /// Whether the last worker among the parts, which is dropped, has this number.
    fn is_last(&mut self, number: u8) -> bool {
        let last = match &mut self.parts {
            Some(parts) => parts.workers.pop(),
            None => None,
        };
        let is_right = last
            .as_ref()
            .is_some_and(|worker| worker.number() == number);
        drop(last);
        is_right
    }

    /// Whether a worker answers so.
    fn is_told<R: Wait + Abort>(&mut self, rt: &R, number: u8, asked: Asked, told: Told) -> bool {
        self.answer(rt, number, event(rt, asked)) == Some(answer(rt, told))
    }

    /// Whether each of so many segments comes to worker 0, is filled, and has its block freed and sent
    /// by worker 1.
    fn is_sent_to_each<R: Wait + Abort>(&mut self, rt: &R, count: u8) -> bool {
        for segment in 0..count {
            let block = Block(segment, 0, 0, 1);
            let is_sent = self.is_told(rt, 0, Asked::Refill(MAIN), Told::Refilled(segment))
                && self.is_told(
                    rt,
                    0,
                    Asked::Alloc(ALICE, MAIN, SEGMENT),
                    Told::Block(block),
                )
                && self.is_told(rt, 1, Asked::Free(ALICE, block), Told::Parted)
                && self.is_told(rt, 1, Asked::Deliver, Told::Done);
            if !is_sent {
                return false;
            }
        }
        true
    }

    /// Whether each of so many workers is told as out, the lowest first, before it leaves.
    fn is_each_out<R: Wait>(&mut self, rt: &R, alloc: Global, count: u8) -> bool {
        for number in 0..count {
            let out = Some(Ended::GoesOn(CloseFault::StillOut(number)));
            if self.ended(rt, alloc, false) != out || !self.is_out(rt, number, true) {
                return false;
            }
        }
        true
    }

    /// Whether a step of workers goes so.
    fn is_met<R: Wait + Abort + Print>(&mut self, rt: &R, alloc: Global, step: &Step) -> bool {
        match step {
            Step::Takes(number, wanted) => self.is_taken(*number) == *wanted,
            Step::Asks(number, asked, wanted) => self.is_told(rt, *number, *asked, *wanted),
            Step::Meets(one, other, block, word) => {
                let at = handle(rt, *block);
                self.meet(*one, *other, at) == Some(*word)
                    && self.meet(*other, *one, at) == Some(*word)
            }
            Step::Leaves(number) => self.is_out(rt, *number, true),
            Step::Drops(number) => self.is_out(rt, *number, false),
            Step::SendsAway(number) => self.sends_away(*number) == Some(Answer::Done),
            Step::TakesAway(number, block) => {
                let place = handle(rt, *block).place;
                self.takes_away(*number, place) == Some(Answer::Taken(1))
            }
            Step::SendsToEach(count) => self.is_sent_to_each(rt, *count),
            Step::GoesOnWithNone(fault) => self.goes_on_with_none(rt, alloc, *fault),
            Step::Misses(number) => self.is_last(*number),
            Step::EachIsOut(count) => self.is_each_out(rt, alloc, *count),
            _ => false,
        }
    }

    /// Each step of a run must be met.
    pub fn meets<R: Wait + Abort + Print>(&mut self, rt: &R, alloc: Global, run: &Run) {
        let name = run.name;
        let may_refuse = run.begins.may_refuse;
        for number in 0..run.begins.takes {
            assert!(rt; self.is_taken(number), "{name}, worker {number}");
        }
        for (at, step) in run.steps.iter().enumerate() {
            let is_met = match step {
                Step::GoesOn(fault) => {
                    self.ended(rt, alloc, may_refuse) == Some(Ended::GoesOn(*fault))
                }
                Step::Closes => self.ended(rt, alloc, may_refuse) == Some(Ended::Closed),
                Step::Loses(block) => {
                    let place = handle(rt, *block).place;
                    self.ended(rt, alloc, may_refuse) == Some(Ended::Lost(place))
                }
                _ => self.is_met(rt, alloc, step),
            };
            assert!(rt; is_met, "{name}, step {at}");
        }
        self.after.meets(rt, alloc, name, run.then);
    }
}

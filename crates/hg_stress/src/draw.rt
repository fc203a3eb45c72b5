//! Which event comes next.

ghost use Rattle.std.specs.Prelude.{◌<◌};

use crate::numbers::Numbers;
use crate::plan::Plan;
use crate::shared::Shared;
use hg_machine::{Answer, Event, Rule};
use hg_place::{Actor, Handle};

/// Who is no tenant.
const STRANGER: Actor = Actor(255);

/// An arena that no policy has.
const NOWHERE: u8 = 255;

/// What blocks are asked for, in bytes. Most lie in pages of few places, so that places are soon
/// given out again; the last has no class.
static SIZES: [u64; 16] = [
    8, 8, 64, 1024, 1024, 1024, 1024, 1024, 1024, 2048, 2048, 2048, 2048, 4096, 16384, 65537,
];

/// A worker's stream of events, as far as it was drawn.
#[derive(Drop)]
pub struct Draw {
    plan: Plan,
    numbers: Numbers,
    /// The same for all workers, as long as each has made as many events.
    common: Numbers,
    /// What is to come next, whatever is drawn.
    next: Option<Event>,
    /// Where on the shelf the last draw was.
    at: usize,
    /// The segment that came last, or had the last block; and its arena.
    home: u8,
    arena: u8,
}

impl Draw {
    /// The stream of the worker of a number.
    pub fn new(plan: Plan, worker: u8) -> Draw {
        Draw {
            plan,
            numbers: Numbers::new(plan.seed, u64::from(worker).wrapping_add(1)),
            common: Numbers::new(plan.seed, 0),
            next: None,
            at: 0,
            home: 0,
            arena: 0,
        }
    }

    /// The next event. In a fight all are at the same place of the shelf, and most free.
    pub fn event(&mut self, shared: &Shared, is_fight: bool) -> Event {
        let places = self.plan.places;
        let common = self.common.below(places);
        if let Some(event) = self.next.take() {
            return event;
        }
        self.at = if is_fight {
            common
        } else {
            self.numbers.below(places)
        };
        match shared.handle(self.at) {
            Some(handle) if is_fight => self.fight_for(handle),
            Some(handle) => self.use_of(handle),
            None if self.numbers.below(8) == 0 => Event::Deliver,
            None => self.alloc(),
        }
    }

    /// What comes of an answer: a block is put on the shelf, or freed next where another lies there
    /// now, and one that was freed before is taken off; where there is no room a segment is asked for
    /// or taken in; a hand that is full is emptied.
    pub fn follow(&mut self, shared: &Shared, event: Event, answer: Answer) {
        match (event, answer) {
            (Event::Alloc { actor, arena, .. }, Answer::Block(handle)) => {
                self.settle(handle.place.segment, arena);
                if !shared.put(self.at, handle) {
                    self.next = Some(Event::Free { actor, handle });
                }
            }
            (Event::Alloc { arena, .. }, Answer::NoRoom) => {
                self.next = Some(match self.numbers.below(3) {
                    0 => Event::Take {
                        segment: self.segment(),
                    },
                    _ => Event::Refill { arena },
                });
            }
            (Event::Refill { arena }, Answer::Refilled(segment)) => self.settle(segment, arena),
            (Event::Free { .. }, Answer::Busy) => self.next = Some(Event::Deliver),
            (Event::Free { handle, .. }, Answer::Denied(Rule::AlreadyFreed | Rule::Stale(_))) => {
                shared.take_off(self.at, handle);
            }
            _ => {}
        }
    }

    fn settle(&mut self, segment: u8, arena: u8) {
        self.home = segment;
        self.arena = arena;
    }

    /// Mostly the tenant whose blocks lie at the place of the shelf.
    fn actor(&mut self) -> Actor {
        match self.numbers.below(24) {
            0 => STRANGER,
            1 => Actor(self.numbers.short(self.plan.tenants)),
            _ => self.owner(),
        }
    }

    fn owner(&self) -> Actor {
        match self.plan.tenants {
            0 => STRANGER,
            tenants => Actor((self.at % usize::from(tenants)) as u8),
        }
    }

    /// Mostly that of the segment that the worker had to do with last.
    fn arena(&mut self) -> u8 {
        match self.numbers.below(32) {
            0 => NOWHERE,
            1..12 => self.numbers.short(self.plan.arenas),
            _ => self.arena,
        }
    }

    /// A block for the tenant of the place of the shelf, so that it can free it.
    fn alloc(&mut self) -> Event {
        let actor = match self.numbers.below(24) {
            0 => STRANGER,
            _ => self.owner(),
        };
        let arena = self.arena();
        let bytes = SIZES[self.numbers.below(SIZES.len())];
        Event::Alloc {
            actor,
            arena,
            bytes,
        }
    }

    /// Mostly the one that the worker had to do with last.
    fn segment(&mut self) -> u8 {
        match self.numbers.below(4) {
            0 => self.numbers.short(self.plan.segments),
            _ => self.home,
        }
    }

    /// An event on a block that all others may have picked too.
    fn fight_for(&mut self, handle: Handle) -> Event {
        match self.numbers.below(16) {
            0..6 => self.look_and_free(handle),
            6 => self.read(handle),
            7 => self.write(handle),
            _ => self.free(handle),
        }
    }

    /// An event of any kind, with this block if it takes one.
    fn use_of(&mut self, handle: Handle) -> Event {
        match self.numbers.below(32) {
            0..10 => self.free(handle),
            10..13 => self.look_and_free(handle),
            13..16 => self.read(handle),
            16..20 => self.write(handle),
            20..22 => Event::Look {
                actor: self.actor(),
                place: handle.place,
            },
            22..25 => Event::Deliver,
            25..28 => Event::Take {
                segment: self.segment(),
            },
            28 => Event::Collect,
            29..31 => Event::Abandon {
                segment: self.segment(),
            },
            _ => Event::Refill {
                arena: self.arena(),
            },
        }
    }

    fn free(&mut self, handle: Handle) -> Event {
        let actor = self.actor();
        Event::Free { actor, handle }
    }

    fn read(&mut self, handle: Handle) -> Event {
        Event::Read {
            actor: self.actor(),
            handle,
            index: self.numbers.below(3) as u32,
        }
    }

    fn write(&mut self, handle: Handle) -> Event {
        Event::Write {
            actor: self.actor(),
            handle,
            index: self.numbers.below(3) as u32,
            value: self.numbers.below(1000) as u64,
        }
    }

    /// A look at a block, which is freed next.
    fn look_and_free(&mut self, handle: Handle) -> Event {
        let actor = self.owner();
        self.next = Some(Event::Free { actor, handle });
        Event::Look {
            actor,
            place: handle.place,
        }
    }
}

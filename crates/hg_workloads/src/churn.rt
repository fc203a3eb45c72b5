//! Blocks given out, used and freed on one core: four workers for six tenants, some blocks freed
//! by others than the holder of their segment.

use crate::digest::{Digest, free_answer};
use crate::numbers::Numbers;
use anyhow::bail;
use hg_core::Core;
use hg_heap::{done_answer, read_answer, refused_answer};
use hg_machine::{Answer, Event};
use hg_place::{Actor, Handle};
use hg_policy_text::read_policy;
use std::alloc::{AllocFailed, Global};

const POLICY: &str = r#"version = 2
workers = 4
tenant = [
    {name = "web", limit = 16777216},
    {name = "mail", limit = 16777216},
    {name = "search", limit = 16777216},
    {name = "cache", limit = 16777216},
    {name = "audit", limit = 16777216},
    {name = "guest", limit = 32768},
]
arena = [
    {name = "main", segments = 48},
    {name = "vault", segments = 16, exclusive = ["web", "mail"]},
]
grant = [
    {owner = "web", to = "cache", rights = ["read", "free"]},
    {owner = "mail", to = "search", rights = ["read", "list"]},
    {owner = "cache", to = "web", rights = ["read", "write", "list", "free"]},
    {owner = "search", to = "audit", rights = ["read", "list"]},
]
deny = [
    {owner = "cache", to = "web", rights = ["free"]},
]
"#;

/// How many blocks are asked for at the beginning.
const LIVE: usize = 8_192;

const WORKERS: u8 = 4;

/// How many of the tenants take part alike.
const TENANTS: u8 = 6;

/// How many blocks that others freed a worker takes in at once.
const SENT: u32 = 48;

/// A block, the worker that gave it out, and its owner.
#[derive(Clone, Copy)]
struct Live {
    handle: Handle,
    worker: u8,
    owner: u8,
}

/// A core with its live blocks.
#[derive(Drop)]
struct Host<'a> {
    core: Core,
    live: Vec<Live>,
    numbers: Numbers,
    digest: &'a mut Digest,
    /// How many blocks others have freed and sent since the last take.
    sent: u32,
}

/// One of so many, by a number.
fn drawn(number: u64, count: u8) -> u8 {
    match count {
        0 => 0,
        count => (number % u64::from(count)) as u8,
    }
}

impl Host<'_> {
    /// Serves an event of a worker.
    #[inline(always)]
    fn ask(&mut self, worker: u8, event: Event) -> Answer {
        if worker >= self.core.policy().workers() {
            return Answer::NotHeld;
        }
        let answer = self.core.step(worker, event);
        self.digest.answer(answer);
        answer
    }

    /// Gives out a block of the worker's; `None` where it is refused.
    fn give(&mut self, worker: u8, owner: u8) -> Option<Live> {
        let bytes = self.numbers.bytes();
        let arena = u8::from(owner < 2 && bytes & 3 == 0);
        if worker >= self.core.policy().workers() {
            return None;
        }
        match self.core.alloc(worker, Actor(owner), arena, bytes) {
            Ok(handle) => {
                self.digest.answer(Answer::Block(handle));
                Some(Live {
                    handle,
                    worker,
                    owner,
                })
            }
            Err(refused) => {
                self.digest.answer(refused_answer(refused));
                None
            }
        }
    }

    /// The workers take their segments, and give out the first blocks.
    fn fill(&mut self) -> Result<(), AllocFailed<Live>> {
        for _ in 0..12u8 {
            for worker in 0..WORKERS {
                self.ask(worker, Event::Refill { arena: 0 });
            }
        }
        for _ in 0..4u8 {
            for worker in 0..WORKERS {
                self.ask(worker, Event::Refill { arena: 1 });
            }
        }
        for at in 0..LIVE {
            if let Some(live) = self.give(
                drawn(at as u64, WORKERS),
                drawn(at as u64 >> 2, TENANTS),
            ) {
                self.live.push(live)?;
            }
        }
        Ok(())
    }

    /// Frees a block for its owner.
    fn free(&mut self, worker: u8, owner: u8, handle: Handle) {
        if worker >= self.core.policy().workers() {
            return;
        }
        let freed = self.core.free(worker, Actor(owner), handle);
        self.digest.answer(free_answer(freed));
    }

    /// Frees a block, mostly where it was given out, and gives out another in its stead.
    fn replace(&mut self, at: usize, live: Live, number: u64) {
        let Live {
            handle,
            worker,
            owner,
        } = live;
        if number & 7 == 0 {
            let apart = (number >> 8 & 3) as u8 | 1;
            let other = worker.wrapping_add(apart) % WORKERS;
            self.free(other, owner, handle);
            self.ask(other, Event::Deliver);
            self.sent = self.sent.wrapping_add(1);
            if self.sent >= SENT {
                self.take_all();
            }
        } else {
            self.free(worker, owner, handle);
        }
        if let Some(given) = self.give(worker, owner) {
            if let Some(slot) = self.live.get_mut(at) {
                *slot = given;
            }
        }
    }

    /// Each worker takes in what was sent to its segments.
    fn take_all(&mut self) {
        self.sent = 0;
        for segment in 0..self.core.policy().segments() {
            if let Some(worker) = self.core.holder(segment) {
                self.ask(worker, Event::Take { segment });
            }
        }
    }

    /// A read or a write of a word.
    fn touch(&mut self, live: Live, actor: u8, number: u64) {
        let Live {
            handle,
            worker,
            owner: _,
        } = live;
        let index = (number >> 8 & 1) as u32;
        if worker >= self.core.policy().workers() {
            return;
        }
        if number & 1 == 0 {
            let read = self.core.read(worker, Actor(actor), handle, index);
            self.digest.answer(read_answer(read));
        } else {
            let written = self.core.write(worker, Actor(actor), handle, index, number);
            self.digest.answer(done_answer(written));
        }
    }

    /// Now and then a worker looks for pages that are empty, or a segment goes from hand to hand.
    fn tidy(&mut self, number: u64) {
        let worker = drawn(number, WORKERS);
        if number >> 8 & 7 != 0 {
            self.ask(worker, Event::Collect);
            return;
        }
        let segment = drawn(number >> 16, 64);
        let arena = u8::from(segment >= 48);
        if let Some(worker) = self.core.holder(segment) {
            self.ask(worker, Event::Abandon { segment });
            self.ask(worker, Event::Refill { arena });
        }
    }

    /// One turn: mostly something with one of the live blocks.
    fn turn(&mut self) {
        let number = self.numbers.next();
        let at = (number >> 40) as usize % LIVE;
        let Some(live) = self.live.get(at).copied() else {
            return;
        };
        match number & 31 {
            0..12 => self.replace(at, live, number >> 5),
            12..26 => self.touch(live, live.owner, number >> 5),
            26..30 => self.touch(live, drawn(number >> 8, TENANTS), number >> 5),
            30 => {
                let event = Event::Look {
                    actor: Actor(drawn(number >> 8, TENANTS)),
                    place: live.handle.place,
                };
                self.ask(live.worker, event);
            }
            _ if number >> 5 & 63 == 0 => self.tidy(number >> 11),
            _ => self.touch(live, 255, number >> 5),
        }
    }
}

/// So many thousand turns.
pub fn run(alloc: Global, turns: u32, seed: u32, digest: &mut Digest) -> Result<(), anyhow::Error> {
    let Ok(policy) = read_policy(alloc, POLICY.as_bytes()) else {
        bail!("the policy isn't read");
    };
    let mut host = Host {
        core: Core::open(alloc, policy)?,
        live: Vec::new(alloc),
        numbers: Numbers::new(u64::from(seed)),
        digest,
        sent: 0,
    };
    let filled = host.fill();
    for _ in 0..u64::from(turns) * 1_000 {
        host.turn();
    }
    drop(host);
    filled?;
    Ok(())
}

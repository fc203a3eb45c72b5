//! Blocks on a bank of cores that are nearly full: for a third of the sizes there is no room in the
//! core that is asked first.

use crate::digest::{Digest, free_answer};
use crate::numbers::Numbers;
use anyhow::bail;
use hg_bank::{Bank, BankHandle};
use hg_heap::{done_answer, read_answer, refused_answer};
use hg_machine::Answer;
use hg_place::Actor;
use hg_policy::Policy;
use hg_policy_text::read_policy;
use std::alloc::Global;

const POLICY: &str = r#"version = 1
workers = 2
tenant = [
    {name = "tables", limit = 4294967295},
    {name = "indexes", limit = 4294967295},
    {name = "sorts", limit = 4294967295},
    {name = "cursors", limit = 4294967295},
    {name = "plans", limit = 4294967295},
    {name = "locks", limit = 4294967295},
    {name = "logs", limit = 4294967295},
    {name = "stats", limit = 1048576},
]
arena = [ {name = "main", segments = 64} ]
grant = [
    {owner = "tables", to = "sorts", rights = ["read"]},
    {owner = "indexes", to = "cursors", rights = ["read", "list"]},
]
"#;

const CORES: u16 = 8;

const WORKERS: u8 = 2;

const TENANTS: u64 = 8;

/// How many blocks are given out at the beginning.
const LIVE: usize = 100_000;

/// A block, the worker that gave it out, and its owner.
#[derive(Clone, Copy)]
struct Live {
    block: BankHandle,
    worker: u8,
    owner: u8,
}

#[derive(Drop)]
struct Host<'a> {
    bank: Bank,
    live: Vec<Live>,
    numbers: Numbers,
    digest: &'a mut Digest,
}

/// A bank of the policy, with so many cores.
fn opened(alloc: Global, policy: Policy) -> Result<Bank, anyhow::Error> {
    let mut bank = Bank::open(alloc, policy, CORES)?;
    for _ in 1..CORES {
        if !bank.is_full() {
            if bank.grow(alloc).is_err() {
                drop(bank);
                bail!("no memory");
            }
        }
    }
    Ok(bank)
}

impl Host<'_> {
    /// Gives out a block of the worker's; `None` where it is refused.
    fn give(&mut self, worker: u8, owner: u8) -> Option<Live> {
        let bytes = self.numbers.bytes();
        if worker >= self.bank.policy().workers() {
            return None;
        }
        match self.bank.alloc(worker, Actor(owner), 0, bytes) {
            Ok(block) => {
                self.digest.answer(Answer::Block(block.handle));
                self.digest.number(u64::from(block.core));
                Some(Live {
                    block,
                    worker,
                    owner,
                })
            }
            Err(refused) => {
                self.digest.answer(refused_answer(refused));
                None
            }
        }
    }

    /// A worker takes a segment, if it can.
    fn refill(&mut self, worker: u8) {
        if worker >= self.bank.policy().workers() {
            return;
        }
        match self.bank.refill(worker, 0) {
            Ok(segment) => {
                self.digest.answer(Answer::Refilled(segment.segment));
                self.digest.number(u64::from(segment.core));
            }
            Err(_) => self.digest.answer(Answer::NoSegment),
        }
    }

    /// The workers take all segments, and give out the first blocks.
    fn fill(&mut self) -> Result<(), anyhow::Error> {
        for _ in 0..CORES * 32 {
            for worker in 0..WORKERS {
                self.refill(worker);
            }
        }
        for at in 0..LIVE {
            let owner = self.numbers.below(TENANTS) as u8;
            if let Some(live) = self.give((at % 2) as u8, owner) {
                self.live.push(live)?;
            }
        }
        Ok(())
    }

    /// Frees a block, and gives out another in its stead.
    fn replace(&mut self, at: usize, live: Live) {
        let Live {
            block,
            worker,
            owner,
        } = live;
        if worker >= self.bank.policy().workers() {
            return;
        }
        let freed = self.bank.free(worker, Actor(owner), block);
        self.digest.answer(free_answer(freed));
        if let Some(given) = self.give(worker, owner) {
            if let Some(slot) = self.live.get_mut(at) {
                *slot = given;
            }
        }
    }

    /// A read or a write of a word.
    fn touch(&mut self, live: Live, actor: u8, number: u64) {
        let Live {
            block,
            worker,
            owner: _,
        } = live;
        if worker >= self.bank.policy().workers() {
            return;
        }
        if number & 1 == 0 {
            let read = self.bank.read(worker, Actor(actor), block, 0);
            self.digest.answer(read_answer(read));
        } else {
            let written = self.bank.write(worker, Actor(actor), block, 0, number);
            self.digest.answer(done_answer(written));
        }
    }

    fn turn(&mut self) {
        let number = self.numbers.next();
        let count = self.live.len().max(1);
        let at = (number >> 32) as usize % count;
        let Some(live) = self.live.get(at).copied() else {
            return;
        };
        match number & 15 {
            0..8 => self.replace(at, live),
            8..14 => self.touch(live, live.owner, number >> 4),
            _ => self.touch(live, (number >> 8 & 7) as u8, number >> 4),
        }
    }
}

/// So many thousand turns.
pub fn run(alloc: Global, turns: u32, seed: u32, digest: &mut Digest) -> Result<(), anyhow::Error> {
    let Ok(policy) = read_policy(alloc, POLICY.as_bytes()) else {
        bail!("the policy isn't read");
    };
    let mut host = Host {
        bank: opened(alloc, policy)?,
        live: Vec::new(alloc),
        numbers: Numbers::new(u64::from(seed)),
        digest,
    };
    let filled = host.fill();
    for _ in 0..u64::from(turns) * 1_000 {
        host.turn();
    }
    drop(host);
    filled
}

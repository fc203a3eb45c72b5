//! Plug-ins loaded and unloaded: each gives out blocks while others live on, and when it goes the
//! host frees all that it still has.

use crate::digest::Digest;
use crate::numbers::Numbers;
use anyhow::bail;
use hg_bulk::free_all;
use hg_core::Core;
use hg_machine::{Answer, Event};
use hg_place::{Actor, Handle};
use hg_policy_text::read_policy;
use std::alloc::Global;

const POLICY: &str = r#"version = 2
workers = 2
tenant = [
    {name = "host", limit = 1048576},
    {name = "mixer", limit = 1048576},
    {name = "reverb", limit = 1048576},
    {name = "synth", limit = 1048576},
    {name = "meter", limit = 1048576},
    {name = "sealed", limit = 1048576},
]
arena = [ {name = "main", segments = 32} ]
group = [ {name = "guests", members = ["mixer", "reverb", "synth", "meter", "sealed"]} ]
grant = [ {owner = "guests", to = "host", rights = ["list", "free"]} ]
deny = [ {owner = "sealed", to = "host", rights = ["free"]} ]
"#;

const WORKERS: u8 = 2;

const SEGMENTS: u8 = 32;

const HOST: Actor = Actor(0);

/// How many plug-ins there are.
const GUESTS: u8 = 5;

/// How many blocks a plug-in gives out at most.
const BLOCKS: u64 = 1_024;

#[derive(Drop)]
struct Host<'a> {
    core: Core,
    /// Blocks that a plug-in frees itself.
    own: Vec<Handle>,
    numbers: Numbers,
    digest: &'a mut Digest,
}

impl Host<'_> {
    /// Serves an event of a worker.
    #[inline(always)]
    fn ask(&mut self, worker: u8, event: Event) -> Answer {
        if worker >= self.core.policy().workers() {
            return Answer::NotHeld;
        }
        let answer = self.core.step(worker, event);
        self.digest.answer(answer);
        answer
    }

    /// A plug-in gives out blocks, and frees some of them.
    fn load(&mut self, worker: u8, guest: Actor) -> Result<(), anyhow::Error> {
        let count = self.numbers.below(BLOCKS);
        for _ in 0..count {
            let bytes = self.numbers.bytes();
            let event = Event::Alloc {
                actor: guest,
                arena: 0,
                bytes,
            };
            if let Answer::Block(handle) = self.ask(worker, event) {
                if bytes & 3 == 0 {
                    self.own.push(handle)?;
                }
            }
        }
        for _ in 0..self.own.len() {
            if let Some(handle) = self.own.pop() {
                let event = Event::Free {
                    actor: guest,
                    handle,
                };
                self.ask(worker, event);
            }
        }
        Ok(())
    }

    /// A plug-in goes. What it denies the host to free, it frees itself.
    fn unload(&mut self, worker: u8, guest: Actor) {
        if worker >= self.core.policy().workers() {
            return;
        }
        let freed = free_all(&mut self.core, worker, HOST, guest.0);
        self.digest.freed(freed);
        if guest.0 == GUESTS && worker < self.core.policy().workers() {
            let freed = free_all(&mut self.core, worker, guest, guest.0);
            self.digest.freed(freed);
        }
    }

    /// Takes the segments, loads plug-ins by turns, and unloads the one that was loaded longest
    /// ago.
    fn turns(&mut self, turns: u32) -> Result<(), anyhow::Error> {
        for _ in 0..SEGMENTS / WORKERS {
            for worker in 0..WORKERS {
                self.ask(worker, Event::Refill { arena: 0 });
            }
        }
        for turn in 0..turns {
            let worker = (turn & 1) as u8;
            let guest = Actor(1 + ((turn >> 1) % u32::from(GUESTS)) as u8);
            self.unload(worker, guest);
            self.load(worker, guest)?;
        }
        Ok(())
    }
}

/// So many plug-ins.
pub fn run(alloc: Global, turns: u32, seed: u32, digest: &mut Digest) -> Result<(), anyhow::Error> {
    let Ok(policy) = read_policy(alloc, POLICY.as_bytes()) else {
        bail!("the policy isn't read");
    };
    let mut host = Host {
        core: Core::open(alloc, policy)?,
        own: Vec::new(alloc),
        numbers: Numbers::new(u64::from(seed)),
        digest,
    };
    let done = host.turns(turns);
    drop(host);
    done
}

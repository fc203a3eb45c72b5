//! Logs of workers explained: each is of one core whose four workers made their calls in some
//! order, and from each worker's own calls and answers alone an order is looked for.

use crate::digest::Digest;
use crate::numbers::Numbers;
use anyhow::bail;
use hg_calls::Call;
use hg_core::Core;
use hg_machine::{Answer, Event};
use hg_order::{Found, explain};
use hg_place::{Actor, Handle};
use hg_policy::Policy;
use hg_policy_text::read_policy;
use std::alloc::{AllocFailed, Global};

const POLICY: &str = r#"version = 2
workers = 4
max_generation = 100
tenant = [
    {name = "ann", limit = 65536},
    {name = "bob", limit = 65536},
    {name = "cid", limit = 65536},
]
arena = [
    {name = "main", segments = 6},
    {name = "vault", segments = 2, exclusive = ["ann"]},
]
grant = [ {owner = "ann", to = "bob", rights = ["read", "write", "free"]} ]
"#;

const WORKERS: u8 = 4;

/// On how many places of a shelf handles lie.
const SHELF: u64 = 64;

/// How many calls a log has at least, and how many more at most.
const CALLS: u64 = 40;

const MORE: u64 = 120;

/// What blocks are asked for, in bytes.
static SIZES: [u64; 8] = [8, 64, 1_024, 1_024, 2_048, 2_048, 4_096, 65_537];

/// A core, and handles that its workers pass on.
#[derive(Drop)]
struct Shelf {
    core: Core,
    handles: Vec<Option<Handle>>,
    numbers: Numbers,
}

impl Shelf {
    /// The next event, on a place of the shelf.
    fn event(&mut self, at: u64) -> Event {
        let number = self.numbers.next();
        let actor = Actor((at % 3) as u8);
        let other = Actor((number >> 8 & 3) as u8);
        let segment = (number >> 16 & 7) as u8;
        let Some(handle) = self.handles.get(at as usize).copied().flatten() else {
            return match number & 7 {
                0 => Event::Deliver,
                1 => Event::Refill {
                    arena: u8::from(number >> 8 & 3 == 0),
                },
                _ => Event::Alloc {
                    actor,
                    arena: u8::from(number >> 8 & 7 == 0),
                    bytes: SIZES[(number >> 24) as usize & 7],
                },
            };
        };
        let index = (number >> 32 & 1) as u32;
        match number & 31 {
            0..9 => Event::Free { actor, handle },
            9..16 => Event::Read {
                actor: other,
                handle,
                index,
            },
            16..22 => Event::Write {
                actor,
                handle,
                index,
                value: number >> 40,
            },
            22..24 => Event::Look {
                actor: other,
                place: handle.place,
            },
            24..27 => Event::Deliver,
            27..29 => Event::Take { segment },
            29 => Event::Collect,
            30 => Event::Abandon { segment },
            _ => Event::Refill { arena: 0 },
        }
    }

    /// A worker's next call, if the core has that worker.
    fn call(&mut self, worker: u8) -> Option<Call> {
        let at = self.numbers.below(SHELF);
        let event = self.event(at);
        if worker >= self.core.policy().workers() {
            return None;
        }
        let answer = self.core.step(worker, event);
        if let Some(slot) = self.handles.get_mut(at as usize) {
            match (event, answer) {
                (Event::Alloc { .. }, Answer::Block(handle)) => *slot = Some(handle),
                (Event::Free { .. }, Answer::Done | Answer::Parted | Answer::Denied(_)) => {
                    *slot = None;
                }
                _ => {}
            }
        }
        Some(Call {
            worker,
            event,
            answer,
        })
    }
}

/// The calls of a log, those of one worker behind those of another.
fn log_of(alloc: Global, policy: &Policy, seed: u64) -> Result<Vec<Call>, anyhow::Error> {
    let mut handles = Vec::new(alloc);
    for _ in 0..SHELF {
        handles.push(None)?;
    }
    let mut shelf = Shelf {
        core: Core::open(alloc, policy.copy(alloc)?)?,
        handles,
        numbers: Numbers::new(seed),
    };
    let mut made = Vec::new(alloc);
    let done = make_calls(&mut shelf, &mut made);
    drop(shelf);
    done?;
    let mut calls = Vec::with_capacity(alloc, made.len())?;
    for worker in 0..WORKERS {
        for call in &made {
            if call.worker == worker {
                calls.push(*call)?;
            }
        }
    }
    Ok(calls)
}

/// Makes the calls of a log.
fn make_calls(shelf: &mut Shelf, made: &mut Vec<Call>) -> Result<(), AllocFailed<Call>> {
    let more = shelf.numbers.below(MORE);
    for _ in 0..CALLS + more {
        let worker = (shelf.numbers.next() >> 32 & 3) as u8;
        if let Some(call) = shelf.call(worker) {
            made.push(call)?;
        }
    }
    Ok(())
}

fn tell(digest: &mut Digest, found: &Found) {
    match found {
        Found::Order(order) => {
            digest.number(1);
            for call in order {
                digest.number(u64::from(call.worker));
                digest.answer(call.answer);
            }
        }
        Found::Nothing(Some(front)) => {
            digest.number(2);
            for calls in front {
                digest.number(*calls as u64);
            }
        }
        Found::Nothing(None) => digest.number(3),
        Found::GivenUp => digest.number(4),
    }
}

/// So many logs.
pub fn run(alloc: Global, turns: u32, seed: u32, digest: &mut Digest) -> Result<(), anyhow::Error> {
    let Ok(policy) = read_policy(alloc, POLICY.as_bytes()) else {
        bail!("the policy isn't read");
    };
    let mut numbers = Numbers::new(u64::from(seed));
    for _ in 0..turns {
        let calls = log_of(alloc, &policy, numbers.next())?;
        let found = explain(alloc, &policy, &calls)?;
        tell(digest, &found);
    }
    Ok(())
}

//! Blocks copied whole and in part, from and to room of the caller, as engines do with pages and
//! records.

use crate::digest::Digest;
use crate::numbers::Numbers;
use anyhow::bail;
use hg_bulk::{Progress, read_words, write_words};
use hg_core::Core;
use hg_heap::alloc_answer;
use hg_machine::Answer;
use hg_place::{Actor, Handle};
use hg_policy_text::read_policy;
use std::alloc::Global;

const POLICY: &str = r#"version = 1
workers = 2
tenant = [
    {name = "engine", limit = 16777216},
    {name = "reader", limit = 0},
    {name = "guest", limit = 0},
]
arena = [ {name = "main", segments = 48} ]
grant = [ {owner = "engine", to = "reader", rights = ["read"]} ]
"#;

/// The worker that holds all segments.
const HOME: u8 = 0;

const SEGMENTS: u8 = 48;

const ENGINE: Actor = Actor(0);

/// How many words the greatest block has.
const ROOM: usize = 8_192;

/// The words of the blocks: records, pages of several sizes, and few of the largest.
static WORDS: [u32; 16] = [
    32, 48, 64, 128, 128, 256, 512, 512, 512, 512, 512, 1_024, 1_024, 2_048, 4_096, 8_192,
];

/// How many blocks there are of each.
const EACH: usize = 12;

/// A block, and how many words it has.
#[derive(Clone, Copy)]
struct Page {
    handle: Handle,
    words: u32,
}

#[derive(Drop)]
struct Engine<'a> {
    core: Core,
    pages: Vec<Page>,
    room: Vec<u64>,
    numbers: Numbers,
    digest: &'a mut Digest,
}

impl Engine<'_> {
    /// Takes the segments, and gives out the blocks.
    fn fill(&mut self) -> Result<(), anyhow::Error> {
        if HOME >= self.core.policy().workers() {
            bail!("no such worker");
        }
        for _ in 0..SEGMENTS {
            if HOME < self.core.policy().workers() {
                let told = match self.core.refill(HOME, 0) {
                    Ok(segment) => Answer::Refilled(segment),
                    Err(_) => Answer::NoSegment,
                };
                self.digest.answer(told);
            }
        }
        for words in &WORDS {
            for _ in 0..EACH {
                if HOME < self.core.policy().workers() {
                    let bytes = 8 * u64::from(*words);
                    let told = self.core.alloc(HOME, ENGINE, 0, bytes);
                    self.digest.answer(alloc_answer(told));
                    if let Ok(handle) = told {
                        self.pages.push(Page {
                            handle,
                            words: *words,
                        })?;
                    }
                }
            }
        }
        for _ in 0..ROOM {
            let number = self.numbers.next();
            self.room.push(number)?;
        }
        Ok(())
    }

    fn tell(&mut self, progress: Progress) {
        self.digest.progress(progress.done, progress.refused);
    }

    /// Reads so many words from one on, and adds what was read to the digest.
    fn read(&mut self, actor: Actor, handle: Handle, first: u32, count: usize) {
        let count = count.min(self.room.len());
        let room = &mut self.room[..count];
        if HOME >= self.core.policy().workers() {
            return;
        }
        let progress = read_words(&mut self.core, HOME, actor, handle, first, room);
        self.digest.words(room);
        self.tell(progress);
    }

    /// Writes so many words from one on, one of which is new.
    fn write(&mut self, actor: Actor, handle: Handle, first: u32, count: usize) {
        let number = self.numbers.next();
        let count = count.min(self.room.len());
        let words = &mut self.room[..count];
        if let Some(word) = words.get_mut((number >> 32) as usize % ROOM) {
            *word = number;
        }
        if HOME >= self.core.policy().workers() {
            return;
        }
        let progress = write_words(&mut self.core, HOME, actor, handle, first, words);
        self.tell(progress);
    }

    /// Copies a block, mostly whole: half of the turns to the caller. One in 32 goes past its end,
    /// and one in 32 is of an actor that may not.
    fn turn(&mut self) {
        let number = self.numbers.next();
        let Some(page) = self
            .pages
            .get((number >> 40) as usize % (WORDS.len() * EACH))
            .copied()
        else {
            return;
        };
        let (first, count) = match number & 3 {
            0 => {
                let first = ((number >> 16) % u64::from(page.words.max(1))) as u32;
                (first, page.words.wrapping_sub(first))
            }
            _ => (0, page.words),
        };
        let count = match number >> 4 & 31 {
            0 => count.wrapping_add(8),
            _ => count,
        };
        let count = (count as usize).min(ROOM);
        let actor = match number >> 9 & 31 {
            0 => Actor(2),
            1..8 => Actor(1),
            _ => ENGINE,
        };
        if number & 4 == 0 {
            self.read(actor, page.handle, first, count);
        } else {
            self.write(actor, page.handle, first, count);
        }
    }
}

/// So many hundred turns.
pub fn run(alloc: Global, turns: u32, seed: u32, digest: &mut Digest) -> Result<(), anyhow::Error> {
    let Ok(policy) = read_policy(alloc, POLICY.as_bytes()) else {
        bail!("the policy isn't read");
    };
    let mut engine = Engine {
        core: Core::open(alloc, policy)?,
        pages: Vec::new(alloc),
        room: Vec::new(alloc),
        numbers: Numbers::new(u64::from(seed)),
        digest,
    };
    let filled = engine.fill();
    for _ in 0..u64::from(turns) * 100 {
        engine.turn();
    }
    drop(engine);
    filled
}

//! A digest of answers.

use hg_core::{Freed, NotFreed, Refused};
use hg_heap::refused_answer;
use hg_machine::{Answer, Rule};
use hg_place::Handle;

/// What it is multiplied by at each step.
const FACTOR: u64 = 0x9e37_79b9_7f4a_7c15;

/// What stands before how many blocks were freed at once, and before how many words were read or
/// written: no kind of an answer.
const FREED: u64 = 18;

const WORDS: u64 = 19;

/// A number that each answer changes, and their order too.
#[derive(Drop)]
pub struct Digest {
    sum: u64,
}

impl Digest {
    pub fn new() -> Digest {
        Digest { sum: FACTOR }
    }

    pub fn sum(&self) -> u64 {
        self.sum
    }

    /// Adds a number.
    pub fn number(&mut self, number: u64) {
        self.sum = (self.sum.rotate_left(5) ^ number).wrapping_mul(FACTOR);
    }

    /// Adds a handle.
    pub fn handle(&mut self, handle: Handle) {
        self.number(handle.to_u64());
    }

    /// Adds words, each of which counts by where it stands.
    pub fn words(&mut self, words: &[u64]) {
        let mut sum = 0u64;
        let mut sums = 0u64;
        for word in words {
            sum = sum.wrapping_add(*word);
            sums = sums.wrapping_add(sum);
        }
        self.number(sum);
        self.number(sums);
    }

    /// Adds an answer: its kind, and all that it has.
    pub fn answer(&mut self, answer: Answer) {
        self.number(kind_of(answer));
        match answer {
            Answer::Block(handle) => self.handle(handle),
            Answer::Value(value) => self.number(value),
            Answer::Taken(count) | Answer::Pages(count) => self.number(u64::from(count)),
            Answer::Refilled(segment) => self.number(u64::from(segment)),
            Answer::Listed(row) => {
                self.handle(row.handle);
                self.number(u64::from(row.bytes) << 8 | u64::from(row.owner));
            }
            Answer::Denied(rule) => self.number(number_of(rule)),
            _ => {}
        }
    }

    /// Adds how many blocks were freed at once.
    pub fn freed(&mut self, count: u32) {
        self.number(FREED);
        self.number(u64::from(count));
    }

    /// Adds how many words were read or written at once, and why the next wasn't, if one was left.
    pub fn progress(&mut self, done: usize, refused: Option<Refused>) {
        self.number(WORDS);
        self.number(done as u64);
        if let Some(refused) = refused {
            self.answer(refused_answer(refused));
        }
    }
}

/// The answer to a Free.
pub fn free_answer(told: Result<Freed, NotFreed>) -> Answer {
    match told {
        Ok(Freed::Here) => Answer::Done,
        Ok(Freed::InHand) => Answer::Parted,
        Err(NotFreed::Denied(rule)) => Answer::Denied(rule),
        Err(NotFreed::Busy) => Answer::Busy,
    }
}

/// A number for each kind of an answer.
fn kind_of(answer: Answer) -> u64 {
    match answer {
        Answer::Block(_) => 1,
        Answer::Done => 2,
        Answer::Parted => 3,
        Answer::Value(_) => 4,
        Answer::Taken(_) => 5,
        Answer::Pages(_) => 6,
        Answer::Refilled(_) => 7,
        Answer::Listed(_) => 8,
        Answer::Denied(_) => 9,
        Answer::TooLarge => 10,
        Answer::NoRoom => 11,
        Answer::Elsewhere => 12,
        Answer::OutOfBlock => 13,
        Answer::Busy => 14,
        Answer::NothingInHand => 15,
        Answer::NotHeld => 16,
        Answer::NoSegment => 17,
    }
}

/// A number for each rule, with the generation that it tells.
fn number_of(rule: Rule) -> u64 {
    match rule {
        Rule::Stranger => 1,
        Rule::Stale(generation) => u64::from(generation) << 8 | 2,
        Rule::AlreadyFreed => 3,
        Rule::ForeignArena => 4,
        Rule::Forbidden => 5,
        Rule::NotGranted => 6,
        Rule::OverLimit => 7,
    }
}

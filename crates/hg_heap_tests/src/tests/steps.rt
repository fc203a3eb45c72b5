//! Calls on a heap as data, with what each must be answered, and one function that goes over them.

use crate::tests::heaps::{Tried, handle, live};
use hg_heap::Refused;
use hg_place::{Actor, Handle, Place, Standing};
use std::alloc::Global;
use std::process::Abort;

/// A block, by its segment, its page, its index there, and its generation.
#[derive(Clone, Copy)]
pub struct Block(pub u8, pub u8, pub u16, pub u32);

/// A call on a heap, and what it must be answered.
pub enum Step {
    /// Whose block, of which arena, and its bytes.
    Alloc(Actor, u8, u64, Result<Block, Refused>),
    Free(Actor, Block, Result<(), Refused>),
    /// The index of a word.
    Read(Actor, Block, u32, Result<u64, Refused>),
    /// The index of a word, and its value.
    Write(Actor, Block, u32, u64, Result<(), Refused>),
    /// What a tenant is charged, in bytes.
    Charge(u8, u64),
    /// Whether a segment is held.
    Holds(u8, bool),
    /// How many pages lose their classes.
    Collect(u32),
    /// A segment comes of which no place was ever given out.
    Adopt(u8),
    /// A segment leaves, if it is held.
    Release(u8, bool),
    /// The block's place is home, after the block's life.
    Home(Block),
    /// The word of the block's place.
    Word(Block, u64),
    /// A worker that hasn't the heap frees the block of an owner.
    Part(Block, u8, Result<(), u64>),
}

/// The handle of a block.
pub fn handle_of(rt: &impl Abort, block: Block) -> Handle {
    let Block(segment, page, index, generation) = block;
    handle(rt, segment, page, index, generation)
}

impl Tried {
    /// Gives out a block. Whether that was answered so.
    fn is_given(
        &mut self,
        rt: &impl Abort,
        actor: Actor,
        arena: u8,
        bytes: u64,
        expected: Result<Block, Refused>,
    ) -> bool {
        let answer = self.alloc(rt, actor, arena, bytes);
        match expected {
            Ok(block) => answer == Ok(handle_of(rt, block)),
            Err(refused) => answer == Err(refused),
        }
    }

    /// A segment leaves. Whether it was held, and isn't any more.
    fn is_released(&mut self, rt: &impl Abort, number: u8) -> bool {
        match self.heap.release(number) {
            Some(segment) => {
                assert!(rt; segment.number() == number);
                assert!(rt; !self.heap.holds(number));
                drop(segment);
                true
            }
            None => false,
        }
    }

    /// Whether the place of a block of a held segment is home, after this life.
    fn is_home(&self, rt: &impl Abort, handle: Handle) -> bool {
        assert!(rt; self.heap.holds(handle.place.segment));
        self.heap.standing(handle.place) == Standing::Home(handle.generation)
    }

    /// The word of a place of a held segment. One look tells it and the record.
    fn word(&self, rt: &impl Abort, place: Place) -> u64 {
        assert!(rt; self.heap.holds(place.segment));
        let (standing, word) = self.heap.told(place);
        assert!(rt; self.heap.standing(place) == standing);
        assert!(rt; self.heap.word(place) == word);
        word
    }

    /// Parts a block of an owner.
    fn part(&mut self, rt: &impl Abort, handle: Handle, owner: u8) -> Result<(), u64> {
        let word = live(rt, handle.generation, owner);
        assert!(rt; self.heap.holds(handle.place.segment));
        self.heap.part(handle.place, word)
    }

    /// Asks for what a place has, or parts it. Whether it was answered so.
    fn is_told(&mut self, rt: &impl Abort, step: &Step) -> bool {
        match step {
            Step::Home(block) => self.is_home(rt, handle_of(rt, *block)),
            Step::Word(block, word) => self.word(rt, handle_of(rt, *block).place) == *word,
            Step::Part(block, owner, expected) => {
                self.part(rt, handle_of(rt, *block), *owner) == *expected
            }
            _ => false,
        }
    }

    /// Makes a call on a block. Whether it was answered so.
    fn is_answered(&mut self, rt: &impl Abort, step: &Step) -> bool {
        match step {
            Step::Alloc(actor, arena, bytes, expected) => {
                self.is_given(rt, *actor, *arena, *bytes, *expected)
            }
            Step::Free(actor, block, expected) => {
                self.free(*actor, handle_of(rt, *block)) == *expected
            }
            Step::Read(actor, block, index, expected) => {
                self.read(*actor, handle_of(rt, *block), *index) == *expected
            }
            Step::Write(actor, block, index, value, expected) => {
                self.write(*actor, handle_of(rt, *block), *index, *value) == *expected
            }
            _ => self.is_told(rt, step),
        }
    }

    /// Makes a call. Whether it was answered so.
    fn is_met(&mut self, rt: &impl Abort, alloc: Global, step: &Step) -> bool {
        match step {
            Step::Charge(owner, bytes) => self.heap.charge(*owner) == *bytes,
            Step::Holds(number, expected) => self.heap.holds(*number) == *expected,
            Step::Collect(pages) => self.heap.collect() == *pages,
            Step::Adopt(number) => {
                self.adopt_fresh(rt, alloc, *number);
                true
            }
            Step::Release(number, expected) => self.is_released(rt, *number) == *expected,
            _ => self.is_answered(rt, step),
        }
    }

    /// Each step must be met.
    pub fn meets(&mut self, rt: &impl Abort, alloc: Global, steps: &[Step]) {
        for (number, step) in steps.iter().enumerate() {
            assert!(rt; self.is_met(rt, alloc, step), "step {number}");
        }
    }
}

/// A heap without segments must meet these steps.
pub fn meets(rt: &impl Abort, alloc: Global, policy: &str, steps: &[Step]) {
    let mut tried = Tried::new(rt, alloc, policy);
    tried.meets(rt, alloc, steps);
    drop(tried);
}

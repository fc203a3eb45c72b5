//! What has the words of a block.

ghost use Rattle.std.specs.Prelude.{ℕ};
ghost use Rattle.hg_machine.specs.declared.Answer.{Answer};

use hg_machine::Answer;

/// Reads and writes single words of blocks, for whoever asks.
pub trait WordStore {
    /// Who asks, and for which block.
    type By;

    // the store has whom this names
    ghost may: { Self.By → Self → Type 0 };
    // what a Read of the word of this index, with this answer, does
    ghost reads: { Self.By → ℕ → Answer → Self → Self → Type 0 };
    // what a Write of this value into the word of this index, with this answer, does
    ghost writes: { Self.By → ℕ → ℕ → Answer → Self → Self → Type 0 };

    /// Reads the word of an index, counted from the block's first, which is 0.
    fn read(&mut self, by: &Self::By, index: u32) -> Answer
        requires { may by.now self.old }
        ensures does { reads by.now index result self.old self.new }
        ensures still { may by.now self.new };

    /// Writes the word of an index, counted from the block's first, which is 0.
    fn write(&mut self, by: &Self::By, index: u32, value: u64) -> Answer
        requires { may by.now self.old }
        ensures does { writes by.now index value result self.old self.new }
        ensures still { may by.now self.new };
}

//! A block of a bank in a host's hands.

ghost use Rattle.std.specs.Prelude.{◌≡◌};
ghost use Rattle.hg_bank_replies.specs.Blocks.{core_of};

/// A block in 16 bytes: the number of its core, and the word of its handle there.
#[repr(C)]
#[derive(Clone, Copy, Debug, PartialEq, Eq)]
pub struct BankBlock {
    pub core: u64,
    pub handle: u64,
}

/// The core of a number up to 65,535; of each other that one, which no bank has.
pub fn core_of(number: u64) -> u16
    ensures { result ≡ core_of number }
{
    number.min(65_535) as u16
}

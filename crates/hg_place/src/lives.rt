//! What a slot word says of the life at its place.

ghost use Rattle.std.specs.Prelude.{◌≡◌, ◌<◌};
ghost use Rattle.hg_place.specs.Lives;
ghost use Rattle.hg_place.specs.Lives.{IsSlotWord};

/// The generation that a word has.
pub fn word_generation(word: u64) -> u32
    ensures { result ≡ Lives.word_generation word }
{
    (word / 0x1_0000_0000) as u32
}

/// The owner that a slot word has, below 64.
pub fn word_owner(word: u64) -> u8
    requires { IsSlotWord word }
    ensures value { result ≡ Lives.word_owner word }
    ensures below { result < 64 }
{
    (word % 0x1_0000_0000 / 2) as u8
}

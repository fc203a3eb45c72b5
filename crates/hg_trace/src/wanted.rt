//! What is wanted in a line.

ghost use Rattle.std.specs.Prelude.{◌≡◌, ◌+◌, option_map};
ghost use Rattle.hg_trace.specs.Forms.{limit_of, has_form, has_block_form, may_be_missing};

use crate::handles::{handle_of, place_of};
use crate::numbers::{number_below, parse_number};
use crate::operands::operands_of;
use crate::read::worker_of;
use hg_place::MAX_SEGMENTS;
use hg_policy_text::is_name;

/// What is wanted in place of what stands at fault in a line.
#[derive(Clone, Copy, Debug, PartialEq, Eq)]
pub enum Wanted {
    /// A blank, or a byte from 21 to 7E (hexadecimal).
    Byte,
    /// A `w` and a number from 0 to 15.
    Worker,
    /// The name of a command.
    Command,
    /// An actor: 1 to 16 bytes of `a` to `z`, `0` to `9`, `_` and `-`, the first a letter.
    Actor,
    /// An arena: a name as of an actor.
    Arena,
    /// How many bytes, from 0 to 18446744073709551615.
    Bytes,
    /// A segment, from 0 to 63.
    Segment,
    /// Which word of a block, from 0 to 4294967295.
    Index,
    /// What a word is to be, from 0 to 18446744073709551615.
    Value,
    /// A segment, a page and an index, with dots between them.
    Place,
    /// A `@` and a place with a generation behind it, or a label.
    Block,
    /// The word `as`, or nothing.
    As,
    /// The label that the line gives: a name as of an actor.
    Label,
    /// The line's end.
    Nothing,
    /// A label that an earlier line gave.
    GivenLabel,
    /// A label that no earlier line gave.
    NewLabel,
}

impl Wanted {
    /// The greatest number that is wanted, where a number from 0 on is.
    pub fn most(self) -> Option<u64>
        ensures { option_map (λ most. most + 1) result ≡ limit_of self }
    {
        match self {
            Wanted::Bytes | Wanted::Value => Some(u64::MAX),
            Wanted::Segment => Some(MAX_SEGMENTS as u64 - 1),
            Wanted::Index => Some(4_294_967_295),
            _ => None,
        }
    }

    /// Whether a word is what is wanted.
    pub(crate) fn is_form_of(self, word: &[u8]) -> bool
        ensures { result ≡ has_form self word.now }
    {
        match self {
            Wanted::Worker => worker_of(word).is_ok(),
            Wanted::Command => operands_of(word).is_some(),
            Wanted::Actor | Wanted::Arena | Wanted::Label => is_name(word),
            Wanted::Bytes | Wanted::Value => parse_number(word).is_some(),
            Wanted::Segment => number_below(word, MAX_SEGMENTS as u64).is_some(),
            Wanted::Index => number_below(word, 1 << 32).is_some(),
            Wanted::Place => place_of(word).is_ok(),
            Wanted::Block => is_block(word),
            Wanted::As => matches!(word, b"as"),
            Wanted::Byte | Wanted::Nothing | Wanted::GivenLabel | Wanted::NewLabel => false,
        }
    }

    /// Whether the line may end here.
    pub(crate) fn may_be_missing(self) -> bool
        ensures { result ≡ may_be_missing self }
    {
        matches!(self, Wanted::Worker | Wanted::As | Wanted::Nothing)
    }
}

/// Whether a word has the form of a block.
#[tactic(auto, unfolding(crate::specs::Blocks::block_of))]
fn is_block(word: &[u8]) -> bool
    ensures { result ≡ has_block_form word.now }
{
    match word {
        [b'@', text @ ..] => handle_of(text).is_ok(),
        _ => is_name(word),
    }
}

//! What a host is answered.

ghost use Rattle.std.specs.Prelude.{◌≡◌};
ghost use Rattle.hg_machine.specs.declared.Answer.TheVariants as Answer;
ghost use Rattle.hg_reply.specs.Replies.{plain, valued, denial, reply_of};

use hg_machine::{Answer, Row, Rule};

/// An answer in 16 bytes: what came of a call, and what comes with it.
#[repr(C)]
#[derive(Clone, Copy, Debug, PartialEq, Eq)]
pub struct Reply {
    pub status: u16,
    /// The tenant whose block is listed.
    pub owner: u16,
    /// The bytes of a listed block, or the generation that a stale handle met.
    pub detail: u32,
    pub value: u64,
}

impl Reply {
    /// A status with nothing beside it.
    pub fn plain(status: u16) -> Reply
        ensures { result ≡ plain status }
    {
        Reply::valued(status, 0)
    }

    /// A status with a value.
    pub fn valued(status: u16, value: u64) -> Reply
        ensures { result ≡ valued status value }
    {
        Reply {
            status,
            owner: 0,
            detail: 0,
            value,
        }
    }

    /// The row of a block.
    pub fn listed(row: Row) -> Reply
        ensures { result ≡ reply_of (Answer.Listed row) }
    {
        Reply {
            status: 8,
            owner: u16::from(row.owner),
            detail: row.bytes,
            value: row.handle.to_u64(),
        }
    }
}

fn denial(rule: Rule) -> Reply
    ensures { result ≡ denial rule }
{
    match rule {
        Rule::Stranger => Reply::plain(32),
        Rule::Stale(generation) => Reply {
            status: 33,
            owner: 0,
            detail: generation,
            value: 0,
        },
        Rule::AlreadyFreed => Reply::plain(34),
        Rule::ForeignArena => Reply::plain(35),
        Rule::NotGranted => Reply::plain(36),
        Rule::OverLimit => Reply::plain(37),
        Rule::Forbidden => Reply::plain(38),
    }
}

/// The reply that stands for an answer of the machine.
pub fn reply_of(answer: Answer) -> Reply
    ensures { result ≡ reply_of answer }
{
    match answer {
        Answer::Block(handle) => Reply::valued(1, handle.to_u64()),
        Answer::Done => Reply::plain(2),
        Answer::Parted => Reply::plain(3),
        Answer::Value(word) => Reply::valued(4, word),
        Answer::Taken(places) => Reply::valued(5, u64::from(places)),
        Answer::Pages(pages) => Reply::valued(6, u64::from(pages)),
        Answer::Refilled(segment) => Reply::valued(7, u64::from(segment)),
        Answer::Listed(row) => Reply::listed(row),
        Answer::Denied(rule) => denial(rule),
        Answer::TooLarge => Reply::plain(16),
        Answer::NoRoom => Reply::plain(17),
        Answer::Elsewhere => Reply::plain(18),
        Answer::OutOfBlock => Reply::plain(19),
        Answer::Busy => Reply::plain(20),
        Answer::NothingInHand => Reply::plain(21),
        Answer::NotHeld => Reply::plain(22),
        Answer::NoSegment => Reply::plain(23),
    }
}

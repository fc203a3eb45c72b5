//! Replies that stand for what the core's call tells of a word or a row.

ghost use Rattle.std.specs.Prelude.{◌≡◌};
ghost use Rattle.hg_heap.specs.Answers.{read_answer, done_answer, look_answer};
ghost use Rattle.hg_reply.specs.Replies.{reply_of};

use crate::reply::{Reply, reply_of};
use hg_heap::{Refused, refused_answer};
use hg_machine::Row;

/// The reply that stands for what a read tells.
#[inline(always)]
pub fn read_reply(told: Result<u64, Refused>) -> Reply
    ensures { result ≡ reply_of (read_answer told) }
{
    match told {
        Ok(word) => Reply::valued(4, word),
        Err(refused) => reply_of(refused_answer(refused)),
    }
}

/// The reply that stands for what a write tells.
#[inline(always)]
pub fn write_reply(told: Result<(), Refused>) -> Reply
    ensures { result ≡ reply_of (done_answer told) }
{
    match told {
        Ok(()) => Reply::plain(2),
        Err(refused) => reply_of(refused_answer(refused)),
    }
}

/// The reply that stands for what a look tells.
#[inline(always)]
pub fn look_reply(told: Result<Row, Refused>) -> Reply
    ensures { result ≡ reply_of (look_answer told) }
{
    match told {
        Ok(row) => Reply::listed(row),
        Err(refused) => reply_of(refused_answer(refused)),
    }
}

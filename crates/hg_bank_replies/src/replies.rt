//! Replies that stand for what the bank's calls tell.

ghost use Rattle.std.specs.Prelude.{◌≡◌};
ghost use Rattle.hg_core.specs.Answers.{free_answer, deliver_answer, take_answer, abandon_answer};
ghost use Rattle.hg_bank_replies.specs.Replies.{alloc_reply, placed, refill_reply};
ghost use Rattle.hg_reply.specs.Replies.{reply_of};

use hg_bank::{BankHandle, BankSegment};
use hg_core::{Freed, NoSegment, NotFreed, NotHeld, NothingInHand, Refused};
use hg_heap::refused_answer;
use hg_machine::Answer;
use hg_reply::{Reply, reply_of};

/// A status with a value, and the number of the core that it is of.
pub fn placed(status: u16, core: u16, value: u64) -> Reply
    ensures { result ≡ placed status core value }
{
    Reply {
        status,
        owner: 0,
        detail: u32::from(core),
        value,
    }
}

/// The reply that stands for what an allocation tells.
pub fn alloc_reply(told: Result<BankHandle, Refused>) -> Reply
    ensures { result ≡ alloc_reply told }
{
    match told {
        Ok(block) => placed(1, block.core, block.handle.to_u64()),
        Err(refused) => reply_of(refused_answer(refused)),
    }
}

/// The reply that stands for what a refill tells.
pub fn refill_reply(told: Result<BankSegment, NoSegment>) -> Reply
    ensures { result ≡ refill_reply told }
{
    match told {
        Ok(segment) => placed(7, segment.core, u64::from(segment.segment)),
        Err(_) => reply_of(Answer::NoSegment),
    }
}

/// The reply that stands for what a free tells.
pub(crate) fn free_reply(told: Result<Freed, NotFreed>) -> Reply
    ensures { result ≡ reply_of (free_answer told) }
{
    match told {
        Ok(Freed::Here) => reply_of(Answer::Done),
        Ok(Freed::InHand) => reply_of(Answer::Parted),
        Err(NotFreed::Denied(rule)) => reply_of(Answer::Denied(rule)),
        Err(NotFreed::Busy) => reply_of(Answer::Busy),
    }
}

/// The reply that stands for what a deliver tells.
pub(crate) fn deliver_reply(told: Result<(), NothingInHand>) -> Reply
    ensures { result ≡ reply_of (deliver_answer told) }
{
    match told {
        Ok(()) => reply_of(Answer::Done),
        Err(_) => reply_of(Answer::NothingInHand),
    }
}

/// The reply that stands for what a take tells.
pub(crate) fn take_reply(told: Result<u32, NotHeld>) -> Reply
    ensures { result ≡ reply_of (take_answer told) }
{
    match told {
        Ok(count) => reply_of(Answer::Taken(count)),
        Err(_) => reply_of(Answer::NotHeld),
    }
}

/// The reply that stands for what an abandon tells.
pub(crate) fn abandon_reply(told: Result<(), NotHeld>) -> Reply
    ensures { result ≡ reply_of (abandon_answer told) }
{
    match told {
        Ok(()) => reply_of(Answer::Done),
        Err(_) => reply_of(Answer::NotHeld),
    }
}

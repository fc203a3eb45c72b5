//! What a worker is answered, by what its call told. Of calls that its heap alone serves hg_heap
//! says it.

ghost use Rattle.std.specs.Prelude.{◌≡◌};
ghost use Rattle.hg_core.specs.Answers.{free_answer, deliver_answer, take_answer};
ghost use Rattle.hg_core.specs.Answers.{abandon_answer, refill_answer};

use crate::refusals::{Freed, NoSegment, NotFreed, NotHeld, NothingInHand};
use hg_machine::Answer;

/// The answer to a Free.
pub(crate) fn free_answer(told: Result<Freed, NotFreed>) -> Answer
    ensures { result ≡ free_answer told }
{
    match told {
        Ok(Freed::Here) => Answer::Done,
        Ok(Freed::InHand) => Answer::Parted,
        Err(NotFreed::Denied(rule)) => Answer::Denied(rule),
        Err(NotFreed::Busy) => Answer::Busy,
    }
}

/// The answer to a Deliver.
pub(crate) fn deliver_answer(told: Result<(), NothingInHand>) -> Answer
    ensures { result ≡ deliver_answer told }
{
    match told {
        Ok(()) => Answer::Done,
        Err(_) => Answer::NothingInHand,
    }
}

/// The answer to a Take.
pub(crate) fn take_answer(told: Result<u32, NotHeld>) -> Answer
    ensures { result ≡ take_answer told }
{
    match told {
        Ok(count) => Answer::Taken(count),
        Err(_) => Answer::NotHeld,
    }
}

/// The answer to an Abandon.
pub(crate) fn abandon_answer(told: Result<(), NotHeld>) -> Answer
    ensures { result ≡ abandon_answer told }
{
    match told {
        Ok(()) => Answer::Done,
        Err(_) => Answer::NotHeld,
    }
}

/// The answer to a Refill.
pub(crate) fn refill_answer(told: Result<u8, NoSegment>) -> Answer
    ensures { result ≡ refill_answer told }
{
    match told {
        Ok(segment) => Answer::Refilled(segment),
        Err(_) => Answer::NoSegment,
    }
}

//! One event of a bank worker.

ghost use Rattle.std.specs.Prelude.{◌≡◌};
ghost use Rattle.hg_bank_service_replies.specs.Serving.{PartServes, WorkerServes, refill_told};
ghost use Rattle.hg_service_replies.specs.Serving.{told};

use crate::part::BankPart;
use hg_bank::{BankHandle, BankSegment};
use hg_bank_replies::{alloc_reply, refill_reply};
use hg_bank_service::BankWorker;
use hg_core::NoSegment;
use hg_machine::{Answer, Event};
use hg_reply::status::{AGAIN, CLOSED};
use hg_reply::{Reply, reply_of};

/// Serves one event of a part that is a worker, by the call of its name: an Alloc and a Refill in the
/// core that the worker chooses, which the reply names, and each other in the core of this number.
/// `AGAIN` where another call has what a Deliver, a Take, a Refill or an Abandon needs, and then
/// nothing is done in that core. Any other part is answered `CLOSED`.
#[inline(always)]
pub fn serve(part: &mut BankPart, core: u16, event: Event) -> Reply
    ensures { PartServes part.old core event result part.new }
{
    match part {
        BankPart::Worker(worker) => step(worker, core, event),
        _ => Reply::plain(CLOSED),
    }
}

fn step(worker: &mut BankWorker, core: u16, event: Event) -> Reply
    ensures { WorkerServes worker.old core event result worker.new }
{
    match event {
        Event::Alloc {
            actor,
            arena,
            bytes,
        } => alloc_reply(worker.alloc(actor, arena, bytes)),
        Event::Free { actor, handle } => reply_of(worker.free(actor, BankHandle { core, handle })),
        Event::Deliver => told(worker.deliver(core)),
        Event::Take { segment } => told(worker.take(BankSegment { core, segment })),
        Event::Collect => reply_of(worker.collect(core)),
        Event::Read {
            actor,
            handle,
            index,
        } => reply_of(worker.read(actor, BankHandle { core, handle }, index)),
        Event::Write {
            actor,
            handle,
            index,
            value,
        } => reply_of(worker.write(actor, BankHandle { core, handle }, index, value)),
        Event::Look { actor, place } => reply_of(worker.look(actor, core, place)),
        Event::Abandon { segment } => told(worker.abandon(BankSegment { core, segment })),
        Event::Refill { arena } => refill_told(worker.refill(arena)),
    }
}

/// What came of an event, where it was served.
fn told(answer: Option<Answer>) -> Reply
    ensures { result ≡ told answer }
{
    match answer {
        Some(answer) => reply_of(answer),
        None => Reply::plain(AGAIN),
    }
}

/// What came of a refill, where each core up to the one that serves could be asked.
fn refill_told(answer: Option<Result<BankSegment, NoSegment>>) -> Reply
    ensures { result ≡ refill_told answer }
{
    match answer {
        Some(answer) => refill_reply(answer),
        None => Reply::plain(AGAIN),
    }
}

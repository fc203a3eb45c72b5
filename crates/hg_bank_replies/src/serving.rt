//! One event of a worker at a bank, and one core more.

ghost use Rattle.std.specs.Prelude.{◌≡◌, ◌<◌, ◌≤◌, MatchOption};
ghost use Rattle.hg_bank_replies.specs.Serving.{Grows, Serves, Steps};

use crate::replies::{
    abandon_reply, alloc_reply, deliver_reply, free_reply, refill_reply, take_reply,
};
use hg_bank::{Bank, BankHandle, BankSegment};
use hg_machine::{Answer, Event};
use hg_reply::status::{FULL, NO_MEMORY, NO_WORKER, VALUE};
use hg_reply::{Reply, look_reply, read_reply, reply_of, write_reply};
use std::alloc::Global;

/// The worker of a number, if the bank's policy has one.
pub fn worker_of(bank: &Bank, number: u32) -> Option<u8>
    ensures { MatchOption result (bank.now.policy.workers ≤ number)
        (λ worker. (number ≡ worker) × (worker < bank.now.policy.workers)) }
{
    if number < u32::from(bank.policy().workers()) {
        Some(number as u8)
    } else {
        None
    }
}

/// Serves one event of a worker, in the core of this number where it names a core.
fn step(bank: &mut Bank, worker: u8, core: u16, event: Event) -> Reply
    requires { worker < bank.old.policy.workers }
    ensures { Steps bank.old worker core event result bank.new }
{
    match event {
        Event::Alloc {
            actor,
            arena,
            bytes,
        } => alloc_reply(bank.alloc(worker, actor, arena, bytes)),
        Event::Free { actor, handle } => {
            free_reply(bank.free(worker, actor, BankHandle { core, handle }))
        }
        Event::Deliver => deliver_reply(bank.deliver(worker, core)),
        Event::Take { segment } => take_reply(bank.take(worker, BankSegment { core, segment })),
        Event::Collect => reply_of(Answer::Pages(bank.collect(worker, core))),
        Event::Read {
            actor,
            handle,
            index,
        } => read_reply(bank.read(worker, actor, BankHandle { core, handle }, index)),
        Event::Write {
            actor,
            handle,
            index,
            value,
        } => write_reply(bank.write(worker, actor, BankHandle { core, handle }, index, value)),
        Event::Look { actor, place } => look_reply(bank.look(worker, actor, core, place)),
        Event::Abandon { segment } => {
            abandon_reply(bank.abandon(worker, BankSegment { core, segment }))
        }
        Event::Refill { arena } => refill_reply(bank.refill(worker, arena)),
    }
}

/// Serves one event of a worker, if there is such a worker: an Alloc and a Refill in the core that
/// the bank chooses, which the reply names, and each other in the core of this number.
pub fn serve(bank: &mut Bank, worker: u32, core: u16, event: Event) -> Reply
    ensures { Serves bank.old worker core event result bank.new }
{
    let Some(worker) = worker_of(bank, worker) else {
        return Reply::plain(NO_WORKER);
    };
    step(bank, worker, core, event)
}

/// Opens one core more, and tells its number. `FULL` and `NO_MEMORY` change nothing.
pub fn grow(alloc: Global, bank: &mut Bank) -> Reply
    ensures { Grows bank.old result bank.new }
{
    if bank.is_full() {
        return Reply::plain(FULL);
    }
    match bank.grow(alloc) {
        Ok(core) => Reply::valued(VALUE, u64::from(core)),
        Err(_) => Reply::plain(NO_MEMORY),
    }
}

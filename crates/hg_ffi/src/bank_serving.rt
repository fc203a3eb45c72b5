//! One event of a worker at a host's bank, one core more, and what a host asks a bank.

ghost use Rattle.std.specs.Prelude.{◌≡◌, ◌≢◌, IfSome, IfNone};
ghost use Rattle.hg_bank_replies.specs.Blocks.{core_of};
ghost use Rattle.hg_reply.specs.Naming.{number_of};
ghost use Rattle.hg_ffi.specs.Banks.{Finds, Grows, IsSame, Serves, Tells, TellsName};
ghost use Rattle.hg_ffi.specs.Owning.{bank_mark};

use crate::host_bank::HostBank;
use crate::lent_bank::LentBank;
use hg_bank::Bank;
use hg_bank_replies::{BankQuestion, answer, core_of, grow, serve, shut};
use hg_machine::Event;
use hg_reply::status::CLOSED;
use hg_reply::{NOBODY, Name, Reply, find_number, tell_name};
use std::alloc::Global;
use std::mem;

/// Takes the bank out of an open one, which is closed then.
pub fn taken(alloc: Global, host: &mut HostBank) -> Option<Box<Bank, Global>>
    ensures open { IfSome result
        (λ bank. (host.old.mark ≡ bank_mark) × (bank.value ≡ host.old.bank)) }
    ensures closed { IfNone result ((host.old.mark ≢ bank_mark) × IsSame host.old host.new) }
{
    match mem::replace(host, HostBank::closed()).into_bank(alloc) {
        Ok(bank) => Some(bank),
        Err(closed) => {
            *host = closed;
            None
        }
    }
}

/// Serves one event of a worker, where the bank is open and has that worker: in the core of this
/// number where the event names a core.
pub fn serve_bank(alloc: Global, host: &mut HostBank, worker: u32, core: u64, event: Event) -> Reply
    ensures { Serves host.old worker (core_of core) event result host.new }
{
    let Some(mut bank) = taken(alloc, host) else {
        return Reply::plain(CLOSED);
    };
    let reply = serve(&mut bank, worker, core_of(core), event);
    *host = HostBank::of(bank);
    reply
}

/// Opens one core more of a bank that is open.
pub fn grow_bank(alloc: Global, host: &mut HostBank) -> Reply
    ensures { Grows host.old result host.new }
{
    let Some(mut bank) = taken(alloc, host) else {
        return Reply::plain(CLOSED);
    };
    let reply = grow(alloc, &mut bank);
    *host = HostBank::of(bank);
    reply
}

/// Asks a bank.
pub fn ask_bank(host: &LentBank, question: BankQuestion) -> Reply
    ensures { Tells host.now question result }
{
    match host.bank() {
        Some(bank) => answer(bank, question),
        None => shut(question),
    }
}

/// Finds the number of a name in a bank's policy.
pub fn find_bank_number(host: &LentBank, name: Name<'_>) -> Reply
    ensures { Finds host.now (λ bank. number_of name.entry bank.policy) result }
{
    match host.bank() {
        Some(bank) => find_number(bank.policy(), name),
        None => Reply::valued(CLOSED, NOBODY),
    }
}

/// Finds the name of a tenant of a bank's policy.
pub fn find_bank_name(host: &LentBank, tenant: u8, room: &mut [u8]) -> Reply
    ensures { TellsName host.now tenant room.old result room.new }
{
    match host.bank() {
        Some(bank) => tell_name(bank.policy(), tenant, room),
        None => Reply::plain(CLOSED),
    }
}

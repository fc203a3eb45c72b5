//! What a host asks a part of a bank of services.

ghost use Rattle.std.specs.Prelude.{◌≡◌, ◌≢◌, IfSome, IfNone, Some};
ghost use Rattle.hg_bank_replies.specs.Blocks.{core_of};
ghost use Rattle.hg_reply.specs.Naming.{number_of};
ghost use Rattle.hg_bank_service_ffi.specs.Owning.{bank_part_mark};
ghost use Rattle.hg_bank_service_ffi.specs.BankParts.{Finds, GivesUpService, GivesUpWorker};
ghost use Rattle.hg_bank_service_ffi.specs.BankParts.{IsSame, Keeps, Leaves, Lists, Serves, Tells};

use crate::host_bank_part::HostBankPart;
use hg_bank_replies::core_of;
use hg_bank_service_replies::{
    BankPart, BankPartQuestion, answer, drop_service, drop_worker, find, leave, list, serve,
};
use hg_machine::Event;
use hg_place::Actor;
use hg_reply::status::CLOSED;
use hg_reply::{NOBODY, Name, Reply};
use std::alloc::Global;
use std::mem;

/// Takes the part out of an open one.
#[inline(always)]
pub fn taken_part(alloc: Global, host: &mut HostBankPart) -> Option<Box<BankPart, Global>>
    ensures open { IfSome result
        (λ part. (host.old.mark ≡ bank_part_mark) × (host.old.part ≡ Some part.value)) }
    ensures closed { IfNone result
        ((host.old.mark ≢ bank_part_mark) × IsSame host.old host.new) }
{
    match mem::replace(host, HostBankPart::closed()).into_part(alloc) {
        Ok(part) => Some(part),
        Err(closed) => {
            *host = closed;
            None
        }
    }
}

/// An open one, of what there is; of a worker that has left or nothing any more, a closed one.
#[inline(always)]
pub fn kept(part: Box<BankPart, Global>) -> HostBankPart
    ensures { Keeps part.value result }
{
    match &*part {
        BankPart::Left(_gone) => HostBankPart::closed(),
        BankPart::Gone => HostBankPart::closed(),
        _ => HostBankPart::of(part),
    }
}

/// Serves one event of a worker, in the core of this number where it names one.
#[inline(always)]
pub fn serve_bank_part(alloc: Global, host: &mut HostBankPart, core: u64, event: Event) -> Reply
    ensures { Serves host.old (core_of core) event result host.new }
{
    let Some(mut part) = taken_part(alloc, host) else {
        return Reply::plain(CLOSED);
    };
    let reply = serve(&mut part, core_of(core), event);
    *host = kept(part);
    reply
}

/// Shows an actor the blocks that a worker holds in the core of this number.
pub fn list_bank_part(
    alloc: Global,
    host: &mut HostBankPart,
    core: u64,
    actor: Actor,
    room: &mut [Reply],
) -> Reply
    ensures { Lists host.old (core_of core) actor room.old result host.new room.new }
{
    let Some(mut part) = taken_part(alloc, host) else {
        return Reply::plain(CLOSED);
    };
    let reply = list(alloc, &mut part, core_of(core), actor, room);
    *host = kept(part);
    reply
}

/// A worker leaves its bank of services.
pub fn leave_bank_part(alloc: Global, host: &mut HostBankPart) -> Reply
    ensures { Leaves host.old result host.new }
{
    let Some(mut part) = taken_part(alloc, host) else {
        return Reply::plain(CLOSED);
    };
    let reply = leave(&mut part);
    *host = kept(part);
    reply
}

/// Gives up a worker, and frees its memory.
pub fn drop_bank_worker_part(alloc: Global, host: &mut HostBankPart) -> Reply
    ensures { GivesUpWorker host.old result host.new }
{
    let Some(mut part) = taken_part(alloc, host) else {
        return Reply::plain(CLOSED);
    };
    let reply = drop_worker(&mut part);
    *host = kept(part);
    reply
}

/// Gives up a bank of services, or the bank that it became, and frees its memory.
pub fn drop_bank_service_part(alloc: Global, host: &mut HostBankPart) -> Reply
    ensures { GivesUpService host.old result host.new }
{
    let Some(mut part) = taken_part(alloc, host) else {
        return Reply::plain(CLOSED);
    };
    let reply = drop_service(&mut part);
    *host = kept(part);
    reply
}

/// Asks a part.
pub fn ask_bank_part(alloc: Global, host: &mut HostBankPart, question: BankPartQuestion) -> Reply
    ensures { Tells host.old question result host.new }
{
    let Some(part) = taken_part(alloc, host) else {
        return Reply::plain(CLOSED);
    };
    let reply = answer(&part, question);
    *host = kept(part);
    reply
}

/// Finds the number of a name in the policy of a bank of services.
pub fn find_in_bank_part(alloc: Global, host: &mut HostBankPart, name: Name<'_>) -> Reply
    ensures { Finds host.old (number_of name.entry) result host.new }
{
    let Some(part) = taken_part(alloc, host) else {
        return Reply::valued(CLOSED, NOBODY);
    };
    let reply = find(&part, name);
    *host = kept(part);
    reply
}

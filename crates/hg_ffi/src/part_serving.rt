//! What a host asks a part of a service.

ghost use Rattle.std.specs.Prelude.{◌≡◌, ◌≢◌, IfSome, IfNone, Some};
ghost use Rattle.hg_reply.specs.Naming.{number_of};
ghost use Rattle.hg_ffi.specs.Owning.{part_mark};
ghost use Rattle.hg_ffi.specs.Parts.{Finds, GivesUpService, GivesUpWorker, IsSame, Keeps, Leaves};
ghost use Rattle.hg_ffi.specs.Parts.{Lists, Serves, Tells};

use crate::host_part::HostPart;
use hg_machine::Event;
use hg_place::Actor;
use hg_reply::status::CLOSED;
use hg_reply::{NOBODY, Name, Reply};
use hg_service_replies::{
    HostedPart, PartQuestion, answer, drop_service, drop_worker, find, leave, list, serve,
};
use std::alloc::Global;
use std::mem;

/// Takes the part out of an open one.
#[inline(always)]
pub fn taken_part(alloc: Global, host: &mut HostPart) -> Option<Box<HostedPart, Global>>
    ensures open { IfSome result
        (λ part. (host.old.mark ≡ part_mark) × (host.old.part ≡ Some part.value)) }
    ensures closed { IfNone result ((host.old.mark ≢ part_mark) × IsSame host.old host.new) }
{
    match mem::replace(host, HostPart::closed()).into_part(alloc) {
        Ok(part) => Some(part),
        Err(closed) => {
            *host = closed;
            None
        }
    }
}

/// An open one, of what there is; of a worker that has left or nothing any more, a closed one.
#[inline(always)]
pub fn kept(part: Box<HostedPart, Global>) -> HostPart
    ensures { Keeps part.value result }
{
    match &*part {
        HostedPart::Left(_gone) => HostPart::closed(),
        HostedPart::Gone => HostPart::closed(),
        _ => HostPart::of(part),
    }
}

/// Serves one event of a worker.
#[inline(always)]
pub fn serve_part(alloc: Global, host: &mut HostPart, event: Event) -> Reply
    ensures { Serves host.old event result host.new }
{
    let Some(mut part) = taken_part(alloc, host) else {
        return Reply::plain(CLOSED);
    };
    let reply = serve(&mut part, event);
    *host = kept(part);
    reply
}

/// Shows an actor the blocks that a worker holds.
pub fn list_part(alloc: Global, host: &mut HostPart, actor: Actor, room: &mut [Reply]) -> Reply
    ensures { Lists host.old actor room.old result host.new room.new }
{
    let Some(mut part) = taken_part(alloc, host) else {
        return Reply::plain(CLOSED);
    };
    let reply = list(alloc, &mut part, actor, room);
    *host = kept(part);
    reply
}

/// A worker leaves its service.
pub fn leave_part(alloc: Global, host: &mut HostPart) -> Reply
    ensures { Leaves host.old result host.new }
{
    let Some(mut part) = taken_part(alloc, host) else {
        return Reply::plain(CLOSED);
    };
    let reply = leave(&mut part);
    *host = kept(part);
    reply
}

/// Gives up a worker, and frees its memory.
pub fn drop_worker_part(alloc: Global, host: &mut HostPart) -> Reply
    ensures { GivesUpWorker host.old result host.new }
{
    let Some(mut part) = taken_part(alloc, host) else {
        return Reply::plain(CLOSED);
    };
    let reply = drop_worker(&mut part);
    *host = kept(part);
    reply
}

/// Gives up a service, or the core that it became, and frees its memory.
pub fn drop_service_part(alloc: Global, host: &mut HostPart) -> Reply
    ensures { GivesUpService host.old result host.new }
{
    let Some(mut part) = taken_part(alloc, host) else {
        return Reply::plain(CLOSED);
    };
    let reply = drop_service(&mut part);
    *host = kept(part);
    reply
}

/// Asks a part.
pub fn ask_part(alloc: Global, host: &mut HostPart, question: PartQuestion) -> Reply
    ensures { Tells host.old question result host.new }
{
    let Some(part) = taken_part(alloc, host) else {
        return Reply::plain(CLOSED);
    };
    let reply = answer(&part, question);
    *host = kept(part);
    reply
}

/// Finds the number of a name in a service's policy.
pub fn find_in_part(alloc: Global, host: &mut HostPart, name: Name<'_>) -> Reply
    ensures { Finds host.old (number_of name.entry) result host.new }
{
    let Some(part) = taken_part(alloc, host) else {
        return Reply::valued(CLOSED, NOBODY);
    };
    let reply = find(&part, name);
    *host = kept(part);
    reply
}

//! A service opens, gives its workers, and becomes a core.

ghost use Rattle.std.specs.Prelude.{◌≡◌, ◌≢◌, IfOk, IfErr, MatchResult};
ghost use Rattle.hg_policy_text.specs.Document.{document_of};
ghost use Rattle.hg_policy_text.specs.Faults.{FailsAs, fault_of};
ghost use Rattle.hg_ffi.specs.PartOpening.{Becomes, Gives, GivesNone, HandsOut, Makes, MakesNone, Opens};
ghost use Rattle.hg_service_replies.specs.declared.part.HostedPart.TheVariants as part;
ghost use Rattle.hg_service_replies.specs.Opening.{IsOpening};

use crate::host_core::HostCore;
use crate::host_part::HostPart;
use crate::opening::{status_of, tell_fault};
use crate::part_serving::{kept, taken_part};
use hg_core::Core;
use hg_policy_text::PolicyFault;
use hg_reply::Reply;
use hg_reply::status::{CLOSED, DONE, HELD, NO_MEMORY};
use hg_service_replies::{HostedPart, close, open, take_worker};
use std::alloc::Global;
use std::mem;

/// A service of the policy that a text is.
fn open_part(alloc: Global, text: &[u8]) -> Result<Box<HostedPart, Global>, PolicyFault>
    ensures { MatchResult result (λ part. IsOpening text.now part.value)
        (λ fault. FailsAs (fault_of fault) (document_of text.now)) }
{
    let part = open(alloc, text)?;
    let boxed = Box::new(alloc, part)?;
    Ok(boxed)
}

/// Opens what isn't open.
pub fn open_service(alloc: Global, text: &[u8], host: &mut HostPart, room: &mut [u8]) -> Reply
    ensures { Opens host.old text.now room.old result host.new room.new }
{
    match mem::replace(host, HostPart::closed()).into_part(alloc) {
        Ok(part) => {
            *host = HostPart::of(part);
            Reply::plain(HELD)
        }
        Err(closed) => match open_part(alloc, text) {
            Ok(part) => {
                *host = HostPart::of(part);
                Reply::plain(DONE)
            }
            Err(fault) => {
                *host = closed;
                let count = tell_fault(alloc, &fault, room);
                Reply::valued(status_of(&fault), count as u64)
            }
        },
    }
}

/// The worker of this number, once there is memory for it.
fn worker_for(
    alloc: Global,
    service: &mut HostPart,
    number: u32,
) -> Result<Box<HostedPart, Global>, Reply>
    ensures given { IfOk result (λ room. (worker : _) × (room.value ≡ part.Worker worker)
        × Gives service.old number worker service.new) }
    ensures none { IfErr result (λ why. GivesNone service.old number why service.new) }
    ensures refused { IfErr result (λ why. why.status ≢ 2) }
{
    let Some(mut part) = taken_part(alloc, service) else {
        return Err(Reply::plain(CLOSED));
    };
    let Ok(mut room) = Box::new(alloc, HostedPart::Gone) else {
        *service = HostPart::of(part);
        return Err(Reply::plain(NO_MEMORY));
    };
    let given = take_worker(&mut part, number);
    *service = kept(part);
    *room = HostedPart::Worker(given?);
    Ok(room)
}

/// Gives a worker of a service, where none stands yet.
pub fn hand_worker(
    alloc: Global,
    service: &mut HostPart,
    number: u32,
    worker: &mut HostPart,
) -> Reply
    ensures { HandsOut service.old number worker.old result service.new worker.new }
{
    match mem::replace(worker, HostPart::closed()).into_part(alloc) {
        Ok(part) => {
            *worker = HostPart::of(part);
            Reply::plain(HELD)
        }
        Err(closed) => match worker_for(alloc, service, number) {
            Ok(part) => {
                *worker = HostPart::of(part);
                Reply::plain(DONE)
            }
            Err(why) => {
                *worker = closed;
                why
            }
        },
    }
}

/// The core that a service becomes. Where there is no memory for it, it waits there.
fn core_of(alloc: Global, service: &mut HostPart) -> Result<Box<Core, Global>, Reply>
    ensures made { IfOk result (λ core. Makes service.old core.value service.new) }
    ensures none { IfErr result (λ why. MakesNone service.old why service.new) }
    ensures refused { IfErr result (λ why. why.status ≢ 2) }
{
    let Some(mut part) = taken_part(alloc, service) else {
        return Err(Reply::plain(CLOSED));
    };
    let made = close(alloc, &mut part);
    match made {
        Ok(core) => match Box::new(alloc, core) {
            Ok(boxed) => {
                *service = kept(part);
                Ok(boxed)
            }
            Err(failed) => {
                *part = HostedPart::Core(failed.value);
                *service = kept(part);
                Err(Reply::plain(NO_MEMORY))
            }
        },
        Err(why) => {
            *service = kept(part);
            Err(why)
        }
    }
}

/// A service becomes a core, where none stands yet.
pub fn close_service(alloc: Global, service: &mut HostPart, core: &mut HostCore) -> Reply
    ensures { Becomes service.old core.old result service.new core.new }
{
    match mem::replace(core, HostCore::closed()).into_core(alloc) {
        Ok(there) => {
            *core = HostCore::of(there);
            Reply::plain(HELD)
        }
        Err(closed) => match core_of(alloc, service) {
            Ok(made) => {
                *core = HostCore::of(made);
                Reply::plain(DONE)
            }
            Err(why) => {
                *core = closed;
                why
            }
        },
    }
}

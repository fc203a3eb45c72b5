//! One event of a worker at a host's core.

ghost use Rattle.std.specs.Prelude.{◌≡◌, ◌≢◌, ◌<◌, ◌≤◌, IfSome, IfNone, MatchOption};
ghost use Rattle.hg_machine.specs.declared.Event.TheVariants as Event;
ghost use Rattle.hg_ffi.specs.Calls.{IsSame, Steps, Serves};
ghost use Rattle.hg_ffi.specs.Owning.{open_mark};

use crate::host_core::HostCore;
use hg_core::Core;
use hg_machine::Event;
use hg_place::{Actor, Handle, Place};
use hg_reply::status::{CLOSED, NO_WORKER};
use hg_reply::{Reply, look_reply, read_reply, reply_of, write_reply};
use std::alloc::Global;
use std::mem;

/// The worker of a number, if the core's policy has one.
#[inline(always)]
pub fn worker_of(core: &Core, number: u32) -> Option<u8>
    ensures { MatchOption result (core.now.state.policy.workers ≤ number)
        (λ worker. (number ≡ worker) × (worker < core.now.state.policy.workers)) }
{
    if number < u32::from(core.policy().workers()) {
        Some(number as u8)
    } else {
        None
    }
}

/// Serves one event of a worker, if there is such a worker.
#[inline(always)]
fn step(core: &mut Core, worker: u32, event: Event) -> Reply
    ensures { Steps core.old worker event result core.new }
{
    let Some(worker) = worker_of(core, worker) else {
        return Reply::plain(NO_WORKER);
    };
    reply_of(core.step(worker, event))
}

/// Reads a word for a worker, if there is such a worker.
#[inline(always)]
fn read(core: &mut Core, worker: u32, actor: Actor, handle: Handle, index: u32) -> Reply
    ensures { Steps core.old worker (Event.Read actor handle index) result core.new }
{
    let Some(worker) = worker_of(core, worker) else {
        return Reply::plain(NO_WORKER);
    };
    read_reply(core.read(worker, actor, handle, index))
}

/// Writes a word for a worker, if there is such a worker.
#[inline(always)]
fn write(
    core: &mut Core,
    worker: u32,
    actor: Actor,
    handle: Handle,
    index: u32,
    value: u64,
) -> Reply
    ensures { Steps core.old worker (Event.Write actor handle index value) result core.new }
{
    let Some(worker) = worker_of(core, worker) else {
        return Reply::plain(NO_WORKER);
    };
    write_reply(core.write(worker, actor, handle, index, value))
}

/// Looks at a block for a worker, if there is such a worker.
#[inline(always)]
fn look(core: &mut Core, worker: u32, actor: Actor, place: Place) -> Reply
    ensures { Steps core.old worker (Event.Look actor place) result core.new }
{
    let Some(worker) = worker_of(core, worker) else {
        return Reply::plain(NO_WORKER);
    };
    look_reply(core.look(worker, actor, place))
}

/// Takes the core out of an open one, which is closed then.
#[inline(always)]
pub fn taken(alloc: Global, host: &mut HostCore) -> Option<Box<Core, Global>>
    ensures open { IfSome result
        (λ core. (host.old.mark ≡ open_mark) × (core.value ≡ host.old.core)) }
    ensures closed { IfNone result ((host.old.mark ≢ open_mark) × IsSame host.old host.new) }
{
    match mem::replace(host, HostCore::closed()).into_core(alloc) {
        Ok(core) => Some(core),
        Err(closed) => {
            *host = closed;
            None
        }
    }
}

/// Serves one event of a worker, where the core is open and has that worker.
#[inline(always)]
pub fn serve(alloc: Global, host: &mut HostCore, worker: u32, event: Event) -> Reply
    ensures { Serves host.old worker event result host.new }
{
    let Some(mut core) = taken(alloc, host) else {
        return Reply::plain(CLOSED);
    };
    let reply = step(&mut core, worker, event);
    *host = HostCore::of(core);
    reply
}

/// As `serve` of a Read. An event and its answer go through memory, which the processor waits for;
/// here neither is made.
#[inline(always)]
pub fn serve_read(
    alloc: Global,
    host: &mut HostCore,
    worker: u32,
    actor: Actor,
    handle: Handle,
    index: u32,
) -> Reply
    ensures { Serves host.old worker (Event.Read actor handle index) result host.new }
{
    let Some(mut core) = taken(alloc, host) else {
        return Reply::plain(CLOSED);
    };
    let reply = read(&mut core, worker, actor, handle, index);
    *host = HostCore::of(core);
    reply
}

/// As `serve` of a Write, in the way of `serve_read`.
#[inline(always)]
pub fn serve_write(
    alloc: Global,
    host: &mut HostCore,
    worker: u32,
    actor: Actor,
    handle: Handle,
    index: u32,
    value: u64,
) -> Reply
    ensures { Serves host.old worker (Event.Write actor handle index value) result host.new }
{
    let Some(mut core) = taken(alloc, host) else {
        return Reply::plain(CLOSED);
    };
    let reply = write(&mut core, worker, actor, handle, index, value);
    *host = HostCore::of(core);
    reply
}

/// As `serve` of a Look, in the way of `serve_read`.
#[inline(always)]
pub fn serve_look(
    alloc: Global,
    host: &mut HostCore,
    worker: u32,
    actor: Actor,
    place: Place,
) -> Reply
    ensures { Serves host.old worker (Event.Look actor place) result host.new }
{
    let Some(mut core) = taken(alloc, host) else {
        return Reply::plain(CLOSED);
    };
    let reply = look(&mut core, worker, actor, place);
    *host = HostCore::of(core);
    reply
}

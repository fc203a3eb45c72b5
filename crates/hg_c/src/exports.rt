//! What a host calls.

ghost use Rattle.std.specs.Prelude.{◌≡◌};
ghost use Rattle.std.specs.Str.{IsUtf8};
ghost use Rattle.hg_machine.specs.declared.Event.TheVariants as event;
ghost use Rattle.hg_policy.specs.Names.{tenant_number, arena_number};
ghost use Rattle.hg_ffi.specs.declared.asking.Question.TheVariants as question;
ghost use Rattle.hg_ffi.specs.Asking.{Tells, answer_to};
ghost use Rattle.hg_ffi.specs.Calls.{Serves, ServesOn, ServesAt, Closes, IsSame};
ghost use Rattle.hg_ffi.specs.Holding.{TellsCharge, TellsHolder};
ghost use Rattle.hg_ffi.specs.Naming.{Finds, TellsName};
ghost use Rattle.hg_reply.specs.Naming.{unnamed};
ghost use Rattle.hg_reply.specs.Numbers.{actor_of, byte_of};
ghost use Rattle.hg_ffi.specs.Opening.{Opens};
ghost use Rattle.hg_c.specs.Version.{release};

use crate::version::version;
use hg_ffi::asking::{Question, ask};
use hg_ffi::holding::{tell_charge, tell_holder};
use hg_ffi::host_core::HostCore;
use hg_ffi::lent_core::LentCore;
use hg_ffi::naming::{find_name, find_number};
use hg_ffi::opening::open;
use hg_ffi::serving::{serve, serve_look, serve_read, serve_write};
use hg_machine::Event;
use hg_place::Handle;
use hg_reply::status::{CLOSED, DONE, NO_BLOCK};
use hg_reply::{Name, Reply, actor_of, byte_of, place_of, unnamed};
use std::alloc::Global;
use std::mem;

/// The release of this library, as one number.
#[unsafe(no_mangle)]
pub extern "C" fn hg_version() -> u32
    ensures { result ≡ release 0 1 0 }
{
    version()
}

/// Opens a core by the text of its policy. Where the text is no policy, the status tells its first
/// fault, and the value how many bytes of the fault's line stand in `room`.
#[unsafe(no_mangle)]
pub extern "C" fn hg_open(
    alloc: Global,
    host: &mut HostCore,
    policy: &[u8],
    room: &mut [u8],
) -> Reply
    ensures { Opens host.old policy.now room.old result host.new room.new }
{
    open(alloc, policy, host, room)
}

/// Closes a core, and frees its memory.
#[unsafe(no_mangle)]
pub extern "C" fn hg_close(alloc: Global, host: &mut HostCore) -> Reply
    ensures { Closes host.old result host.new }
{
    match mem::replace(host, HostCore::closed()).into_core(alloc) {
        Ok(core) => {
            drop(core);
            Reply::plain(DONE)
        }
        Err(closed) => {
            *host = closed;
            Reply::plain(CLOSED)
        }
    }
}

/// Asks for a block of so many bytes.
#[unsafe(no_mangle)]
pub extern "C" fn hg_alloc(
    alloc: Global,
    host: &mut HostCore,
    worker: u32,
    actor: u32,
    arena: u32,
    bytes: u64,
) -> Reply
    ensures { Serves host.old worker (event.Alloc (actor_of actor) (byte_of arena) bytes)
        result host.new }
{
    let (actor, arena) = (actor_of(actor), byte_of(arena));
    serve(
        alloc,
        host,
        worker,
        Event::Alloc {
            actor,
            arena,
            bytes,
        },
    )
}

/// Frees a block.
#[unsafe(no_mangle)]
pub extern "C" fn hg_free(
    alloc: Global,
    host: &mut HostCore,
    worker: u32,
    actor: u32,
    word: u64,
) -> Reply
    ensures { ServesOn host.old worker word (λ handle. event.Free (actor_of actor) handle)
        result host.new }
{
    let actor = actor_of(actor);
    match Handle::from_u64(word) {
        Some(handle) => serve(alloc, host, worker, Event::Free { actor, handle }),
        None => Reply::plain(NO_BLOCK),
    }
}

/// Reads a word of a block.
#[unsafe(no_mangle)]
pub extern "C" fn hg_read(
    alloc: Global,
    host: &mut HostCore,
    worker: u32,
    actor: u32,
    word: u64,
    index: u32,
) -> Reply
    ensures { ServesOn host.old worker word
        (λ handle. event.Read (actor_of actor) handle index) result host.new }
{
    let actor = actor_of(actor);
    match Handle::from_u64(word) {
        Some(handle) => serve_read(alloc, host, worker, actor, handle, index),
        None => Reply::plain(NO_BLOCK),
    }
}

/// Writes a word of a block.
#[unsafe(no_mangle)]
pub extern "C" fn hg_write(
    alloc: Global,
    host: &mut HostCore,
    worker: u32,
    actor: u32,
    word: u64,
    index: u32,
    value: u64,
) -> Reply
    ensures { ServesOn host.old worker word
        (λ handle. event.Write (actor_of actor) handle index value) result host.new }
{
    let actor = actor_of(actor);
    match Handle::from_u64(word) {
        Some(handle) => serve_write(alloc, host, worker, actor, handle, index, value),
        None => Reply::plain(NO_BLOCK),
    }
}

/// Looks at the block that stands at the place of a number, the upper half of a handle's word.
#[unsafe(no_mangle)]
pub extern "C" fn hg_look(
    alloc: Global,
    host: &mut HostCore,
    worker: u32,
    actor: u32,
    number: u32,
) -> Reply
    ensures { ServesAt host.old worker number (λ place. event.Look (actor_of actor) place)
        result host.new }
{
    let actor = actor_of(actor);
    match place_of(number) {
        Some(place) => serve_look(alloc, host, worker, actor, place),
        None => Reply::plain(NO_BLOCK),
    }
}

/// Sends what the worker has in hand to those who hold its segment.
#[unsafe(no_mangle)]
pub extern "C" fn hg_deliver(alloc: Global, host: &mut HostCore, worker: u32) -> Reply
    ensures { Serves host.old worker event.Deliver result host.new }
{
    serve(alloc, host, worker, Event::Deliver)
}

/// Takes home what was sent to a segment that the worker holds.
#[unsafe(no_mangle)]
pub extern "C" fn hg_take(alloc: Global, host: &mut HostCore, worker: u32, segment: u32) -> Reply
    ensures { Serves host.old worker (event.Take (byte_of segment)) result host.new }
{
    let segment = byte_of(segment);
    serve(alloc, host, worker, Event::Take { segment })
}

/// Takes the class from each of the worker's pages that has no block.
#[unsafe(no_mangle)]
pub extern "C" fn hg_collect(alloc: Global, host: &mut HostCore, worker: u32) -> Reply
    ensures { Serves host.old worker event.Collect result host.new }
{
    serve(alloc, host, worker, Event::Collect)
}

/// Gives up a segment that the worker holds.
#[unsafe(no_mangle)]
pub extern "C" fn hg_abandon(alloc: Global, host: &mut HostCore, worker: u32, segment: u32) -> Reply
    ensures { Serves host.old worker (event.Abandon (byte_of segment)) result host.new }
{
    let segment = byte_of(segment);
    serve(alloc, host, worker, Event::Abandon { segment })
}

/// Takes a segment of an arena that nobody holds.
#[unsafe(no_mangle)]
pub extern "C" fn hg_refill(alloc: Global, host: &mut HostCore, worker: u32, arena: u32) -> Reply
    ensures { Serves host.old worker (event.Refill (byte_of arena)) result host.new }
{
    let arena = byte_of(arena);
    serve(alloc, host, worker, Event::Refill { arena })
}

/// How many workers there are.
#[unsafe(no_mangle)]
pub extern "C" fn hg_workers(host: &LentCore) -> Reply
    ensures { Tells host.now (answer_to question.Workers) result }
{
    ask(host, Question::Workers)
}

/// How many segments there are, in all arenas.
#[unsafe(no_mangle)]
pub extern "C" fn hg_segments(host: &LentCore) -> Reply
    ensures { Tells host.now (answer_to question.Segments) result }
{
    ask(host, Question::Segments)
}

/// Whether the worker holds the segment, as 1 or 0.
#[unsafe(no_mangle)]
pub extern "C" fn hg_holds(host: &LentCore, worker: u32, segment: u32) -> Reply
    ensures { Tells host.now (answer_to (question.Holds (byte_of worker) (byte_of segment)))
        result }
{
    let (worker, segment) = (byte_of(worker), byte_of(segment));
    ask(host, Question::Holds { worker, segment })
}

/// The worker that holds the segment; with each status but that of a number, 255, which is no
/// worker's.
#[unsafe(no_mangle)]
pub extern "C" fn hg_holder(host: &LentCore, segment: u32) -> Reply
    ensures { TellsHolder host.now (byte_of segment) result }
{
    tell_holder(host, byte_of(segment))
}

/// What counts against a tenant's limit with a worker, in bytes.
#[unsafe(no_mangle)]
pub extern "C" fn hg_charge(host: &LentCore, worker: u32, tenant: u32) -> Reply
    ensures { TellsCharge host.now worker (byte_of tenant) result }
{
    tell_charge(host, worker, byte_of(tenant))
}

/// The number of the tenant of this name; with each status but that of a number, 255, which is
/// nobody's.
#[unsafe(no_mangle)]
pub extern "C" fn hg_tenant(host: &LentCore, name: &[u8]) -> Reply
    ensures text { IsUtf8 name.now
        → Finds host.now (λ core. tenant_number core.state.policy name.now) result }
    ensures no_text { ¬ (IsUtf8 name.now) → result ≡ unnamed }
{
    match str::from_utf8(name) {
        Ok(name) => find_number(host, Name::Tenant(name)),
        Err(_) => unnamed(),
    }
}

/// The number of the arena of this name; with each status but that of a number, 255, which is
/// none's.
#[unsafe(no_mangle)]
pub extern "C" fn hg_arena(host: &LentCore, name: &[u8]) -> Reply
    ensures text { IsUtf8 name.now
        → Finds host.now (λ core. arena_number core.state.policy name.now) result }
    ensures no_text { ¬ (IsUtf8 name.now) → result ≡ unnamed }
{
    match str::from_utf8(name) {
        Ok(name) => find_number(host, Name::Arena(name)),
        Err(_) => unnamed(),
    }
}

/// The name of the tenant of this number: the value is how many bytes of it stand in `room`.
#[unsafe(no_mangle)]
pub extern "C" fn hg_tenant_name(host: &LentCore, tenant: u32, room: &mut [u8]) -> Reply
    ensures { TellsName host.now (byte_of tenant) room.old result room.new }
{
    let tenant = byte_of(tenant);
    find_name(host, tenant, room)
}

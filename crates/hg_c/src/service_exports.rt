//! What a host calls on a service and on its workers, each of which is for one thread.

ghost use Rattle.std.specs.Prelude.{◌≡◌};
ghost use Rattle.std.specs.Str.{IsUtf8};
ghost use Rattle.hg_machine.specs.declared.Event.TheVariants as event;
ghost use Rattle.hg_policy.specs.Names.{tenant_number, arena_number};
ghost use Rattle.hg_reply.specs.Naming.{unnamed};
ghost use Rattle.hg_reply.specs.Numbers.{actor_of, byte_of};
ghost use Rattle.hg_reply.specs.Replies.{no_block};
ghost use Rattle.hg_service_replies.specs.declared.asking.PartQuestion.TheVariants as question;
ghost use Rattle.hg_ffi.specs.PartBytes.{ReadsPart, WritesPart};
ghost use Rattle.hg_ffi.specs.PartOpening.{Becomes, HandsOut, Opens};
ghost use Rattle.hg_ffi.specs.Parts.{Finds, GivesUpService, GivesUpWorker, IsSame, Leaves, Lists};
ghost use Rattle.hg_ffi.specs.Parts.{OnWord, ReadsWords, Serves, ServesAt, ServesOn, Tells};
ghost use Rattle.hg_ffi.specs.Parts.{WritesWords};

use hg_ffi::host_core::HostCore;
use hg_ffi::host_part::HostPart;
use hg_ffi::part_bytes::{read_bytes_of_part, write_bytes_of_part};
use hg_ffi::part_opening::{close_service, hand_worker, open_service};
use hg_ffi::part_serving::{
    ask_part, drop_service_part, drop_worker_part, find_in_part, leave_part, list_part, serve_part,
};
use hg_ffi::part_words::{read_part, write_part};
use hg_machine::Event;
use hg_place::Handle;
use hg_reply::status::NO_BLOCK;
use hg_reply::{Name, Reply, actor_of, byte_of, place_of, unnamed};
use hg_service_replies::PartQuestion;
use std::alloc::Global;

/// Opens a service by the text of its policy, as `hg_open` opens a core.
#[unsafe(no_mangle)]
pub extern "C" fn hg_service_open(
    alloc: Global,
    host: &mut HostPart,
    policy: &[u8],
    room: &mut [u8],
) -> Reply
    ensures { Opens host.old policy.now room.old result host.new room.new }
{
    open_service(alloc, policy, host, room)
}

/// Gives the worker of a number, where none stands yet.
#[unsafe(no_mangle)]
pub extern "C" fn hg_service_worker(
    alloc: Global,
    host: &mut HostPart,
    number: u32,
    worker: &mut HostPart,
) -> Reply
    ensures { HandsOut host.old number worker.old result host.new worker.new }
{
    hand_worker(alloc, host, number, worker)
}

/// A service becomes a core, where none stands yet.
#[unsafe(no_mangle)]
pub extern "C" fn hg_service_close(alloc: Global, host: &mut HostPart, core: &mut HostCore) -> Reply
    ensures { Becomes host.old core.old result host.new core.new }
{
    close_service(alloc, host, core)
}

/// Gives up a service that becomes no core, or a core that waits there. Its workers go on.
#[unsafe(no_mangle)]
pub extern "C" fn hg_service_drop(alloc: Global, host: &mut HostPart) -> Reply
    ensures { GivesUpService host.old result host.new }
{
    drop_service_part(alloc, host)
}

/// How many workers the service has.
#[unsafe(no_mangle)]
pub extern "C" fn hg_service_workers(alloc: Global, host: &mut HostPart) -> Reply
    ensures { Tells host.old question.Workers result host.new }
{
    ask_part(alloc, host, PartQuestion::Workers)
}

/// How many segments it has, in all arenas.
#[unsafe(no_mangle)]
pub extern "C" fn hg_service_segments(alloc: Global, host: &mut HostPart) -> Reply
    ensures { Tells host.old question.Segments result host.new }
{
    ask_part(alloc, host, PartQuestion::Segments)
}

/// The number of the tenant of this name; with each status but that of a number, 255, which is
/// nobody's.
#[unsafe(no_mangle)]
pub extern "C" fn hg_service_tenant(alloc: Global, host: &mut HostPart, name: &[u8]) -> Reply
    ensures text { IsUtf8 name.now
        → Finds host.old (λ policy. tenant_number policy name.now) result host.new }
    ensures no_text { ¬ (IsUtf8 name.now) → (result ≡ unnamed) × IsSame host.old host.new }
{
    match str::from_utf8(name) {
        Ok(name) => find_in_part(alloc, host, Name::Tenant(name)),
        Err(_) => unnamed(),
    }
}

/// The number of the arena of this name; with each status but that of a number, 255, which is
/// none's.
#[unsafe(no_mangle)]
pub extern "C" fn hg_service_arena(alloc: Global, host: &mut HostPart, name: &[u8]) -> Reply
    ensures text { IsUtf8 name.now
        → Finds host.old (λ policy. arena_number policy name.now) result host.new }
    ensures no_text { ¬ (IsUtf8 name.now) → (result ≡ unnamed) × IsSame host.old host.new }
{
    match str::from_utf8(name) {
        Ok(name) => find_in_part(alloc, host, Name::Arena(name)),
        Err(_) => unnamed(),
    }
}

/// A worker asks for a block of so many bytes.
#[unsafe(no_mangle)]
pub extern "C" fn hg_worker_alloc(
    alloc: Global,
    host: &mut HostPart,
    actor: u32,
    arena: u32,
    bytes: u64,
) -> Reply
    ensures { Serves host.old (event.Alloc (actor_of actor) (byte_of arena) bytes) result host.new }
{
    let (actor, arena) = (actor_of(actor), byte_of(arena));
    serve_part(
        alloc,
        host,
        Event::Alloc {
            actor,
            arena,
            bytes,
        },
    )
}

/// It frees a block.
#[unsafe(no_mangle)]
pub extern "C" fn hg_worker_free(alloc: Global, host: &mut HostPart, actor: u32, word: u64) -> Reply
    ensures { ServesOn host.old word (λ handle. event.Free (actor_of actor) handle)
        result host.new }
{
    let actor = actor_of(actor);
    match Handle::from_u64(word) {
        Some(handle) => serve_part(alloc, host, Event::Free { actor, handle }),
        None => Reply::plain(NO_BLOCK),
    }
}

/// It reads a word of a block.
#[unsafe(no_mangle)]
pub extern "C" fn hg_worker_read(
    alloc: Global,
    host: &mut HostPart,
    actor: u32,
    word: u64,
    at: u32,
) -> Reply
    ensures { ServesOn host.old word (λ handle. event.Read (actor_of actor) handle at)
        result host.new }
{
    let actor = actor_of(actor);
    match Handle::from_u64(word) {
        Some(handle) => serve_part(
            alloc,
            host,
            Event::Read {
                actor,
                handle,
                index: at,
            },
        ),
        None => Reply::plain(NO_BLOCK),
    }
}

/// It writes a word of a block.
#[unsafe(no_mangle)]
pub extern "C" fn hg_worker_write(
    alloc: Global,
    host: &mut HostPart,
    actor: u32,
    word: u64,
    index: u32,
    value: u64,
) -> Reply
    ensures { ServesOn host.old word (λ handle. event.Write (actor_of actor) handle index value)
        result host.new }
{
    let actor = actor_of(actor);
    match Handle::from_u64(word) {
        Some(handle) => serve_part(
            alloc,
            host,
            Event::Write {
                actor,
                handle,
                index,
                value,
            },
        ),
        None => Reply::plain(NO_BLOCK),
    }
}

/// It looks at the block that stands at the place of a number, the upper half of a handle's word.
#[unsafe(no_mangle)]
pub extern "C" fn hg_worker_look(
    alloc: Global,
    host: &mut HostPart,
    actor: u32,
    number: u32,
) -> Reply
    ensures { ServesAt host.old number (λ place. event.Look (actor_of actor) place)
        result host.new }
{
    let actor = actor_of(actor);
    match place_of(number) {
        Some(place) => serve_part(alloc, host, Event::Look { actor, place }),
        None => Reply::plain(NO_BLOCK),
    }
}

/// It sends what it has in hand to those who hold its segment.
#[unsafe(no_mangle)]
pub extern "C" fn hg_worker_deliver(alloc: Global, host: &mut HostPart) -> Reply
    ensures { Serves host.old event.Deliver result host.new }
{
    serve_part(alloc, host, Event::Deliver)
}

/// It takes home what was sent to a segment that it holds.
#[unsafe(no_mangle)]
pub extern "C" fn hg_worker_take(alloc: Global, host: &mut HostPart, segment: u32) -> Reply
    ensures { Serves host.old (event.Take (byte_of segment)) result host.new }
{
    let segment = byte_of(segment);
    serve_part(alloc, host, Event::Take { segment })
}

/// It takes the class from each of its pages that has no block.
#[unsafe(no_mangle)]
pub extern "C" fn hg_worker_collect(alloc: Global, host: &mut HostPart) -> Reply
    ensures { Serves host.old event.Collect result host.new }
{
    serve_part(alloc, host, Event::Collect)
}

/// It gives up a segment that it holds.
#[unsafe(no_mangle)]
pub extern "C" fn hg_worker_abandon(alloc: Global, host: &mut HostPart, segment: u32) -> Reply
    ensures { Serves host.old (event.Abandon (byte_of segment)) result host.new }
{
    let segment = byte_of(segment);
    serve_part(alloc, host, Event::Abandon { segment })
}

/// It takes a segment of an arena that nobody holds.
#[unsafe(no_mangle)]
pub extern "C" fn hg_worker_refill(alloc: Global, host: &mut HostPart, arena: u32) -> Reply
    ensures { Serves host.old (event.Refill (byte_of arena)) result host.new }
{
    let arena = byte_of(arena);
    serve_part(alloc, host, Event::Refill { arena })
}

/// It reads as many words of a block as the room has, from the word of an index on, until one is
/// refused. The value is how many were read.
#[unsafe(no_mangle)]
pub extern "C" fn hg_worker_read_words(
    alloc: Global,
    host: &mut HostPart,
    actor: u32,
    word: u64,
    first: u32,
    room: &mut [u64],
) -> Reply
    ensures { OnWord word
        (λ handle. ReadsWords host.old (actor_of actor) handle first room.old result
        host.new room.new)
        ((result ≡ no_block) × IsSame host.old host.new × (room.new ≡ room.old)) }
{
    let actor = actor_of(actor);
    match Handle::from_u64(word) {
        Some(handle) => read_part(alloc, host, actor, handle, first, room),
        None => Reply::plain(NO_BLOCK),
    }
}

/// It writes words into a block, from the word of an index on, until one is refused. The value is
/// how many were written.
#[unsafe(no_mangle)]
pub extern "C" fn hg_worker_write_words(
    alloc: Global,
    host: &mut HostPart,
    actor: u32,
    word: u64,
    first: u32,
    words: &[u64],
) -> Reply
    ensures { OnWord word
        (λ handle. WritesWords host.old (actor_of actor) handle first words.now result host.new)
        ((result ≡ no_block) × IsSame host.old host.new) }
{
    let actor = actor_of(actor);
    match Handle::from_u64(word) {
        Some(handle) => write_part(alloc, host, actor, handle, first, words),
        None => Reply::plain(NO_BLOCK),
    }
}

/// It reads as many bytes of a block as the room has, from the byte of an offset on, until a word's
/// Read is refused. The value is how many were read.
#[unsafe(no_mangle)]
pub extern "C" fn hg_worker_read_bytes(
    alloc: Global,
    host: &mut HostPart,
    actor: u32,
    word: u64,
    first: u64,
    room: &mut [u8],
) -> Reply
    ensures { OnWord word
        (λ handle. ReadsPart host.old (actor_of actor) handle first room.old result
        host.new room.new)
        ((result ≡ no_block) × IsSame host.old host.new × (room.new ≡ room.old)) }
{
    let actor = actor_of(actor);
    match Handle::from_u64(word) {
        Some(handle) => read_bytes_of_part(alloc, host, actor, handle, first, room),
        None => Reply::plain(NO_BLOCK),
    }
}

/// It writes bytes into a block, from the byte of an offset on, until a word's Read or Write is
/// refused. The value is how many were written.
#[unsafe(no_mangle)]
pub extern "C" fn hg_worker_write_bytes(
    alloc: Global,
    host: &mut HostPart,
    actor: u32,
    word: u64,
    first: u64,
    bytes: &[u8],
) -> Reply
    ensures { OnWord word
        (λ handle. WritesPart host.old (actor_of actor) handle first bytes.now result host.new)
        ((result ≡ no_block) × IsSame host.old host.new) }
{
    let actor = actor_of(actor);
    match Handle::from_u64(word) {
        Some(handle) => write_bytes_of_part(alloc, host, actor, handle, first, bytes),
        None => Reply::plain(NO_BLOCK),
    }
}

/// It shows an actor the blocks that it holds: the value is how many there are, of which as many
/// stand in the room as have one there.
#[unsafe(no_mangle)]
pub extern "C" fn hg_worker_list(
    alloc: Global,
    host: &mut HostPart,
    actor: u32,
    room: &mut [Reply],
) -> Reply
    ensures { Lists host.old (actor_of actor) room.old result host.new room.new }
{
    list_part(alloc, host, actor_of(actor), room)
}

/// Its number.
#[unsafe(no_mangle)]
pub extern "C" fn hg_worker_number(alloc: Global, host: &mut HostPart) -> Reply
    ensures { Tells host.old question.Own result host.new }
{
    ask_part(alloc, host, PartQuestion::Own)
}

/// Whether it holds the segment, as 1 or 0.
#[unsafe(no_mangle)]
pub extern "C" fn hg_worker_holds(alloc: Global, host: &mut HostPart, segment: u32) -> Reply
    ensures { Tells host.old (question.Holds (byte_of segment)) result host.new }
{
    ask_part(alloc, host, PartQuestion::Holds(byte_of(segment)))
}

/// The place of the block in its hand.
#[unsafe(no_mangle)]
pub extern "C" fn hg_worker_hand(alloc: Global, host: &mut HostPart) -> Reply
    ensures { Tells host.old question.Hand result host.new }
{
    ask_part(alloc, host, PartQuestion::Hand)
}

/// It goes back to its service.
#[unsafe(no_mangle)]
pub extern "C" fn hg_worker_leave(alloc: Global, host: &mut HostPart) -> Reply
    ensures { Leaves host.old result host.new }
{
    leave_part(alloc, host)
}

/// It is given up with all that it holds, and its service closes no more.
#[unsafe(no_mangle)]
pub extern "C" fn hg_worker_drop(alloc: Global, host: &mut HostPart) -> Reply
    ensures { GivesUpWorker host.old result host.new }
{
    drop_worker_part(alloc, host)
}

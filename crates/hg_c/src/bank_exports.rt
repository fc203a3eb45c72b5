//! What a host calls on a bank.

ghost use Rattle.std.specs.Prelude.{◌≡◌};
ghost use Rattle.std.specs.Str.{IsUtf8};
ghost use Rattle.hg_machine.specs.declared.Event.TheVariants as event;
ghost use Rattle.hg_policy.specs.Names.{tenant_number, arena_number};
ghost use Rattle.hg_bank_replies.specs.declared.asking.BankQuestion.TheVariants as question;
ghost use Rattle.hg_bank_replies.specs.Blocks.{core_of};
ghost use Rattle.hg_reply.specs.Naming.{unnamed};
ghost use Rattle.hg_reply.specs.Numbers.{actor_of, byte_of};
ghost use Rattle.hg_ffi.specs.Banks.{Closes, Finds, Grows, Serves, ServesAt, ServesOn, Tells, TellsName};
ghost use Rattle.hg_ffi.specs.BankOpening.{Opens};

use hg_bank_replies::{BankBlock, BankQuestion, core_of};
use hg_ffi::bank_opening::open_bank;
use hg_ffi::bank_serving::{ask_bank, find_bank_name, find_bank_number, grow_bank, serve_bank};
use hg_ffi::host_bank::HostBank;
use hg_ffi::lent_bank::LentBank;
use hg_machine::Event;
use hg_place::Handle;
use hg_reply::status::{CLOSED, DONE, NO_BLOCK};
use hg_reply::{Name, Reply, actor_of, byte_of, place_of, unnamed};
use std::alloc::Global;
use std::mem;

/// Opens a bank by the text of its policy, with room for so many cores, of which the first is open.
/// Where the text is no policy, the status tells its first fault, and the value how many bytes of
/// the fault's line stand in `room`.
#[unsafe(no_mangle)]
pub extern "C" fn hg_bank_open(
    alloc: Global,
    host: &mut HostBank,
    policy: &[u8],
    cores: u32,
    room: &mut [u8],
) -> Reply
    ensures { Opens host.old policy.now cores room.old result host.new room.new }
{
    open_bank(alloc, policy, cores, host, room)
}

/// Closes a bank, and frees its memory.
#[unsafe(no_mangle)]
pub extern "C" fn hg_bank_close(alloc: Global, host: &mut HostBank) -> Reply
    ensures { Closes host.old result host.new }
{
    match mem::replace(host, HostBank::closed()).into_bank(alloc) {
        Ok(bank) => {
            drop(bank);
            Reply::plain(DONE)
        }
        Err(closed) => {
            *host = closed;
            Reply::plain(CLOSED)
        }
    }
}

/// Opens one core more. The value is its number.
#[unsafe(no_mangle)]
pub extern "C" fn hg_bank_grow(alloc: Global, host: &mut HostBank) -> Reply
    ensures { Grows host.old result host.new }
{
    grow_bank(alloc, host)
}

/// Asks for a block of so many bytes, in the first core with room from the current one on. The
/// value is its handle, and the detail the number of its core.
#[unsafe(no_mangle)]
pub extern "C" fn hg_bank_alloc(
    alloc: Global,
    host: &mut HostBank,
    worker: u32,
    actor: u32,
    arena: u32,
    bytes: u64,
) -> Reply
    ensures { Serves host.old worker (core_of 0)
        (event.Alloc (actor_of actor) (byte_of arena) bytes) result host.new }
{
    let (actor, arena) = (actor_of(actor), byte_of(arena));
    serve_bank(
        alloc,
        host,
        worker,
        0,
        Event::Alloc {
            actor,
            arena,
            bytes,
        },
    )
}

/// Frees a block.
#[unsafe(no_mangle)]
pub extern "C" fn hg_bank_free(
    alloc: Global,
    host: &mut HostBank,
    worker: u32,
    actor: u32,
    block: BankBlock,
) -> Reply
    ensures { ServesOn host.old worker block (λ handle. event.Free (actor_of actor) handle)
        result host.new }
{
    let actor = actor_of(actor);
    match Handle::from_u64(block.handle) {
        Some(handle) => serve_bank(
            alloc,
            host,
            worker,
            block.core,
            Event::Free { actor, handle },
        ),
        None => Reply::plain(NO_BLOCK),
    }
}

/// Reads the word of a block at an index.
#[unsafe(no_mangle)]
pub extern "C" fn hg_bank_read(
    alloc: Global,
    host: &mut HostBank,
    worker: u32,
    actor: u32,
    block: BankBlock,
    at: u32,
) -> Reply
    ensures { ServesOn host.old worker block
        (λ handle. event.Read (actor_of actor) handle at) result host.new }
{
    let actor = actor_of(actor);
    match Handle::from_u64(block.handle) {
        Some(handle) => serve_bank(
            alloc,
            host,
            worker,
            block.core,
            Event::Read {
                actor,
                handle,
                index: at,
            },
        ),
        None => Reply::plain(NO_BLOCK),
    }
}

/// Writes a word of a block.
#[unsafe(no_mangle)]
pub extern "C" fn hg_bank_write(
    alloc: Global,
    host: &mut HostBank,
    worker: u32,
    actor: u32,
    block: BankBlock,
    index: u32,
    value: u64,
) -> Reply
    ensures { ServesOn host.old worker block
        (λ handle. event.Write (actor_of actor) handle index value) result host.new }
{
    let actor = actor_of(actor);
    match Handle::from_u64(block.handle) {
        Some(handle) => serve_bank(
            alloc,
            host,
            worker,
            block.core,
            Event::Write {
                actor,
                handle,
                index,
                value,
            },
        ),
        None => Reply::plain(NO_BLOCK),
    }
}

/// Looks at the block that stands in a core at the place of a number, the upper half of a handle's
/// word.
#[unsafe(no_mangle)]
pub extern "C" fn hg_bank_look(
    alloc: Global,
    host: &mut HostBank,
    worker: u32,
    actor: u32,
    core: u32,
    number: u32,
) -> Reply
    ensures { ServesAt host.old worker core number (λ place. event.Look (actor_of actor) place)
        result host.new }
{
    let actor = actor_of(actor);
    match place_of(number) {
        Some(place) => serve_bank(
            alloc,
            host,
            worker,
            u64::from(core),
            Event::Look { actor, place },
        ),
        None => Reply::plain(NO_BLOCK),
    }
}

/// Sends the place that the worker has in hand in a core to its segment's remote list there.
#[unsafe(no_mangle)]
pub extern "C" fn hg_bank_deliver(
    alloc: Global,
    host: &mut HostBank,
    worker: u32,
    core: u32,
) -> Reply
    ensures { Serves host.old worker (core_of core) event.Deliver result host.new }
{
    serve_bank(alloc, host, worker, u64::from(core), Event::Deliver)
}

/// Takes in what was sent to a segment of a core that the worker holds.
#[unsafe(no_mangle)]
pub extern "C" fn hg_bank_take(
    alloc: Global,
    host: &mut HostBank,
    worker: u32,
    core: u32,
    segment: u32,
) -> Reply
    ensures { Serves host.old worker (core_of core) (event.Take (byte_of segment)) result
        host.new }
{
    let segment = byte_of(segment);
    serve_bank(
        alloc,
        host,
        worker,
        u64::from(core),
        Event::Take { segment },
    )
}

/// Takes the class from each of the worker's pages in a core that has no block.
#[unsafe(no_mangle)]
pub extern "C" fn hg_bank_collect(
    alloc: Global,
    host: &mut HostBank,
    worker: u32,
    core: u32,
) -> Reply
    ensures { Serves host.old worker (core_of core) event.Collect result host.new }
{
    serve_bank(alloc, host, worker, u64::from(core), Event::Collect)
}

/// Gives up a segment of a core that the worker holds.
#[unsafe(no_mangle)]
pub extern "C" fn hg_bank_abandon(
    alloc: Global,
    host: &mut HostBank,
    worker: u32,
    core: u32,
    segment: u32,
) -> Reply
    ensures { Serves host.old worker (core_of core) (event.Abandon (byte_of segment)) result
        host.new }
{
    let segment = byte_of(segment);
    serve_bank(
        alloc,
        host,
        worker,
        u64::from(core),
        Event::Abandon { segment },
    )
}

/// Takes a segment of an arena that nobody holds, in the first core that has one from the current
/// one on. The value is its number, and the detail that of its core.
#[unsafe(no_mangle)]
pub extern "C" fn hg_bank_refill(
    alloc: Global,
    host: &mut HostBank,
    worker: u32,
    arena: u32,
) -> Reply
    ensures { Serves host.old worker (core_of 0) (event.Refill (byte_of arena)) result host.new }
{
    let arena = byte_of(arena);
    serve_bank(alloc, host, worker, 0, Event::Refill { arena })
}

/// How many cores are open.
#[unsafe(no_mangle)]
pub extern "C" fn hg_bank_cores(host: &LentBank) -> Reply
    ensures { Tells host.now question.Cores result }
{
    ask_bank(host, BankQuestion::Cores)
}

/// How many workers there are.
#[unsafe(no_mangle)]
pub extern "C" fn hg_bank_workers(host: &LentBank) -> Reply
    ensures { Tells host.now question.Workers result }
{
    ask_bank(host, BankQuestion::Workers)
}

/// How many segments each core has, in all arenas.
#[unsafe(no_mangle)]
pub extern "C" fn hg_bank_segments(host: &LentBank) -> Reply
    ensures { Tells host.now question.Segments result }
{
    ask_bank(host, BankQuestion::Segments)
}

/// Whether the worker holds the segment of a core, as 1 or 0.
#[unsafe(no_mangle)]
pub extern "C" fn hg_bank_holds(host: &LentBank, worker: u32, core: u32, segment: u32) -> Reply
    ensures { Tells host.now
        (question.Holds (core_of core) (byte_of worker) (byte_of segment)) result }
{
    let (worker, segment) = (byte_of(worker), byte_of(segment));
    let core = core_of(u64::from(core));
    ask_bank(
        host,
        BankQuestion::Holds {
            core,
            worker,
            segment,
        },
    )
}

/// The worker that holds the segment of a core; with each status but that of a number, 255, which
/// is no worker's.
#[unsafe(no_mangle)]
pub extern "C" fn hg_bank_holder(host: &LentBank, core: u32, segment: u32) -> Reply
    ensures { Tells host.now (question.Holder (core_of core) (byte_of segment)) result }
{
    let core = core_of(u64::from(core));
    let segment = byte_of(segment);
    ask_bank(host, BankQuestion::Holder { core, segment })
}

/// What counts against a tenant's limit with a worker, over all cores, in bytes.
#[unsafe(no_mangle)]
pub extern "C" fn hg_bank_charge(host: &LentBank, worker: u32, tenant: u32) -> Reply
    ensures { Tells host.now (question.Charge worker (byte_of tenant)) result }
{
    let tenant = byte_of(tenant);
    ask_bank(host, BankQuestion::Charge { worker, tenant })
}

/// The number of the tenant of this name; with each status but that of a number, 255, which is
/// nobody's.
#[unsafe(no_mangle)]
pub extern "C" fn hg_bank_tenant(host: &LentBank, name: &[u8]) -> Reply
    ensures text { IsUtf8 name.now
        → Finds host.now (λ bank. tenant_number bank.policy name.now) result }
    ensures no_text { ¬ (IsUtf8 name.now) → result ≡ unnamed }
{
    match str::from_utf8(name) {
        Ok(name) => find_bank_number(host, Name::Tenant(name)),
        Err(_) => unnamed(),
    }
}

/// The number of the arena of this name; with each status but that of a number, 255, which is
/// none's.
#[unsafe(no_mangle)]
pub extern "C" fn hg_bank_arena(host: &LentBank, name: &[u8]) -> Reply
    ensures text { IsUtf8 name.now
        → Finds host.now (λ bank. arena_number bank.policy name.now) result }
    ensures no_text { ¬ (IsUtf8 name.now) → result ≡ unnamed }
{
    match str::from_utf8(name) {
        Ok(name) => find_bank_number(host, Name::Arena(name)),
        Err(_) => unnamed(),
    }
}

/// The name of the tenant of this number: the value is how many bytes of it stand in `room`.
#[unsafe(no_mangle)]
pub extern "C" fn hg_bank_tenant_name(host: &LentBank, tenant: u32, room: &mut [u8]) -> Reply
    ensures { TellsName host.now (byte_of tenant) room.old result room.new }
{
    let tenant = byte_of(tenant);
    find_bank_name(host, tenant, room)
}

//! What a host calls on a bank of services and on its workers, each of which is for one thread.

ghost use Rattle.std.specs.Prelude.{◌≡◌};
ghost use Rattle.std.specs.Str.{IsUtf8};
ghost use Rattle.hg_machine.specs.declared.Event.TheVariants as event;
ghost use Rattle.hg_policy.specs.Names.{tenant_number, arena_number};
ghost use Rattle.hg_bank_replies.specs.Blocks.{core_of};
ghost use Rattle.hg_reply.specs.Naming.{unnamed};
ghost use Rattle.hg_reply.specs.Numbers.{actor_of, byte_of};
ghost use Rattle.hg_bank_service_replies.specs.declared.asking.BankPartQuestion.TheVariants as question;
ghost use Rattle.hg_bank_service_ffi.specs.BankPartOpening.{Becomes, HandsOut, Opens};
ghost use Rattle.hg_bank_service_ffi.specs.BankParts.{Finds, GivesUpService, GivesUpWorker, IsSame};
ghost use Rattle.hg_bank_service_ffi.specs.BankParts.{Leaves, Lists, Serves, ServesAt, ServesOn};
ghost use Rattle.hg_bank_service_ffi.specs.BankParts.{Tells};

use hg_bank_replies::{BankBlock, core_of};
use hg_bank_service_ffi::bank_part_opening::{
    close_bank_service, hand_bank_worker, open_bank_service,
};
use hg_bank_service_ffi::bank_part_serving::{
    ask_bank_part, drop_bank_service_part, drop_bank_worker_part, find_in_bank_part,
    leave_bank_part, list_bank_part, serve_bank_part,
};
use hg_bank_service_ffi::host_bank_part::HostBankPart;
use hg_bank_service_replies::BankPartQuestion;
use hg_ffi::host_bank::HostBank;
use hg_machine::Event;
use hg_place::Handle;
use hg_reply::status::NO_BLOCK;
use hg_reply::{Name, Reply, actor_of, byte_of, place_of, unnamed};
use std::alloc::Global;

/// Opens a bank of services by the text of its policy, with so many cores, as `hg_bank_open` opens a
/// bank: but all of them are open.
#[unsafe(no_mangle)]
pub extern "C" fn hg_bank_service_open(
    alloc: Global,
    host: &mut HostBankPart,
    policy: &[u8],
    cores: u32,
    room: &mut [u8],
) -> Reply
    ensures { Opens host.old policy.now cores room.old result host.new room.new }
{
    open_bank_service(alloc, policy, cores, host, room)
}

/// Gives the worker of a number, where none stands yet.
#[unsafe(no_mangle)]
pub extern "C" fn hg_bank_service_worker(
    alloc: Global,
    host: &mut HostBankPart,
    number: u32,
    worker: &mut HostBankPart,
) -> Reply
    ensures { HandsOut host.old number worker.old result host.new worker.new }
{
    hand_bank_worker(alloc, host, number, worker)
}

/// A bank of services becomes a bank, where none stands yet.
#[unsafe(no_mangle)]
pub extern "C" fn hg_bank_service_close(
    alloc: Global,
    host: &mut HostBankPart,
    bank: &mut HostBank,
) -> Reply
    ensures { Becomes host.old bank.old result host.new bank.new }
{
    close_bank_service(alloc, host, bank)
}

/// Gives up a bank of services that becomes no bank, or a bank that waits there. Its workers go on.
#[unsafe(no_mangle)]
pub extern "C" fn hg_bank_service_drop(alloc: Global, host: &mut HostBankPart) -> Reply
    ensures { GivesUpService host.old result host.new }
{
    drop_bank_service_part(alloc, host)
}

/// How many cores it has.
#[unsafe(no_mangle)]
pub extern "C" fn hg_bank_service_cores(alloc: Global, host: &mut HostBankPart) -> Reply
    ensures { Tells host.old question.Cores result host.new }
{
    ask_bank_part(alloc, host, BankPartQuestion::Cores)
}

/// How many workers it has.
#[unsafe(no_mangle)]
pub extern "C" fn hg_bank_service_workers(alloc: Global, host: &mut HostBankPart) -> Reply
    ensures { Tells host.old question.Workers result host.new }
{
    ask_bank_part(alloc, host, BankPartQuestion::Workers)
}

/// How many segments each core has, in all arenas.
#[unsafe(no_mangle)]
pub extern "C" fn hg_bank_service_segments(alloc: Global, host: &mut HostBankPart) -> Reply
    ensures { Tells host.old question.Segments result host.new }
{
    ask_bank_part(alloc, host, BankPartQuestion::Segments)
}

/// The number of the tenant of this name; with each status but that of a number, 255, which is
/// nobody's.
#[unsafe(no_mangle)]
pub extern "C" fn hg_bank_service_tenant(
    alloc: Global,
    host: &mut HostBankPart,
    name: &[u8],
) -> Reply
    ensures text { IsUtf8 name.now
        → Finds host.old (λ policy. tenant_number policy name.now) result host.new }
    ensures no_text { ¬ (IsUtf8 name.now) → (result ≡ unnamed) × IsSame host.old host.new }
{
    match str::from_utf8(name) {
        Ok(name) => find_in_bank_part(alloc, host, Name::Tenant(name)),
        Err(_) => unnamed(),
    }
}

/// The number of the arena of this name; with each status but that of a number, 255, which is
/// none's.
#[unsafe(no_mangle)]
pub extern "C" fn hg_bank_service_arena(
    alloc: Global,
    host: &mut HostBankPart,
    name: &[u8],
) -> Reply
    ensures text { IsUtf8 name.now
        → Finds host.old (λ policy. arena_number policy name.now) result host.new }
    ensures no_text { ¬ (IsUtf8 name.now) → (result ≡ unnamed) × IsSame host.old host.new }
{
    match str::from_utf8(name) {
        Ok(name) => find_in_bank_part(alloc, host, Name::Arena(name)),
        Err(_) => unnamed(),
    }
}

/// A worker asks for a block of so many bytes, of the first core that has room for it.
#[unsafe(no_mangle)]
pub extern "C" fn hg_bank_worker_alloc(
    alloc: Global,
    host: &mut HostBankPart,
    actor: u32,
    arena: u32,
    bytes: u64,
) -> Reply
    ensures { Serves host.old (core_of 0) (event.Alloc (actor_of actor) (byte_of arena) bytes)
        result host.new }
{
    let (actor, arena) = (actor_of(actor), byte_of(arena));
    let asked = Event::Alloc {
        actor,
        arena,
        bytes,
    };
    serve_bank_part(alloc, host, 0, asked)
}

/// It frees a block.
#[unsafe(no_mangle)]
pub extern "C" fn hg_bank_worker_free(
    alloc: Global,
    host: &mut HostBankPart,
    actor: u32,
    block: BankBlock,
) -> Reply
    ensures { ServesOn host.old block (λ handle. event.Free (actor_of actor) handle)
        result host.new }
{
    let actor = actor_of(actor);
    match Handle::from_u64(block.handle) {
        Some(handle) => serve_bank_part(alloc, host, block.core, Event::Free { actor, handle }),
        None => Reply::plain(NO_BLOCK),
    }
}

/// It reads a word of a block.
#[unsafe(no_mangle)]
pub extern "C" fn hg_bank_worker_read(
    alloc: Global,
    host: &mut HostBankPart,
    actor: u32,
    block: BankBlock,
    at: u32,
) -> Reply
    ensures { ServesOn host.old block (λ handle. event.Read (actor_of actor) handle at)
        result host.new }
{
    let actor = actor_of(actor);
    match Handle::from_u64(block.handle) {
        Some(handle) => serve_bank_part(
            alloc,
            host,
            block.core,
            Event::Read {
                actor,
                handle,
                index: at,
            },
        ),
        None => Reply::plain(NO_BLOCK),
    }
}

/// It writes a word of a block.
#[unsafe(no_mangle)]
pub extern "C" fn hg_bank_worker_write(
    alloc: Global,
    host: &mut HostBankPart,
    actor: u32,
    block: BankBlock,
    index: u32,
    value: u64,
) -> Reply
    ensures { ServesOn host.old block (λ handle. event.Write (actor_of actor) handle index value)
        result host.new }
{
    let actor = actor_of(actor);
    match Handle::from_u64(block.handle) {
        Some(handle) => serve_bank_part(
            alloc,
            host,
            block.core,
            Event::Write {
                actor,
                handle,
                index,
                value,
            },
        ),
        None => Reply::plain(NO_BLOCK),
    }
}

/// It looks at the block that stands at the place of a number in a core, the upper half of a handle's
/// word.
#[unsafe(no_mangle)]
pub extern "C" fn hg_bank_worker_look(
    alloc: Global,
    host: &mut HostBankPart,
    actor: u32,
    core: u32,
    number: u32,
) -> Reply
    ensures { ServesAt host.old core number (λ place. event.Look (actor_of actor) place)
        result host.new }
{
    let actor = actor_of(actor);
    match place_of(number) {
        Some(place) => {
            serve_bank_part(alloc, host, u64::from(core), Event::Look { actor, place })
        }
        None => Reply::plain(NO_BLOCK),
    }
}

/// It sends what it has in hand in a core to those who hold its segment.
#[unsafe(no_mangle)]
pub extern "C" fn hg_bank_worker_deliver(alloc: Global, host: &mut HostBankPart, core: u32) -> Reply
    ensures { Serves host.old (core_of core) event.Deliver result host.new }
{
    serve_bank_part(alloc, host, u64::from(core), Event::Deliver)
}

/// It takes home what was sent to a segment of a core that it holds.
#[unsafe(no_mangle)]
pub extern "C" fn hg_bank_worker_take(
    alloc: Global,
    host: &mut HostBankPart,
    core: u32,
    segment: u32,
) -> Reply
    ensures { Serves host.old (core_of core) (event.Take (byte_of segment)) result host.new }
{
    let segment = byte_of(segment);
    serve_bank_part(alloc, host, u64::from(core), Event::Take { segment })
}

/// It takes the class from each of its pages in a core that has no block.
#[unsafe(no_mangle)]
pub extern "C" fn hg_bank_worker_collect(alloc: Global, host: &mut HostBankPart, core: u32) -> Reply
    ensures { Serves host.old (core_of core) event.Collect result host.new }
{
    serve_bank_part(alloc, host, u64::from(core), Event::Collect)
}

/// It gives up a segment of a core that it holds.
#[unsafe(no_mangle)]
pub extern "C" fn hg_bank_worker_abandon(
    alloc: Global,
    host: &mut HostBankPart,
    core: u32,
    segment: u32,
) -> Reply
    ensures { Serves host.old (core_of core) (event.Abandon (byte_of segment)) result host.new }
{
    let segment = byte_of(segment);
    serve_bank_part(alloc, host, u64::from(core), Event::Abandon { segment })
}

/// It takes a segment of an arena that nobody holds, of the first core that has one.
#[unsafe(no_mangle)]
pub extern "C" fn hg_bank_worker_refill(alloc: Global, host: &mut HostBankPart, arena: u32) -> Reply
    ensures { Serves host.old (core_of 0) (event.Refill (byte_of arena)) result host.new }
{
    let arena = byte_of(arena);
    serve_bank_part(alloc, host, 0, Event::Refill { arena })
}

/// It shows an actor the blocks that it holds in a core: the value is how many there are, of which as
/// many stand in the room as have one there.
#[unsafe(no_mangle)]
pub extern "C" fn hg_bank_worker_list(
    alloc: Global,
    host: &mut HostBankPart,
    core: u32,
    actor: u32,
    room: &mut [Reply],
) -> Reply
    ensures { Lists host.old (core_of core) (actor_of actor) room.old result host.new room.new }
{
    list_bank_part(alloc, host, u64::from(core), actor_of(actor), room)
}

/// Its number.
#[unsafe(no_mangle)]
pub extern "C" fn hg_bank_worker_number(alloc: Global, host: &mut HostBankPart) -> Reply
    ensures { Tells host.old question.Own result host.new }
{
    ask_bank_part(alloc, host, BankPartQuestion::Own)
}

/// How many cores it has.
#[unsafe(no_mangle)]
pub extern "C" fn hg_bank_worker_cores(alloc: Global, host: &mut HostBankPart) -> Reply
    ensures { Tells host.old question.OwnCores result host.new }
{
    ask_bank_part(alloc, host, BankPartQuestion::OwnCores)
}

/// Whether it holds the segment of a core, as 1 or 0.
#[unsafe(no_mangle)]
pub extern "C" fn hg_bank_worker_holds(
    alloc: Global,
    host: &mut HostBankPart,
    core: u32,
    segment: u32,
) -> Reply
    ensures { Tells host.old (question.Holds (core_of core) (byte_of segment)) result host.new }
{
    let core = core_of(u64::from(core));
    let segment = byte_of(segment);
    ask_bank_part(alloc, host, BankPartQuestion::Holds { core, segment })
}

/// The place of the block in its hand in a core.
#[unsafe(no_mangle)]
pub extern "C" fn hg_bank_worker_hand(alloc: Global, host: &mut HostBankPart, core: u32) -> Reply
    ensures { Tells host.old (question.Hand (core_of core)) result host.new }
{
    ask_bank_part(
        alloc,
        host,
        BankPartQuestion::Hand(core_of(u64::from(core))),
    )
}

/// What counts against a tenant's limit with it, over all cores, in bytes.
#[unsafe(no_mangle)]
pub extern "C" fn hg_bank_worker_charge(
    alloc: Global,
    host: &mut HostBankPart,
    tenant: u32,
) -> Reply
    ensures { Tells host.old (question.Charge (byte_of tenant)) result host.new }
{
    ask_bank_part(alloc, host, BankPartQuestion::Charge(byte_of(tenant)))
}

/// It goes back to its bank of services.
#[unsafe(no_mangle)]
pub extern "C" fn hg_bank_worker_leave(alloc: Global, host: &mut HostBankPart) -> Reply
    ensures { Leaves host.old result host.new }
{
    leave_bank_part(alloc, host)
}

/// It is given up with all that it holds, and its bank of services closes no more.
#[unsafe(no_mangle)]
pub extern "C" fn hg_bank_worker_drop(alloc: Global, host: &mut HostBankPart) -> Reply
    ensures { GivesUpWorker host.old result host.new }
{
    drop_bank_worker_part(alloc, host)
}

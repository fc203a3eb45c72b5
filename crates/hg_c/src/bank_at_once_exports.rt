//! What a host calls on a bank for many words, or for many blocks.

ghost use Rattle.std.specs.Prelude.{◌≡◌};
ghost use Rattle.hg_bank_replies.specs.AtOnce.{ReadsInto, Unloads, WritesFrom};
ghost use Rattle.hg_bank_replies.specs.Blocks.{core_of};
ghost use Rattle.hg_reply.specs.Numbers.{actor_of, byte_of};
ghost use Rattle.hg_ffi.specs.BankAtOnce.{DoesAtOnce, DoesOn};
ghost use Rattle.hg_ffi.specs.BankBytes.{ReadsBytesInto, WritesBytesFrom};

use hg_bank::BankHandle;
use hg_bank_replies::{BankBlock, core_of};
use hg_ffi::bank_at_once::{serve_free_all, serve_read_words, serve_write_words};
use hg_ffi::bank_bytes::{serve_read_bytes, serve_write_bytes};
use hg_ffi::host_bank::HostBank;
use hg_place::Handle;
use hg_reply::status::NO_BLOCK;
use hg_reply::{Reply, actor_of, byte_of};
use std::alloc::Global;

/// Reads as many words of a block as the room has, from the word of an index on, until one is
/// refused. The value is how many were read.
#[unsafe(no_mangle)]
pub extern "C" fn hg_bank_read_words(
    alloc: Global,
    host: &mut HostBank,
    worker: u32,
    actor: u32,
    block: BankBlock,
    first: u32,
    room: &mut [u64],
) -> Reply
    ensures { DoesOn host.old worker block.handle
        (ReadsInto worker (actor_of actor) (core_of block.core) first room.old room.new result)
        (room.new ≡ room.old) result host.new }
{
    let actor = actor_of(actor);
    let core = core_of(block.core);
    match Handle::from_u64(block.handle) {
        Some(handle) => serve_read_words(
            alloc,
            host,
            worker,
            actor,
            BankHandle { core, handle },
            first,
            room,
        ),
        None => Reply::plain(NO_BLOCK),
    }
}

/// Writes words into a block, from the word of an index on, until one is refused. The value is how
/// many were written.
#[unsafe(no_mangle)]
pub extern "C" fn hg_bank_write_words(
    alloc: Global,
    host: &mut HostBank,
    worker: u32,
    actor: u32,
    block: BankBlock,
    first: u32,
    words: &[u64],
) -> Reply
    ensures { DoesOn host.old worker block.handle
        (WritesFrom worker (actor_of actor) (core_of block.core) first words.now result)
        (Unit {0}) result host.new }
{
    let actor = actor_of(actor);
    let core = core_of(block.core);
    match Handle::from_u64(block.handle) {
        Some(handle) => serve_write_words(
            alloc,
            host,
            worker,
            actor,
            BankHandle { core, handle },
            first,
            words,
        ),
        None => Reply::plain(NO_BLOCK),
    }
}

/// Reads as many bytes of a block as the room has, from the byte of an offset on, until a word's Read
/// is refused. The value is how many were read.
#[unsafe(no_mangle)]
pub extern "C" fn hg_bank_read_bytes(
    alloc: Global,
    host: &mut HostBank,
    worker: u32,
    actor: u32,
    block: BankBlock,
    first: u64,
    room: &mut [u8],
) -> Reply
    ensures { DoesOn host.old worker block.handle
        (ReadsBytesInto worker (actor_of actor) (core_of block.core) first room.old room.new result)
        (room.new ≡ room.old) result host.new }
{
    let actor = actor_of(actor);
    let core = core_of(block.core);
    match Handle::from_u64(block.handle) {
        Some(handle) => serve_read_bytes(
            alloc,
            host,
            worker,
            actor,
            BankHandle { core, handle },
            first,
            room,
        ),
        None => Reply::plain(NO_BLOCK),
    }
}

/// Writes bytes into a block, from the byte of an offset on, until a word's Read or Write is refused.
/// The value is how many were written.
#[unsafe(no_mangle)]
pub extern "C" fn hg_bank_write_bytes(
    alloc: Global,
    host: &mut HostBank,
    worker: u32,
    actor: u32,
    block: BankBlock,
    first: u64,
    bytes: &[u8],
) -> Reply
    ensures { DoesOn host.old worker block.handle
        (WritesBytesFrom worker (actor_of actor) (core_of block.core) first bytes.now result)
        (Unit {0}) result host.new }
{
    let actor = actor_of(actor);
    let core = core_of(block.core);
    match Handle::from_u64(block.handle) {
        Some(handle) => serve_write_bytes(
            alloc,
            host,
            worker,
            actor,
            BankHandle { core, handle },
            first,
            bytes,
        ),
        None => Reply::plain(NO_BLOCK),
    }
}

/// Frees, for an actor, all blocks of an owner in a core that the worker holds and it may free, in
/// rising order of their places. The value is how many were freed.
#[unsafe(no_mangle)]
pub extern "C" fn hg_bank_free_all(
    alloc: Global,
    host: &mut HostBank,
    worker: u32,
    actor: u32,
    core: u32,
    owner: u32,
) -> Reply
    ensures { DoesAtOnce host.old worker
        (Unloads worker (actor_of actor) (core_of core) (byte_of owner) result) (Unit {0}) result
        host.new }
{
    serve_free_all(
        alloc,
        host,
        worker,
        actor_of(actor),
        core_of(u64::from(core)),
        byte_of(owner),
    )
}

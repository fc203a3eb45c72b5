//! What a host calls for many words, or for many blocks.

ghost use Rattle.std.specs.Prelude.{◌≡◌};
ghost use Rattle.hg_ffi.specs.AtOnce.{DoesAtOnce, DoesOn, ReadsInto, Unloads, WritesFrom};
ghost use Rattle.hg_ffi.specs.Bytes.{ReadsBytesInto, WritesBytesFrom};
ghost use Rattle.hg_reply.specs.Numbers.{actor_of, byte_of};

use hg_ffi::at_once::{serve_free_all, serve_read_words, serve_write_words};
use hg_ffi::bytes::{serve_read_bytes, serve_write_bytes};
use hg_ffi::host_core::HostCore;
use hg_place::Handle;
use hg_reply::status::NO_BLOCK;
use hg_reply::{Reply, actor_of, byte_of};
use std::alloc::Global;

/// Reads as many words of a block as the room has, from the word of an index on, until one is
/// refused. The value is how many were read.
#[unsafe(no_mangle)]
pub extern "C" fn hg_read_words(
    alloc: Global,
    host: &mut HostCore,
    worker: u32,
    actor: u32,
    word: u64,
    first: u32,
    room: &mut [u64],
) -> Reply
    ensures { DoesOn host.old worker word
        (ReadsInto worker (actor_of actor) first room.old room.new result)
        (room.new ≡ room.old) result host.new }
{
    let actor = actor_of(actor);
    match Handle::from_u64(word) {
        Some(handle) => serve_read_words(alloc, host, worker, actor, handle, first, room),
        None => Reply::plain(NO_BLOCK),
    }
}

/// Writes words into a block, from the word of an index on, until one is refused. The value is how
/// many were written.
#[unsafe(no_mangle)]
pub extern "C" fn hg_write_words(
    alloc: Global,
    host: &mut HostCore,
    worker: u32,
    actor: u32,
    word: u64,
    first: u32,
    words: &[u64],
) -> Reply
    ensures { DoesOn host.old worker word
        (WritesFrom worker (actor_of actor) first words.now result) (Unit {0}) result host.new }
{
    let actor = actor_of(actor);
    match Handle::from_u64(word) {
        Some(handle) => serve_write_words(alloc, host, worker, actor, handle, first, words),
        None => Reply::plain(NO_BLOCK),
    }
}

/// Reads as many bytes of a block as the room has, from the byte of an offset on, until a word's Read
/// is refused. The value is how many were read.
#[unsafe(no_mangle)]
pub extern "C" fn hg_read_bytes(
    alloc: Global,
    host: &mut HostCore,
    worker: u32,
    actor: u32,
    word: u64,
    first: u64,
    room: &mut [u8],
) -> Reply
    ensures { DoesOn host.old worker word
        (ReadsBytesInto worker (actor_of actor) first room.old room.new result)
        (room.new ≡ room.old) result host.new }
{
    let actor = actor_of(actor);
    match Handle::from_u64(word) {
        Some(handle) => serve_read_bytes(alloc, host, worker, actor, handle, first, room),
        None => Reply::plain(NO_BLOCK),
    }
}

/// Writes bytes into a block, from the byte of an offset on, until a word's Read or Write is refused.
/// The value is how many were written.
#[unsafe(no_mangle)]
pub extern "C" fn hg_write_bytes(
    alloc: Global,
    host: &mut HostCore,
    worker: u32,
    actor: u32,
    word: u64,
    first: u64,
    bytes: &[u8],
) -> Reply
    ensures { DoesOn host.old worker word
        (WritesBytesFrom worker (actor_of actor) first bytes.now result) (Unit {0}) result host.new }
{
    let actor = actor_of(actor);
    match Handle::from_u64(word) {
        Some(handle) => serve_write_bytes(alloc, host, worker, actor, handle, first, bytes),
        None => Reply::plain(NO_BLOCK),
    }
}

/// Frees, for an actor, all blocks of an owner that the worker holds and it may free, in rising
/// order of their places. The value is how many were freed.
#[unsafe(no_mangle)]
pub extern "C" fn hg_free_all(
    alloc: Global,
    host: &mut HostCore,
    worker: u32,
    actor: u32,
    owner: u32,
) -> Reply
    ensures { DoesAtOnce host.old worker
        (Unloads worker (actor_of actor) (byte_of owner) result) (Unit {0}) result host.new }
{
    serve_free_all(alloc, host, worker, actor_of(actor), byte_of(owner))
}

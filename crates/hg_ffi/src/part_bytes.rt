//! Bytes of a block, at a host's worker.

ghost use Rattle.std.specs.Prelude.{◌≡◌};
ghost use Rattle.hg_ffi.specs.PartBytes.{PartReadsBytes, PartWritesBytes, ReadsPart, WritesPart};

use crate::bytes::bytes_reply;
use crate::host_part::HostPart;
use crate::part_serving::{kept, taken_part};
use hg_bytes::{WorkerBlock, read_bytes, write_bytes};
use hg_place::{Actor, Handle};
use hg_reply::Reply;
use hg_reply::status::CLOSED;
use hg_service_replies::HostedPart;
use std::alloc::Global;

/// Reads bytes of a block, where the part is a worker.
fn read(part: &mut HostedPart, actor: Actor, handle: Handle, first: u64, room: &mut [u8]) -> Reply
    ensures { PartReadsBytes part.old actor handle first room.old result part.new room.new }
{
    match part {
        HostedPart::Worker(worker) => {
            bytes_reply(read_bytes(worker, &WorkerBlock { actor, handle }, first, room))
        }
        _ => Reply::plain(CLOSED),
    }
}

/// Writes bytes into a block, where the part is a worker.
fn write(part: &mut HostedPart, actor: Actor, handle: Handle, first: u64, bytes: &[u8]) -> Reply
    ensures { PartWritesBytes part.old actor handle first bytes.now result part.new }
{
    match part {
        HostedPart::Worker(worker) => {
            bytes_reply(write_bytes(worker, &WorkerBlock { actor, handle }, first, bytes))
        }
        _ => Reply::plain(CLOSED),
    }
}

/// A worker reads bytes of a block into the room.
pub fn read_bytes_of_part(
    alloc: Global,
    host: &mut HostPart,
    actor: Actor,
    handle: Handle,
    first: u64,
    room: &mut [u8],
) -> Reply
    ensures { ReadsPart host.old actor handle first room.old result host.new room.new }
{
    let Some(mut part) = taken_part(alloc, host) else {
        return Reply::plain(CLOSED);
    };
    let reply = read(&mut part, actor, handle, first, room);
    *host = kept(part);
    reply
}

/// A worker writes bytes into a block.
pub fn write_bytes_of_part(
    alloc: Global,
    host: &mut HostPart,
    actor: Actor,
    handle: Handle,
    first: u64,
    bytes: &[u8],
) -> Reply
    ensures { WritesPart host.old actor handle first bytes.now result host.new }
{
    let Some(mut part) = taken_part(alloc, host) else {
        return Reply::plain(CLOSED);
    };
    let reply = write(&mut part, actor, handle, first, bytes);
    *host = kept(part);
    reply
}

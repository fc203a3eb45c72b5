//! Many words of a block, at a host's worker.

ghost use Rattle.std.specs.Prelude.{◌≡◌};
ghost use Rattle.hg_ffi.specs.Parts.{ReadsWords, WritesWords};

use crate::host_part::HostPart;
use crate::part_serving::{kept, taken_part};
use hg_place::{Actor, Handle};
use hg_reply::Reply;
use hg_reply::status::CLOSED;
use hg_service_replies::{read_words, write_words};
use std::alloc::Global;

/// A worker reads words of a block into the room.
pub fn read_part(
    alloc: Global,
    host: &mut HostPart,
    actor: Actor,
    handle: Handle,
    first: u32,
    room: &mut [u64],
) -> Reply
    ensures { ReadsWords host.old actor handle first room.old result host.new room.new }
{
    let Some(mut part) = taken_part(alloc, host) else {
        return Reply::plain(CLOSED);
    };
    let reply = read_words(&mut part, actor, handle, first, room);
    *host = kept(part);
    reply
}

/// A worker writes words into a block.
pub fn write_part(
    alloc: Global,
    host: &mut HostPart,
    actor: Actor,
    handle: Handle,
    first: u32,
    words: &[u64],
) -> Reply
    ensures { WritesWords host.old actor handle first words.now result host.new }
{
    let Some(mut part) = taken_part(alloc, host) else {
        return Reply::plain(CLOSED);
    };
    let reply = write_words(&mut part, actor, handle, first, words);
    *host = kept(part);
    reply
}

//! The blocks that a worker holds, for an actor.

ghost use Rattle.hg_service_replies.specs.Listing.{AreTold, PartLists};

use crate::part::HostedPart;
use hg_machine::Row;
use hg_place::Actor;
use hg_reply::Reply;
use hg_reply::status::{CLOSED, DONE, NO_MEMORY};
use std::alloc::Global;

/// Shows an actor the blocks that a worker holds, rising: `DONE` with how many there are, of which
/// as many stand in the room as have one there. `NO_MEMORY`, and then none was looked at; and any
/// other part is answered `CLOSED`.
pub fn list(alloc: Global, part: &mut HostedPart, actor: Actor, room: &mut [Reply]) -> Reply
    ensures { PartLists part.old actor room.old result part.new room.new }
{
    let HostedPart::Worker(worker) = part else {
        return Reply::plain(CLOSED);
    };
    match worker.list(alloc, actor) {
        Ok(rows) => {
            tell_rows(&rows, room);
            Reply::valued(DONE, rows.len() as u64)
        }
        Err(_) => Reply::plain(NO_MEMORY),
    }
}

/// Writes as many rows as there is room for; what is behind them stays.
pub fn tell_rows(rows: &[Row], room: &mut [Reply])
    ensures { AreTold rows.now room.old room.new }
{
    let count = rows.len().min(room.len());
    for at in 0..count {
        room[at] = Reply::listed(rows[at]);
    }
}

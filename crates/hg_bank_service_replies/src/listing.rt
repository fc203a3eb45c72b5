//! The blocks that a bank worker holds in a core, for an actor.

ghost use Rattle.hg_bank_service_replies.specs.Listing.{PartLists};

use crate::part::BankPart;
use hg_place::Actor;
use hg_reply::Reply;
use hg_reply::status::{CLOSED, DONE, NO_MEMORY};
use hg_service_replies::tell_rows;
use std::alloc::Global;

/// Shows an actor the blocks that a worker holds in a core, rising: `DONE` with how many there are, of
/// which as many stand in the room as have one there; none in a core that isn't there. `NO_MEMORY`, and
/// then none was looked at; and any other part is answered `CLOSED`.
pub fn list(
    alloc: Global,
    part: &mut BankPart,
    core: u16,
    actor: Actor,
    room: &mut [Reply],
) -> Reply
    ensures { PartLists part.old core actor room.old result part.new room.new }
{
    let BankPart::Worker(worker) = part else {
        return Reply::plain(CLOSED);
    };
    match worker.list(alloc, core, actor) {
        Ok(rows) => {
            tell_rows(&rows, room);
            Reply::valued(DONE, rows.len() as u64)
        }
        Err(_) => Reply::plain(NO_MEMORY),
    }
}

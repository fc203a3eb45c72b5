//! A worker leaves its service.

ghost use Rattle.hg_service_replies.specs.Leaving.{Leaves, PartLeaves};

use crate::part::HostedPart;
use hg_hosted::{Departed, HostedWorker};
use hg_reply::Reply;
use hg_reply::status::{AGAIN, BUSY, CLOSED, DONE, STILL_HELD};
use std::mem;

/// Gives a worker back to its service: `DONE`, and the part is what is left of it. `BUSY` where it
/// has a block in hand, `STILL_HELD` with the lowest segment that it holds, and `AGAIN` where another
/// call has what the worker has to put back; then it stays as it was. Any other part is answered
/// `CLOSED`.
pub fn leave(part: &mut HostedPart) -> Reply
    ensures { PartLeaves part.old result part.new }
{
    match mem::replace(part, HostedPart::Gone) {
        HostedPart::Worker(worker) => match leave_one(worker) {
            Ok(gone) => {
                *part = HostedPart::Left(gone);
                Reply::plain(DONE)
            }
            Err((back, why)) => {
                *part = HostedPart::Worker(back);
                why
            }
        },
        other => {
            *part = other;
            Reply::plain(CLOSED)
        }
    }
}

/// A worker leaves, or comes back with the reason.
pub(crate) fn leave_one(worker: HostedWorker) -> Result<Departed, (HostedWorker, Reply)>
    ensures { Leaves worker result }
{
    if worker.hand().is_some() {
        return Err((worker, Reply::plain(BUSY)));
    }
    if let Some(segment) = worker.first_held() {
        return Err((worker, Reply::valued(STILL_HELD, u64::from(segment))));
    }
    match worker.leave() {
        Ok(gone) => Ok(gone),
        Err(back) => Err((back, Reply::plain(AGAIN))),
    }
}

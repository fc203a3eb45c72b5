//! A part is given up.

ghost use Rattle.hg_service_replies.specs.Dropping.{DropsService, DropsWorker};

use crate::part::HostedPart;
use hg_reply::Reply;
use hg_reply::status::{CLOSED, DONE};
use std::mem;

/// Gives up a worker, with all that it holds: `DONE`, and the part is gone. Any other part is
/// answered `CLOSED`, and stays.
pub fn drop_worker(part: &mut HostedPart) -> Reply
    ensures { DropsWorker part.old result part.new }
{
    match mem::replace(part, HostedPart::Gone) {
        HostedPart::Worker(_worker) => Reply::plain(DONE),
        other => {
            *part = other;
            Reply::plain(CLOSED)
        }
    }
}

/// Gives up a service, whose workers go on, or the core that it became: `DONE`, and the part is gone.
/// Any other part is answered `CLOSED`, and stays.
pub fn drop_service(part: &mut HostedPart) -> Reply
    ensures { DropsService part.old result part.new }
{
    match mem::replace(part, HostedPart::Gone) {
        HostedPart::Service(_service) => Reply::plain(DONE),
        HostedPart::Core(_core) => Reply::plain(DONE),
        other => {
            *part = other;
            Reply::plain(CLOSED)
        }
    }
}

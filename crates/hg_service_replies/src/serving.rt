//! One event of a worker.

ghost use Rattle.hg_service_replies.specs.Serving.{PartServes};

use crate::part::HostedPart;
use hg_machine::Event;
use hg_reply::status::{AGAIN, CLOSED};
use hg_reply::{Reply, reply_of};

/// Serves one event of a part that is a worker, by the call of its name: `AGAIN`, and nothing is
/// done, where another call has what a Deliver, a Take, a Refill or an Abandon needs. Any other part
/// is answered `CLOSED`.
#[inline(always)]
pub fn serve(part: &mut HostedPart, event: Event) -> Reply
    ensures { PartServes part.old event result part.new }
{
    match part {
        HostedPart::Worker(worker) => match worker.step(event) {
            Some(answer) => reply_of(answer),
            None => Reply::plain(AGAIN),
        },
        _ => Reply::plain(CLOSED),
    }
}

//! What a host asks a part of a service.

ghost use Rattle.std.specs.Prelude.{◌≡◌};
ghost use Rattle.hg_reply.specs.Naming.{number_of};
ghost use Rattle.hg_service_replies.specs.Asking.{PartFinds, PartTells, policy_tells, state_tells};
ghost use Rattle.hg_hosted.specs.Has.{Has};

use crate::part::HostedPart;
use hg_hosted::{HostedService, HostedWorker};
use hg_reply::status::{CLOSED, NOTHING_IN_HAND, VALUE};
use hg_reply::{NOBODY, Name, Reply, find_number};

/// A question that changes nothing.
#[derive(Clone, Copy)]
pub enum PartQuestion {
    /// Of a service: how many workers its policy has.
    Workers,
    /// Of a service: how many segments, in all arenas.
    Segments,
    /// Of a worker: its number.
    Own,
    /// Of a worker: whether it holds a segment, as 1 or 0.
    Holds(u8),
    /// Of a worker: the place of the block in its hand.
    Hand,
}

/// Answers a question. A part that isn't what it is asked of is answered `CLOSED`.
pub fn answer(part: &HostedPart, question: PartQuestion) -> Reply
    ensures { PartTells part.now question result }
{
    match part {
        HostedPart::Service(opened) => of_service(&opened.service, question),
        HostedPart::Worker(worker) => of_worker(worker, question),
        _ => Reply::plain(CLOSED),
    }
}

fn of_service(service: &HostedService, question: PartQuestion) -> Reply
    ensures { result ≡ policy_tells service.now.policy question }
{
    match question {
        PartQuestion::Workers => Reply::valued(VALUE, u64::from(service.policy().workers())),
        PartQuestion::Segments => Reply::valued(VALUE, u64::from(service.policy().segments())),
        _ => Reply::plain(CLOSED),
    }
}

fn of_worker(worker: &HostedWorker, question: PartQuestion) -> Reply
    ensures { Has (λ state. result ≡ state_tells state question) worker.now }
{
    match question {
        PartQuestion::Own => Reply::valued(VALUE, u64::from(worker.number())),
        PartQuestion::Holds(segment) => Reply::valued(VALUE, u64::from(worker.holds(segment))),
        PartQuestion::Hand => match worker.hand() {
            Some(place) => Reply::valued(VALUE, place.number() as u64),
            None => Reply::plain(NOTHING_IN_HAND),
        },
        _ => Reply::plain(CLOSED),
    }
}

/// Finds the number of a name in a service's policy. Any other part is answered `CLOSED`, with
/// nobody's number.
pub fn find(part: &HostedPart, name: Name<'_>) -> Reply
    ensures { PartFinds part.now (number_of name.entry) result }
{
    match part {
        HostedPart::Service(opened) => find_number(opened.service.policy(), name),
        _ => Reply::valued(CLOSED, NOBODY),
    }
}

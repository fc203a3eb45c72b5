//! What a host asks a part of a bank of services.

ghost use Rattle.std.specs.Prelude.{◌≡◌};
ghost use Rattle.hg_reply.specs.Naming.{number_of};
ghost use Rattle.hg_bank_service_replies.specs.Asking.{PartFinds, PartTells, service_tells};
ghost use Rattle.hg_bank_service_replies.specs.Asking.{TellsHand, TellsHeld, WorkerTells};
ghost use Rattle.hg_bank_service_replies.specs.Asking.{charged};

use crate::part::BankPart;
use hg_bank::BankSegment;
use hg_bank_service::{BankService, BankWorker};
use hg_reply::status::{CLOSED, NO_NAME, NOTHING_IN_HAND, VALUE};
use hg_reply::{NOBODY, Name, Reply, find_number};

/// A question that changes nothing.
#[derive(Clone, Copy)]
pub enum BankPartQuestion {
    /// Of a bank of services: how many cores it has.
    Cores,
    /// Of a bank of services: how many workers its policy has.
    Workers,
    /// Of a bank of services: how many segments each core has, in all arenas.
    Segments,
    /// Of a worker: its number.
    Own,
    /// Of a worker: how many cores it has.
    OwnCores,
    /// Of a worker: whether it holds a segment of a core, as 1 or 0.
    Holds { core: u16, segment: u8 },
    /// Of a worker: the place of the block in its hand in a core.
    Hand(u16),
    /// Of a worker: what counts against a tenant's limit with it, over all cores, in bytes.
    Charge(u8),
}

/// Answers a question. A part that isn't what it is asked of is answered `CLOSED`.
pub fn answer(part: &BankPart, question: BankPartQuestion) -> Reply
    ensures { PartTells part.now question result }
{
    match part {
        BankPart::Service(opened) => of_service(&opened.service, question),
        BankPart::Worker(worker) => of_worker(worker, question),
        _ => Reply::plain(CLOSED),
    }
}

fn of_service(service: &BankService, question: BankPartQuestion) -> Reply
    ensures { result ≡ service_tells service.now question }
{
    match question {
        BankPartQuestion::Cores => Reply::valued(VALUE, u64::from(service.cores())),
        BankPartQuestion::Workers => Reply::valued(VALUE, u64::from(service.policy().workers())),
        BankPartQuestion::Segments => Reply::valued(VALUE, u64::from(service.policy().segments())),
        _ => Reply::plain(CLOSED),
    }
}

fn of_worker(worker: &BankWorker, question: BankPartQuestion) -> Reply
    ensures { WorkerTells worker.now question result }
{
    match question {
        BankPartQuestion::Own => Reply::valued(VALUE, u64::from(worker.number())),
        BankPartQuestion::OwnCores => Reply::valued(VALUE, u64::from(worker.cores())),
        BankPartQuestion::Holds { core, segment } => held_in(worker, core, segment),
        BankPartQuestion::Hand(core) => hand_of(worker, core),
        BankPartQuestion::Charge(tenant) => charge_of(worker, tenant),
        _ => Reply::plain(CLOSED),
    }
}

fn held_in(worker: &BankWorker, core: u16, segment: u8) -> Reply
    ensures { TellsHeld worker.now core segment result }
{
    let held = worker.holds(BankSegment { core, segment });
    Reply::valued(VALUE, u64::from(held))
}

fn hand_of(worker: &BankWorker, core: u16) -> Reply
    ensures { TellsHand worker.now core result }
{
    match worker.hand(core) {
        Some(place) => Reply::valued(VALUE, place.number() as u64),
        None => Reply::plain(NOTHING_IN_HAND),
    }
}

fn charge_of(worker: &BankWorker, tenant: u8) -> Reply
    ensures { result ≡ charged worker.now tenant }
{
    match worker.charge(tenant) {
        Some(bytes) => Reply::valued(VALUE, bytes),
        None => Reply::plain(NO_NAME),
    }
}

/// Finds the number of a name in the policy of a bank of services. Any other part is answered `CLOSED`,
/// with nobody's number.
pub fn find(part: &BankPart, name: Name<'_>) -> Reply
    ensures { PartFinds part.now (number_of name.entry) result }
{
    match part {
        BankPart::Service(opened) => find_number(opened.service.policy(), name),
        _ => Reply::valued(CLOSED, NOBODY),
    }
}

//! A part of a bank of services, as its host keeps it.

ghost use Rattle.hg_bank_service_replies.specs.Owned.{AreItsWorkers};

use hg_bank::Bank;
use hg_bank_service::{BankService, BankWorker, Leaving};
use hg_hosted::Departed;

/// A part of a bank of services, as its host keeps it.
#[derive(Drop)]
pub enum BankPart {
    /// A worker, for one thread.
    Worker(BankWorker),
    /// A worker that is leaving: in some cores it may have left.
    Leaving(Leaving),
    /// What there is beside the workers that threads have.
    Service(OpenBank),
    /// The bank that the services became, as long as there is no memory to hand it out.
    Bank(Bank),
    /// What is left of a worker that has left, in each core.
    Left(Vec<Departed>),
    /// Nothing any more: what was given up, or a bank of services that was closed.
    Gone,
}

/// A bank of services, and its workers that no thread has yet.
#[derive(Drop)]
pub struct OpenBank {
    pub service: BankService,
    /// By number; none where it was given to a thread.
    pub workers: Vec<Option<Ungiven>>,
    ghost own: { AreItsWorkers service workers.items },
}

/// A worker that no thread has.
#[derive(Drop)]
pub enum Ungiven {
    /// It stands ready for its thread.
    Ready(BankWorker),
    /// It is leaving: in some cores it may have left.
    Leaving(Leaving),
    /// It has left, in each core.
    Gone(Vec<Departed>),
}

//! A part of a service, as its host keeps it.

ghost use Rattle.hg_service_replies.specs.Owned.{AreItsWorkers};

use hg_core::Core;
use hg_hosted::{Departed, HostedService, HostedWorker};

/// A part of a service, as its host keeps it.
#[derive(Drop)]
pub enum HostedPart {
    /// A worker, for one thread.
    Worker(HostedWorker),
    /// What there is beside the workers that threads have.
    Service(OpenService),
    /// The core that a service became, as long as there is no memory to hand it out.
    Core(Core),
    /// What is left of a worker that has left.
    Left(Departed),
    /// Nothing any more: what was given up, or a service that was closed.
    Gone,
}

/// A service, and its workers that no thread has yet.
#[derive(Drop)]
pub struct OpenService {
    pub service: HostedService,
    /// By number; none where it was given to a thread.
    pub workers: Vec<Option<Ungiven>>,
    ghost own: { AreItsWorkers service workers.items },
}

/// A worker that no thread has.
#[derive(Drop)]
pub enum Ungiven {
    /// It stands ready for its thread.
    Ready(HostedWorker),
    /// It has left.
    Gone(Departed),
}

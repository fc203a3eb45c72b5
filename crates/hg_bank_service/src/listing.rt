//! The blocks that a worker holds in one core.

ghost use Rattle.std.specs.Prelude.{MatchResult};
ghost use Rattle.hg_bank_service.specs.Listing.{ListsIn, ListsNothing};

use crate::worker::BankWorker;
use hg_machine::Row;
use hg_place::Actor;
use std::alloc::{AllocError, Global};

impl BankWorker {
    /// Shows the actor the blocks that the worker holds in a core, as that core's worker does: one
    /// look at each place that its segments record as open, rising. In a core that isn't there it
    /// holds none. An error is want of memory, and then nothing was looked at.
    pub fn list(&mut self, alloc: Global, core: u16, actor: Actor) -> Result<Vec<Row>, AllocError>
        ensures { MatchResult result (λ rows. ListsIn core actor rows.items self.old self.new)
            (λ refused. ListsNothing core self.old self.new) }
    {
        if usize::from(core) >= self.workers.len() {
            return Ok(Vec::new(alloc));
        }
        let worker = &mut self.workers[usize::from(core)];
        worker.list(alloc, actor)
    }
}

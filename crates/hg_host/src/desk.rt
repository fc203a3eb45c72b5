//! A worker at a core.

ghost use Rattle.std.specs.Prelude.{◌≡◌, ◌<◌, ◌≤◌, [], ◌∷◌, IfOk, MatchOption};
ghost use Rattle.heapguard_core.specs.Answers.{read_answer};
ghost use Rattle.heapguard_core.specs.Steps.{Run, Step};
ghost use Rattle.heapguard_core.specs.declared.Answer.TheVariants as Answer;
ghost use Rattle.heapguard_core.specs.declared.Event.TheVariants as Event;

use heapguard_core::{Actor, Core, Handle, NoSegment, Refused, laws};

/// The arena that the blocks are of.
const MAIN: u8 = 0;

/// A core, and a worker that its policy has.
#[derive(Drop)]
pub struct Desk {
    core: Core,
    worker: u8,
    ghost served: { worker < core.state.policy.workers },
}

impl Desk {
    /// The desk of a worker; `None` where the policy has no such worker.
    pub fn at(core: Core, worker: u8) -> Option<Desk>
        ensures { MatchOption result (core.state.policy.workers ≤ worker)
            (λ desk. (desk.core ≡ core) × (desk.worker ≡ worker)) }
    {
        if worker < core.policy().workers() {
            Some(Desk { core, worker })
        } else {
            drop(core);
            None
        }
    }

    /// Takes a segment to serve from.
    pub fn refill(&mut self) -> Result<u8, NoSegment> {
        laws::steps_keep_policy();
        self.core.refill(self.worker, MAIN)
    }

    /// Keeps a number in a new block of the actor's.
    pub fn keep(&mut self, actor: Actor, number: u64) -> Result<Handle, Refused>
        ensures { IfOk result (λ block. Run self.old.core.state
            ((self.old.worker, Event.Alloc actor 0 8)
            ∷ (self.old.worker, Event.Write actor block 0 number) ∷ [])
            (Answer.Block block ∷ Answer.Done ∷ []) self.new.core.state) }
    {
        laws::steps_keep_policy();
        let block = self.core.alloc(self.worker, actor, MAIN, 8)?;
        self.core.write(self.worker, actor, block, 0, number)?;
        Ok(block)
    }

    /// Tells an actor the number in a block.
    pub fn tell(&mut self, actor: Actor, block: Handle) -> Result<u64, Refused>
        ensures { Step self.old.core.state self.old.worker (Event.Read actor block 0)
            (read_answer result) self.new.core.state }
    {
        laws::steps_keep_policy();
        self.core.read(self.worker, actor, block, 0)
    }
}

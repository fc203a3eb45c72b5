//! One event of a worker.

ghost use Rattle.std.specs.Prelude.{MatchOption};
ghost use Rattle.hg_hosted.specs.Reaching.{Reaches};
ghost use Rattle.hg_hosted.specs.Serving.{Serves};
ghost use Rattle.hg_hosted.specs.Steps.{Does};
ghost use Rattle.hg_hosted.specs.Waiting.{Waits};

use crate::worker::HostedWorker;
use hg_machine::{Answer, Event};

impl HostedWorker {
    /// Serves an event by the call of its name. `None`, and nothing is done, where another call has
    /// what it needs; that may be so of a Deliver with a block in hand, a Take or an Abandon of a
    /// segment that the worker holds, and a Refill of an arena below 16.
    pub fn step(&mut self, event: Event) -> Option<Answer>
        ensures served { MatchOption result (Serves (Waits event) self.old self.new)
            (λ answer. Serves (Does event answer) self.old self.new) }
        ensures reach { Reaches event self.old self.new }
    {
        match event {
            Event::Alloc {
                actor,
                arena,
                bytes,
            } => Some(self.alloc(actor, arena, bytes)),
            Event::Free { actor, handle } => Some(self.free(actor, handle)),
            Event::Deliver => self.deliver(),
            Event::Take { segment } => self.take(segment),
            Event::Collect => Some(self.collect()),
            Event::Read {
                actor,
                handle,
                index,
            } => Some(self.read(actor, handle, index)),
            Event::Write {
                actor,
                handle,
                index,
                value,
            } => Some(self.write(actor, handle, index, value)),
            Event::Look { actor, place } => Some(self.look(actor, place)),
            Event::Abandon { segment } => self.abandon(segment),
            Event::Refill { arena } => self.refill(arena),
        }
    }
}

//! A core's worker is called.

ghost use Rattle.std.specs.Prelude.{◌≡◌, true};
ghost use Rattle.hg_machine.specs.declared.Answer.TheVariants as answer;
ghost use Rattle.hg_bank.specs.Requests.{absent, missing};
ghost use Rattle.hg_bank_service.specs.Named.{keeps_charges, ServesIn};

use crate::asking::serve_there;
use crate::worker::BankWorker;
use hg_machine::{Answer, Event, Rule};
use hg_place::Actor;
use hg_policy::Policy;

impl BankWorker {
    /// The worker of a core serves an event by which no charge changes.
    pub(crate) fn calm(&mut self, core: u16, event: Event) -> Option<Answer>
        requires { keeps_charges event ≡ true }
        ensures { ServesIn core event result self.old self.new }
    {
        if usize::from(core) >= self.workers.len() {
            return Some(absent(&self.policy, event));
        }
        let worker = &mut self.workers[usize::from(core)];
        worker.step(event)
    }

    /// The worker of a core serves an event, and the sums follow.
    pub(crate) fn counting(&mut self, core: u16, event: Event) -> Option<Answer>
        ensures { ServesIn core event result self.old self.new }
    {
        if usize::from(core) >= self.workers.len() {
            return Some(absent(&self.policy, event));
        }
        serve_there(&self.policy, &mut self.workers, &mut self.sums, core, event)
    }
}

/// What an event is answered that names a core that isn't there.
fn absent(policy: &Policy, event: Event) -> Answer
    ensures { result ≡ absent policy.now event }
{
    match event {
        Event::Alloc {
            actor: _,
            arena: _,
            bytes: _,
        } => Answer::NoRoom,
        Event::Free { actor, handle: _ } => missing(policy, actor),
        Event::Deliver => Answer::NothingInHand,
        Event::Take { segment: _ } => Answer::NotHeld,
        Event::Collect => Answer::Pages(0),
        Event::Read {
            actor,
            handle: _,
            index: _,
        } => missing(policy, actor),
        Event::Write {
            actor,
            handle: _,
            index: _,
            value: _,
        } => missing(policy, actor),
        Event::Look { actor, place: _ } => missing(policy, actor),
        Event::Abandon { segment: _ } => Answer::NotHeld,
        Event::Refill { arena: _ } => Answer::NoSegment,
    }
}

/// What is answered of a block of a core that isn't there.
fn missing(policy: &Policy, actor: Actor) -> Answer
    ensures { result ≡ missing policy.now actor.0 }
{
    if policy.limit(actor.0).is_some() {
        Answer::Denied(Rule::Stale(0))
    } else {
        Answer::Denied(Rule::Stranger)
    }
}

//! Runs: many events, served in turn.

ghost use Rattle.std.specs.Prelude.{◌≡◌, ◌<◌, IfOk, OnErr, All, length, vec_capacity};
ghost use Rattle.hg_machine.specs.Steps.{Run};
ghost use Rattle.hg_machine.specs.Soundness.{IsSound};
ghost use Rattle.hg_machine.specs.Lists.{IsPartition};
ghost use Rattle.hg_choice.specs.ChosenSteps.{Chosen};

use crate::serving::Core;
use hg_machine::{Answer, Event};
use std::alloc::{AllocError, Global};

/// So many answers, to be written over, in room for no more. It isn't given the core, so nothing
/// that a core keeps decides whether there is memory.
fn answer_room(alloc: Global, count: usize) -> Result<Vec<Answer>, AllocError>
    ensures all { IfOk result (λ answers. length answers.items ≡ count) }
    ensures room { IfOk result (λ answers. vec_capacity answers ≡ count) }
{
    let mut answers = Vec::with_capacity(alloc, count)?;
    for _ in 0..count {
        answers.push_reserved(Answer::Done);
    }
    Ok(answers)
}

impl Core {
    /// Serves events of any workers in turn, and writes the answer to each over what stands at its
    /// place. It is given no allocator, and nothing refuses it.
    pub fn run_in(&mut self, events: &[(u8, Event)], answers: &mut [Answer])
        requires workers { All (λ event. event.0 < self.old.state.policy.workers) events.now }
        requires room { length answers.old ≡ length events.now }
        ensures run { Run self.old.state events.now answers.new self.new.state }
        ensures chosen { Chosen self.old events.now answers.new self.new }
        ensures kept { IsSound self.new.state × IsPartition self.new }
    {
        let _stores = &self.stores; // so that what holds of them is known before the first event
        for (number, event) in events.iter().enumerate() {
            let answer = self.step(event.0, event.1);
            answers[number] = answer;
        }
    }

    /// Serves events of any workers in turn. Where there is no memory for the answers, it serves
    /// none.
    pub fn run(&mut self, alloc: Global, events: &[(u8, Event)]) -> Result<Vec<Answer>, AllocError>
        requires workers { All (λ event. event.0 < self.old.state.policy.workers) events.now }
        ensures run { IfOk result
            (λ answers. Run self.old.state events.now answers.items self.new.state) }
        ensures chosen { IfOk result
            (λ answers. Chosen self.old events.now answers.items self.new) }
        ensures kept { IsSound self.new.state × IsPartition self.new }
        ensures err { OnErr result (self.new ≡ self.old) }
    {
        let _stores = &self.stores; // so that what holds of them is known where there is no memory
        let mut answers = answer_room(alloc, events.len())?;
        self.run_in(events, &mut answers);
        Ok(answers)
    }
}

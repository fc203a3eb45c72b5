//! Refill: the first core that is asked and has a segment of the arena gives it to the worker.

ghost use Rattle.std.specs.Prelude.{◌≡◌, ◌<◌, ◌≤◌, length, vec_len};
ghost use Rattle.hg_machine.specs.Policy.{Policy};
ghost use Rattle.hg_bank.specs.declared.bank.TheConstants.{MAX_CORES};
ghost use Rattle.hg_bank_service.specs.Has.{AreNumbered};
ghost use Rattle.hg_bank_service.specs.Refilling.{RefillsBy};
ghost use Rattle.hg_bank_service.specs.Searching.{EndsSo, IsSearched, segment_given};
ghost use Rattle.hg_bank_service.specs.Sums.{AreSums};

use crate::asking::serve_there;
use crate::order::core_at;
use crate::worker::BankWorker;
use hg_bank::BankSegment;
use hg_core::NoSegment;
use hg_hosted::HostedWorker;
use hg_machine::{Answer, Event};
use hg_policy::Policy;
use hg_segment::TENANTS;

/// How a search for a segment ends.
pub(crate) enum Found {
    /// The core that was asked last gave this one.
    Segment(BankSegment),
    /// Another call has the segments of this core, which was asked last.
    Busy(u16),
    /// No core has one.
    Nothing,
}

/// What the first core with a segment of the arena gives, asked from the current one on, round and
/// round, up to one of which another call has the segments. The sums follow.
fn next_with_segment(
    policy: &Policy,
    workers: &mut Vec<HostedWorker>,
    sums: &mut [u64; TENANTS],
    number: u8,
    current: u16,
    arena: u8,
) -> Found
    requires current { current < vec_len workers.old }
    requires few { length workers.old.items ≤ MAX_CORES }
    requires of { AreNumbered policy.now number workers.old.items }
    requires counted { AreSums (length policy.now.tenants) sums.old workers.old.items }
    ensures { IsSearched policy.now number (EndsSo arena current result) workers.old.items
        workers.new.items sums.new }
{
    let count = workers.len() as u16;
    for before in 0..count {
        let core = core_at(current, count, before);
        let told = serve_there(policy, workers, sums, core, Event::Refill { arena });
        let Some(answer) = told else {
            return Found::Busy(core);
        };
        if let Some(segment) = segment_of(answer) {
            return Found::Segment(BankSegment { core, segment });
        }
    }
    Found::Nothing
}

/// The segment that an answer gives.
fn segment_of(answer: Answer) -> Option<u8>
    ensures { result ≡ segment_given answer }
{
    match answer {
        Answer::Refilled(segment) => Some(segment),
        _ => None,
    }
}

impl BankWorker {
    /// Takes the oldest orphan of the arena, or else its lowest fresh segment, of the first core
    /// that has one, asked from the current one of the arena on, round and round; it is current
    /// from then on. `NoSegment` where each core was asked and none has one.
    ///
    /// `None` where another call has the segments of a core before any has one: then nothing is
    /// done, and the worker asks again when it likes. No core is passed over meanwhile, so that
    /// which core serves is never a matter of who came first.
    pub fn refill(&mut self, arena: u8) -> Option<Result<BankSegment, NoSegment>>
        ensures { RefillsBy arena result self.old self.new }
    {
        let current = self.currents[usize::from(arena)];
        match next_with_segment(
            &self.policy,
            &mut self.workers,
            &mut self.sums,
            self.number,
            current,
            arena,
        ) {
            Found::Segment(segment) => {
                self.currents[usize::from(arena)] = segment.core;
                Some(Ok(segment))
            }
            Found::Busy(_core) => None,
            Found::Nothing => Some(Err(NoSegment)),
        }
    }
}

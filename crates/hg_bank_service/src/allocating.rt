//! Alloc: the first core that is asked and has a place gives out a block.

ghost use Rattle.std.specs.Prelude.{◌≡◌, ◌<◌, ◌≤◌, length, vec_len};
ghost use Rattle.hg_machine.specs.declared.AllocVerdict.TheVariants as verdict;
ghost use Rattle.hg_machine.specs.Policy.{Policy};
ghost use Rattle.hg_machine.specs.Request.{alloc_verdict, words_for, size_of};
ghost use Rattle.hg_bank.specs.declared.bank.TheConstants.{MAX_CORES};
ghost use Rattle.hg_bank_service.specs.Allocating.{AllocatesBy, sum_verdict};
ghost use Rattle.hg_bank_service.specs.Has.{AreNumbered};
ghost use Rattle.hg_bank_service.specs.Searching.{EndsInBlock, IsSearched};
ghost use Rattle.hg_bank_service.specs.Sums.{AreSums, charge_over};

use crate::asking::alloc_there;
use crate::order::core_at;
use crate::sums::counted;
use crate::worker::BankWorker;
use hg_bank::BankHandle;
use hg_decision::{AllocVerdict, judge_alloc};
use hg_heap::Refused;
use hg_hosted::HostedWorker;
use hg_place::Actor;
use hg_policy::Policy;
use hg_segment::TENANTS;
use hg_size::words_of;

/// The block that the first core with a place gives out, asked from the current one on, round and
/// round. The verdict of each is that it fits, so that only a place is asked for.
fn next_with_place(
    policy: &Policy,
    workers: &mut Vec<HostedWorker>,
    sums: &mut [u64; TENANTS],
    number: u8,
    current: u16,
    actor: Actor,
    arena: u8,
    bytes: u64,
) -> Option<BankHandle>
    requires current { current < vec_len workers.old }
    requires few { length workers.old.items ≤ MAX_CORES }
    requires of { AreNumbered policy.now number workers.old.items }
    requires counted { AreSums (length policy.now.tenants) sums.old workers.old.items }
    requires fits { alloc_verdict policy.now actor.0 arena (words_for bytes)
        (charge_over workers.old.items actor.0) ≡ verdict.Fits (size_of bytes) }
    ensures { IsSearched policy.now number (EndsInBlock actor arena bytes current result)
        workers.old.items workers.new.items sums.new }
{
    let count = workers.len() as u16;
    for before in 0..count {
        let core = core_at(current, count, before);
        let given = alloc_there(policy, workers, sums, core, actor, arena, bytes);
        if let Some(handle) = given {
            return Some(BankHandle { core, handle });
        }
    }
    None
}

impl BankWorker {
    /// Gives out a block of so many bytes, all words 0, as the first core with a place does, asked
    /// from the current one of the arena on, round and round; it is current from then on. A refusal
    /// changes no block, sum or current core. `Denied` names the first rule that refuses:
    /// `Stranger`, `ForeignArena`, `OverLimit` by what the actor has with this worker in all cores;
    /// `TooLarge` is above 65,536 bytes; `NoRoom` where no core has a place.
    pub fn alloc(&mut self, actor: Actor, arena: u8, bytes: u64) -> Result<BankHandle, Refused>
        ensures { AllocatesBy (sum_verdict self.old actor arena bytes) actor arena bytes result
            self.old self.new }
    {
        let charge = counted(&self.sums, actor);
        match judge_alloc(&self.policy, actor, arena, words_of(bytes), charge) {
            AllocVerdict::Denied(rule) => Err(Refused::Denied(rule)),
            AllocVerdict::TooLarge => Err(Refused::TooLarge),
            AllocVerdict::Fits(_class) => self.alloc_fitting(actor, arena, bytes),
        }
    }

    /// Gives out a block where the verdict is that it fits.
    fn alloc_fitting(&mut self, actor: Actor, arena: u8, bytes: u64) -> Result<BankHandle, Refused>
        requires { sum_verdict self.old actor arena bytes ≡ verdict.Fits (size_of bytes) }
        ensures { AllocatesBy (verdict.Fits (size_of bytes)) actor arena bytes result
            self.old self.new }
    {
        let current = self.currents[usize::from(arena)];
        let Some(block) = next_with_place(
            &self.policy,
            &mut self.workers,
            &mut self.sums,
            self.number,
            current,
            actor,
            arena,
            bytes,
        ) else {
            return Err(Refused::NoRoom);
        };
        self.currents[usize::from(arena)] = block.core;
        Ok(block)
    }
}

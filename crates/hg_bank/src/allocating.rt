//! Alloc: the first core that is asked and has room gives out a block.

ghost use Rattle.std.specs.Prelude.{◌≡◌, ◌-◌, ◌<◌, ◌≤◌, IfSome, IfNone, IfOk, Some, None, All};
ghost use Rattle.std.specs.Prelude.{find};
ghost use Rattle.std.specs.Prelude.{length, vec_len, vec_capacity};
ghost use Rattle.std.specs.List.{range_with_len};
ghost use Rattle.hg_machine.specs.declared.Answer.TheVariants as Answer;
ghost use Rattle.hg_machine.specs.declared.Event.TheVariants as Event;
ghost use Rattle.hg_machine.specs.Request.{size_of};
ghost use Rattle.hg_bank.specs.Answers.{bank_alloc_answer, core_of};
ghost use Rattle.hg_bank.specs.Choosing.{FitsIn, IsServedIn};
ghost use Rattle.hg_bank.specs.Order.{round_from};
ghost use Rattle.hg_bank.specs.Requests.{alloc, server, has_room_in};
ghost use Rattle.hg_bank.specs.Sound.{IsSoundBank};
ghost use Rattle.hg_bank.specs.Steps.{BankStep};

use crate::bank::{Bank, BankHandle, MAX_CORES};
use crate::sums::{count_more, counted};
use hg_core::{Core, Refused};
use hg_decision::{AllocVerdict, judge_alloc};
use hg_place::{Actor, WORD_BYTES};
use hg_size::{block_words, words_of};

/// The block that the first core of a range with room gives out. The verdict of each is that it
/// fits, so that only room is asked for.
fn first_with_room(
    cores: &mut Vec<Core>,
    first: u16,
    past: u16,
    worker: u8,
    actor: Actor,
    arena: u8,
    bytes: u64,
) -> Option<BankHandle>
    requires range { first ≤ past }
    requires past { past ≤ vec_len cores.old }
    requires fits { All (FitsIn worker actor arena bytes) cores.old.items }
    ensures none { IfNone result (cores.new.items ≡ cores.old.items) }
    ensures served { IfSome result (λ block. IsServedIn cores.old.items worker
        (Event.Alloc actor arena bytes) block.core (Answer.Block block.handle) cores.new.items) }
    ensures found { find (has_room_in cores.old.items worker arena (size_of bytes))
        (range_with_len first (past - first)) ≡ core_of result }
    ensures room { vec_capacity cores.new ≡ vec_capacity cores.old }
{
    for number in first..past {
        let core = &mut cores[usize::from(number)];
        if let Ok(handle) = core.alloc(worker, actor, arena, bytes) {
            return Some(BankHandle {
                core: number,
                handle,
            });
        }
    }
    None
}

/// The block that the first core from the current one on gives out, round and round.
fn next_with_room(
    cores: &mut Vec<Core>,
    current: u16,
    worker: u8,
    actor: Actor,
    arena: u8,
    bytes: u64,
) -> Option<BankHandle>
    requires current { current < vec_len cores.old }
    requires few { vec_len cores.old ≤ MAX_CORES }
    requires fits { All (FitsIn worker actor arena bytes) cores.old.items }
    ensures none { IfNone result (cores.new.items ≡ cores.old.items) }
    ensures served { IfSome result (λ block. IsServedIn cores.old.items worker
        (Event.Alloc actor arena bytes) block.core (Answer.Block block.handle) cores.new.items) }
    ensures found { find (has_room_in cores.old.items worker arena (size_of bytes))
        (round_from current (length cores.old.items)) ≡ core_of result }
    ensures room { vec_capacity cores.new ≡ vec_capacity cores.old }
{
    let count = cores.len() as u16;
    if let Some(block) = first_with_room(cores, current, count, worker, actor, arena, bytes) {
        return Some(block);
    }
    first_with_room(cores, 0, current, worker, actor, arena, bytes)
}

impl Bank {
    /// Gives out a block of so many bytes, as the first core with room does, asked from the
    /// current one of the worker and the arena on, round and round; it is current from then on. A
    /// refusal changes nothing. `Denied` names the first rule that refuses: `Stranger`,
    /// `ForeignArena`, `OverLimit` by what the actor has with the worker in all cores; `TooLarge`
    /// is above 65,536 bytes; `NoRoom` where no core has room.
    pub fn alloc(
        &mut self,
        worker: u8,
        actor: Actor,
        arena: u8,
        bytes: u64,
    ) -> Result<BankHandle, Refused>
        requires worker { worker < self.old.policy.workers }
        ensures step { BankStep self.old worker (alloc actor arena bytes)
            (bank_alloc_answer result) self.new }
        ensures core { IfOk result
            (λ block. server self.old worker (alloc actor arena bytes) ≡ Some block.core) }
        ensures kept { IsSoundBank self.new }
    {
        let row = &mut self.sums[usize::from(worker)];
        let charge = counted(row, actor);
        let class = match judge_alloc(&self.policy, actor, arena, words_of(bytes), charge) {
            AllocVerdict::Denied(rule) => return Err(Refused::Denied(rule)),
            AllocVerdict::TooLarge => return Err(Refused::TooLarge),
            AllocVerdict::Fits(class) => class,
        };
        let currents = &mut self.currents[usize::from(worker)];
        let current = currents[usize::from(arena)];
        let cores = &mut self.cores;
        let Some(block) = next_with_room(cores, current, worker, actor, arena, bytes) else {
            return Err(Refused::NoRoom);
        };
        count_more(
            row,
            actor,
            WORD_BYTES as u64 * u64::from(block_words(class)),
        );
        currents[usize::from(arena)] = block.core;
        Ok(block)
    }
}

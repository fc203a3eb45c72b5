//! Refill: the first core that is asked and has a segment of the arena gives it to the worker.

ghost use Rattle.std.specs.Prelude.{◌≡◌, ◌-◌, ◌<◌, ◌≤◌, ℕ, IfSome, IfNone, IfOk, Some, None, All};
ghost use Rattle.std.specs.Prelude.{find, length, vec_len, vec_capacity, slice_index};
ghost use Rattle.std.specs.List.{range_with_len};
ghost use Rattle.hg_machine.specs.declared.Answer.TheVariants as Answer;
ghost use Rattle.hg_machine.specs.declared.Event.TheVariants as Event;
ghost use Rattle.hg_bank.specs.Answers.{bank_refill_answer, core_of_segment};
ghost use Rattle.hg_bank.specs.Choosing.{IsCounted, IsServedIn};
ghost use Rattle.hg_bank.specs.Order.{round_from};
ghost use Rattle.hg_bank.specs.Requests.{refill, server, has_segment_in};
ghost use Rattle.hg_bank.specs.Sound.{IsSoundBank};
ghost use Rattle.hg_bank.specs.Steps.{BankStep};

use crate::bank::{Bank, BankSegment, MAX_CORES, TENANTS};
use crate::sums::{deposit, withdraw};
use hg_core::{Core, NoSegment};

/// The segment that the worker takes in the first core of a range that has one. The worker's sums
/// follow.
fn first_with_segment(
    cores: &mut Vec<Core>,
    row: &mut [u64; TENANTS],
    first: u16,
    past: u16,
    worker: u8,
    arena: u8,
    tenants: u8,
) -> Option<BankSegment>
    requires range { first ≤ past }
    requires past { past ≤ vec_len cores.old }
    requires few { vec_len cores.old ≤ MAX_CORES }
    requires tenants { tenants ≤ TENANTS }
    requires counted { IsCounted worker tenants row.old cores.old.items }
    ensures none { IfNone result (cores.new.items ≡ cores.old.items) }
    ensures served { IfSome result (λ segment. IsServedIn cores.old.items worker
        (Event.Refill arena) segment.core (Answer.Refilled segment.segment) cores.new.items) }
    ensures found { find (has_segment_in cores.old.items arena)
        (range_with_len first (past - first)) ≡ core_of_segment result }
    ensures counted { IsCounted worker tenants row.new cores.new.items }
    ensures room { vec_capacity cores.new ≡ vec_capacity cores.old }
{
    for number in first..past {
        let core = &mut cores[usize::from(number)];
        withdraw(row, core, worker, tenants);
        let refilled = core.refill(worker, arena);
        deposit(row, core, worker, tenants);
        if let Ok(segment) = refilled {
            return Some(BankSegment {
                core: number,
                segment,
            });
        }
    }
    None
}

/// The segment that the worker takes in the first core from the current one on that has one, round
/// and round.
fn next_with_segment(
    cores: &mut Vec<Core>,
    row: &mut [u64; TENANTS],
    current: u16,
    worker: u8,
    arena: u8,
    tenants: u8,
) -> Option<BankSegment>
    requires current { current < vec_len cores.old }
    requires few { vec_len cores.old ≤ MAX_CORES }
    requires tenants { tenants ≤ TENANTS }
    requires counted { IsCounted worker tenants row.old cores.old.items }
    ensures none { IfNone result (cores.new.items ≡ cores.old.items) }
    ensures served { IfSome result (λ segment. IsServedIn cores.old.items worker
        (Event.Refill arena) segment.core (Answer.Refilled segment.segment) cores.new.items) }
    ensures found { find (has_segment_in cores.old.items arena)
        (round_from current (length cores.old.items)) ≡ core_of_segment result }
    ensures counted { IsCounted worker tenants row.new cores.new.items }
    ensures room { vec_capacity cores.new ≡ vec_capacity cores.old }
{
    let count = cores.len() as u16;
    if let Some(segment) = first_with_segment(cores, row, current, count, worker, arena, tenants) {
        return Some(segment);
    }
    first_with_segment(cores, row, 0, current, worker, arena, tenants)
}

impl Bank {
    /// The worker takes the oldest orphan of the arena, or else the lowest fresh segment, of the
    /// first core that has one, asked from the current one of the worker and the arena on, round
    /// and round; it is current from then on. `NoSegment`, where no core has one, changes nothing.
    pub fn refill(&mut self, worker: u8, arena: u8) -> Result<BankSegment, NoSegment>
        requires worker { worker < self.old.policy.workers }
        ensures step { BankStep self.old worker (refill arena) (bank_refill_answer result)
            self.new }
        ensures core { IfOk result
            (λ segment. server self.old worker (refill arena) ≡ Some segment.core) }
        ensures kept { IsSoundBank self.new }
    {
        let tenants = self.policy.tenants();
        let row = &mut self.sums[usize::from(worker)];
        let currents = &mut self.currents[usize::from(worker)];
        let current = currents[usize::from(arena)];
        let cores = &mut self.cores;
        let Some(segment) = next_with_segment(cores, row, current, worker, arena, tenants) else {
            return Err(NoSegment);
        };
        currents[usize::from(arena)] = segment.core;
        Ok(segment)
    }
}

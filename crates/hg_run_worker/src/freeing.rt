//! Blocks are freed: of segments that the worker holds, and of others, by one exchange at their word.

ghost use Rattle.std.specs.Prelude.{◌≡◌, ◌≢◌, ℕ, ◌+◌, ◌<◌, true, false, [], ◌∷◌, length, map, Some, None};
ghost use Rattle.std.specs.Prelude.{IfErr, is_some};
ghost use Rattle.std.specs.Arc.{arc_value};
ghost use Rattle.hg_place.specs.Places.{number_of};
ghost use Rattle.hg_place.specs.declared.Right.TheVariants as Right;
ghost use Rattle.hg_machine.specs.declared.Answer.TheVariants as Answer;
ghost use Rattle.hg_machine.specs.declared.Event.TheVariants as Event;
ghost use Rattle.hg_heap.specs.Answers.{done_answer};
ghost use Rattle.hg_heap.specs.Held.{KeepsLists, is_held};
ghost use Rattle.hg_heap.specs.Keeping.{KeepsAll};
ghost use Rattle.hg_heap.specs.Reading.{use_denial};
ghost use Rattle.hg_heap.specs.Ties.{shown_at};
ghost use Rattle.hg_machine.specs.State.{State};
ghost use Rattle.hg_agreement.specs.Agreement.{Agrees};
ghost use Rattle.hg_roles.specs.Served.{places_of_policy};
ghost use Rattle.hg_run_table.specs.Calls.{IsWorkers, MayCall, log_in, view_by, with_call};
ghost use Rattle.hg_table.specs.Steps.{MayMakeBy, left_by, part_from};
ghost use Rattle.hg_table.specs.Told.{IsShownTo};
ghost use Rattle.hg_table.specs.View.{part_of};
ghost use Rattle.hg_run_worker.specs.AtWork.{HasCalledHere, HasCalledFree, HasOwn, IsReady};
ghost use Rattle.hg_run_worker.specs.AtWork.{KeepsHeap, KeepsRest, KeepsWith, number_in};
ghost use Rattle.hg_run_worker.specs.AtWork.{records_in};
ghost use Rattle.hg_run_worker.specs.Freeing.{away_refusal};

use crate::RunWorker;
use hg_decision::{Verdict, judge};
use hg_heap::{Refused, denied_or_elsewhere, done_answer, refused_answer};
use hg_machine::Answer;
use hg_place::{Actor, Handle, Place, Right};
use hg_policy::Policy;
use hg_run_table::{Asks, WorkerCall};
use std::marker::Brand;

/// A Free of a block that the worker doesn't hold. A caller picks it by `Brand`.
pub(crate) trait FreedAway {
    ghost use Rattle.std.specs.Prelude.{ℕ, Option};
    ghost use Rattle.hg_place.specs.declared.Handle.{Handle};
    ghost use Rattle.hg_machine.specs.declared.Event.{Event};
    ghost use Rattle.hg_machine.specs.declared.Rule.{Rule};

    ghost event: { Event };

    // The rule that denies it, by the word.
    ghost denial: { ℕ → Option Rule };

    // What is in hand where it is served.
    ghost freed: { Option Handle };
}

impl FreedAway for Brand {
    ghost use Rattle.std.specs.Prelude.{None};
    ghost use Rattle.hg_machine.specs.declared.Event.TheVariants.{Collect};

    ghost event = { Collect };

    ghost denial = { λ word. None };

    ghost freed = { None };
}

impl RunWorker {
    /// Frees a block, and logs the Free with its answer: `Done` where the worker holds the block's segment,
    /// and its place is home; else `Parted`, and the block is in hand, from where it has to be delivered.
    /// `Denied` by the word that its step finds; of a block that the worker doesn't hold `Busy` where no rule
    /// denies it and something is in hand. A refusal changes the log alone.
    pub fn free(&mut self, actor: Actor, handle: Handle) -> Answer
        requires ready { IsReady self.old }
        ensures freed { HasCalledFree actor handle result self.old self.new }
        ensures done { result ≡ Answer.Done
            → is_held number_in self.old.heap.segments handle.place.segment ≡ true }
        ensures parted { result ≡ Answer.Parted
            → (is_held number_in self.old.heap.segments handle.place.segment ≡ false)
            × (self.old.hand ≡ None) }
        ensures busy { result ≡ Answer.Busy
            → (is_held number_in self.old.heap.segments handle.place.segment ≡ false)
            × (self.old.hand ≢ None) }
        ensures away { is_held number_in self.old.heap.segments handle.place.segment ≡ false
            → self.new.heap ≡ self.old.heap }
        ensures refused { result ≢ Answer.Done → KeepsHeap self.old self.new }
    {
        if self.holds(handle.place.segment) {
            return done_answer(self.free_here(actor, handle));
        }
        self.free_away::<Brand>(actor, handle)
    }

    /// Frees a block of a segment that the worker holds, and logs the Free with its answer: `Denied` by
    /// the word that its step finds, which leaves all as it is.
    pub fn free_here(&mut self, actor: Actor, handle: Handle) -> Result<(), Refused>
        requires ready { IsReady self.old }
        requires held { is_held number_in self.old.heap.segments handle.place.segment ≡ true }
        ensures called { HasCalledHere (Event.Free actor handle)
            (done_answer result) self.old self.new }
        ensures kept { IfErr result (λ refused. KeepsAll number_in records_in self.old.heap.segments
            self.new.heap.segments) }
        ensures lists { IfErr result (λ refused. KeepsLists number_in self.old.heap.segments
            self.new.heap.segments) }
        ensures queues { IfErr result (λ refused. self.new.heap.queues ≡ self.old.heap.queues) }
    {
        self.free_asked::<Brand>(actor, handle)
    }

    /// The same, where the worker is asked this Free.
    fn free_asked<E: Asks>(&mut self, actor: Actor, handle: Handle) -> Result<(), Refused>
        requires ready { IsReady self.old }
        requires held { is_held number_in self.old.heap.segments handle.place.segment ≡ true }
        requires asked { E.asked ≡ (Event.Free actor handle ∷ []) ∷ [] }
        ensures called { HasCalledHere (Event.Free actor handle)
            (done_answer result) self.old self.new }
        ensures kept { IfErr result (λ refused. KeepsAll number_in records_in self.old.heap.segments
            self.new.heap.segments) }
        ensures lists { IfErr result (λ refused. KeepsLists number_in self.old.heap.segments
            self.new.heap.segments) }
        ensures queues { IfErr result (λ refused. self.new.heap.queues ≡ self.old.heap.queues) }
    {
        self.lend::<E>(handle.place.segment);
        let freed = self.heap.free_here(&self.policy, actor, handle);
        self.take_back(handle.place.segment);
        freed
    }

    /// Frees a block of a segment that the worker doesn't hold: a look refuses it, or else the exchange
    /// of the word that the look found decides.
    fn free_away<F: FreedAway>(&mut self, actor: Actor, handle: Handle) -> Answer
        requires ready { IsReady self.old }
        requires away { is_held number_in self.old.heap.segments handle.place.segment ≡ false }
        requires event { F.event ≡ Event.Free actor handle }
        requires denial { (word : ℕ) → F.denial word
            ≡ use_denial self.old.policy actor.0 Right.Free handle word }
        requires freed { F.freed ≡ Some handle }
        ensures freed { HasCalledFree actor handle result self.old self.new }
        ensures done { result ≢ Answer.Done }
        ensures parted { result ≡ Answer.Parted → self.old.hand ≡ None }
        ensures busy { result ≡ Answer.Busy → self.old.hand ≢ None }
        ensures heap { self.new.heap ≡ self.old.heap }
    {
        let place = handle.place;
        if self.policy.arena_of(place.segment).is_none() {
            self.refuse::<Brand>();
            return refused_answer(denied_or_elsewhere(&self.policy, actor, Right::Free, handle, 0));
        }
        self.add_own();
        let word = self.look_deciding::<Brand>(place);
        let refused = refusal_away(&self.policy, self.hand.is_some(), actor, handle, word);
        if let Some(refused) = refused {
            self.cut_own();
            return refused;
        }
        let found = self.part_deciding::<Brand>(place, word);
        self.cut_own();
        if found != word {
            return refused_answer(denied_or_elsewhere(
                &self.policy,
                actor,
                Right::Free,
                handle,
                found,
            ));
        }
        self.hand = Some(handle);
        Answer::Parted
    }

    /// Ends the life of the live word that is expected at a place, where it stands, by one exchange, which
    /// decides a call by the worker's part of the run, by the word that it finds. Segments stay.
    fn part_deciding<W: WorkerCall>(&mut self, place: Place, expected: u64) -> u64
        requires same { self.old.call.seat.table_id
            ≡ (arc_value self.old.table).table.shared.table_id }
        requires place { number_of place
            < places_of_policy (arc_value self.old.table).table.shared.key }
        requires may { MayMakeBy 0 (part_from expected) (number_of place + 1)
            self.old.call.seat.me.0.lives }
        requires worker { IsWorkers self.old.call W.before }
        requires tied { (word : ℕ) → IsShownTo (number_of place + 1) word self.old.call.seat.me.0.lives
            → MayCall (arc_value self.old.table).table.shared.key (number_of place) word
            (left_by (part_from expected) word) W.before (W.call word) (W.after word) }
        ensures same { self.new.call.seat.table_id ≡ self.old.call.seat.table_id }
        ensures shown { IsShownTo (number_of place + 1) result self.old.call.seat.me.0.lives }
        ensures one { self.old.call.seat.me.0.lives ≡ part_of self.old.call.seat.me.0.lives ∷ []
            → self.new.call.seat.me.0.lives ≡ part_of self.new.call.seat.me.0.lives ∷ [] }
        ensures log { log_in self.new.call ≡ with_call (log_in self.old.call) (W.call result) }
        ensures worker { IsWorkers self.new.call
            (view_by W.before (W.call result) (W.after result)) }
        ensures met { (m : State) × Agrees m W.before (shown_at place result) }
        ensures heap { self.new.heap ≡ self.old.heap }
        ensures rest { KeepsRest self.old self.new }
    {
        let table = &self.table;
        table.call_at_part::<W, Brand>(&mut self.call, place, expected)
    }

    /// What the worker knows of words and lives elsewhere stands beside its part of the run.
    fn add_own(&mut self)
        requires own { HasOwn (arc_value self.old.table).table.shared.table_id self.old.own }
        requires same { self.old.call.seat.table_id
            ≡ (arc_value self.old.table).table.shared.table_id }
        requires bare { self.old.call.seat.me.0.lives ≡ [] }
        ensures same { self.new.call.seat.table_id ≡ self.old.call.seat.table_id }
        ensures one { self.new.call.seat.me.0.lives ≡ part_of self.new.call.seat.me.0.lives ∷ [] }
        ensures run { self.new.call.seat.me.0.run ≡ self.old.call.seat.me.0.run }
        ensures heap { self.new.heap ≡ self.old.heap }
        ensures rest { KeepsWith self.old.hand self.old self.new }
    {
        let Some(own) = self.own.take() else {
            unreachable!()
        };
        let table = &self.table;
        table.join(&mut self.call, own);
    }

    /// It stands in its own seat again.
    fn cut_own(&mut self)
        requires same { self.old.call.seat.table_id
            ≡ (arc_value self.old.table).table.shared.table_id }
        requires one { self.old.call.seat.me.0.lives ≡ part_of self.old.call.seat.me.0.lives ∷ [] }
        requires run { length self.old.call.seat.me.0.run ≡ 1 }
        ensures same { self.new.call.seat.table_id ≡ self.old.call.seat.table_id }
        ensures bare { self.new.call.seat.me.0.lives ≡ [] }
        ensures run { self.new.call.seat.me.0.run ≡ self.old.call.seat.me.0.run }
        ensures own { HasOwn (arc_value self.old.table).table.shared.table_id self.new.own }
        ensures heap { self.new.heap ≡ self.old.heap }
        ensures rest { KeepsWith self.old.hand self.old self.new }
    {
        let table = &self.table;
        let own = table.split::<Brand>(&mut self.call);
        self.own = Some(own);
    }
}

/// Why the Free of a block that the worker doesn't hold is refused by a word, if it is: by a rule, or since
/// something is in hand.
fn refusal_away(
    policy: &Policy,
    busy: bool,
    actor: Actor,
    handle: Handle,
    word: u64,
) -> Option<Answer>
    ensures { result ≡ away_refusal busy (use_denial policy.now actor.0 Right.Free handle word) }
{
    match judge(policy, actor, Right::Free, handle, word) {
        Verdict::Denied(rule) => Some(Answer::Denied(rule)),
        Verdict::Allowed => { if busy { Some(Answer::Busy) } else { None } },
    }
}

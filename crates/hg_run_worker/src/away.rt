//! Blocks that the worker doesn't hold aren't reached: a call of them is refused by the word that a look
//! at it finds.

ghost use Rattle.std.specs.Prelude.{◌≡◌, ℕ, ◌+◌, ◌<◌, true, false, map, Option, Some};
ghost use Rattle.std.specs.Arc.{arc_value};
ghost use Rattle.hg_place.specs.Places.{number_of};
ghost use Rattle.hg_place.specs.Slots.{slot_in};
ghost use Rattle.hg_place.specs.declared.Right.TheVariants as Right;
ghost use Rattle.hg_machine.specs.declared.Event.TheVariants as Event;
ghost use Rattle.hg_machine.specs.State.{State};
ghost use Rattle.hg_agreement.specs.Agreement.{Agrees};
ghost use Rattle.hg_agreement.specs.Seen.{IsShownAt, IsShownFor, refusal_in};
ghost use Rattle.hg_agreement.specs.Views.{Shown};
ghost use Rattle.hg_frame.specs.SlotWords.{changes_word};
ghost use Rattle.hg_heap.specs.Answers.{away_answer, done_answer, list_denial, read_answer};
ghost use Rattle.hg_heap.specs.Answers.{refused_answer, row_answer};
ghost use Rattle.hg_heap.specs.Held.{is_held};
ghost use Rattle.hg_heap.specs.Reading.{use_denial};
ghost use Rattle.hg_heap.specs.Ties.{shown_at};
ghost use Rattle.hg_roles.specs.Deciding.{is_own};
ghost use Rattle.hg_roles.specs.Served.{places_of_policy};
ghost use Rattle.hg_run_table.specs.Calls.{IsWorkers, MayCall, log_in, view_by, with_call};
ghost use Rattle.hg_table.specs.Steps.{known_after, look};
ghost use Rattle.hg_table.specs.Told.{IsShownTo};
ghost use Rattle.hg_run_worker.specs.AtWork.{HasCalledHere, IsReady, KeepsRest, number_in};
ghost use Rattle.hg_run_worker.specs.AtWork.{view_in};

use crate::RunWorker;
use hg_heap::{Refused, denied_or_elsewhere};
use hg_machine::Row;
use hg_place::{Actor, Handle, Place, Right};
use hg_run_table::WorkerCall;
use std::marker::Brand;

/// A call that is refused, by the word that a look finds. A caller picks it by `Brand`.
pub(crate) trait RefusedCall {
    ghost use Rattle.std.specs.Prelude.{ℕ};
    ghost use Rattle.hg_machine.specs.declared.Event.{Event};
    ghost use Rattle.hg_machine.specs.declared.Answer.{Answer};

    ghost event: { Event };

    // The answer.
    ghost refused: { ℕ → Answer };
}

impl RefusedCall for Brand {
    ghost use Rattle.hg_machine.specs.declared.Event.TheVariants.{Collect};
    ghost use Rattle.hg_machine.specs.declared.Answer.TheVariants.{Done};

    ghost event = { Collect };

    ghost refused = { λ word. Done };
}

impl RunWorker {
    /// Reads a word of a block, and logs the Read with its answer. Of a segment that the worker doesn't
    /// hold it is `Denied` by the verdict on the word that a look finds, else `Elsewhere`.
    pub fn read(&mut self, actor: Actor, handle: Handle, index: u32) -> Result<u64, Refused>
        requires ready { IsReady self.old }
        ensures called { HasCalledHere (Event.Read actor handle index) (read_answer result)
            self.old self.new }
    {
        if self.holds(handle.place.segment) {
            return self.read_here(actor, handle, index);
        }
        Err(self.read_away::<Brand>(actor, handle, index))
    }

    /// Writes a word of a block, and logs the Write with its answer. Of a segment that the worker doesn't
    /// hold it is refused as a `read` is.
    pub fn write(
        &mut self,
        actor: Actor,
        handle: Handle,
        index: u32,
        value: u64,
    ) -> Result<(), Refused>
        requires ready { IsReady self.old }
        ensures called { HasCalledHere (Event.Write actor handle index value) (done_answer result)
            self.old self.new }
    {
        if self.holds(handle.place.segment) {
            return self.write_here(actor, handle, index, value);
        }
        Err(self.write_away::<Brand>(actor, handle, index, value))
    }

    /// The row of a live block; or none, where the word that a look finds denies it, or the worker doesn't
    /// hold its segment. That word is left in `shown`, 0 where the policy has no such place. Logs the Look
    /// with its answer: `Denied` by that word, else `Elsewhere`.
    pub fn look(&mut self, actor: Actor, place: Place, shown: &mut u64) -> Option<Row>
        requires ready { IsReady self.old }
        ensures called { HasCalledHere (Event.Look actor place)
            (row_answer result (list_denial self.old.policy actor place shown.new)) self.old self.new }
    {
        if self.holds(place.segment) {
            return self.look_here(actor, place, shown);
        }
        self.look_away::<Brand>(actor, place, shown);
        None
    }

    /// A Look at a place whose segment the worker doesn't hold.
    fn look_away<C: RefusedCall>(&mut self, actor: Actor, place: Place, shown: &mut u64)
        requires ready { IsReady self.old }
        requires away { is_held number_in self.old.heap.segments place.segment ≡ false }
        requires event { C.event ≡ Event.Look actor place }
        requires refused { (word : ℕ) → C.refused word
            ≡ away_answer (list_denial self.old.policy actor place word) }
        ensures called { HasCalledHere (Event.Look actor place)
            (away_answer (list_denial self.old.policy actor place shown.new)) self.old self.new }
    {
        *shown = self.refuse_away::<C>(place);
    }

    /// A Read of a block that the worker doesn't hold.
    fn read_away<C: RefusedCall>(&mut self, actor: Actor, handle: Handle, index: u32) -> Refused
        requires ready { IsReady self.old }
        requires away { is_held number_in self.old.heap.segments handle.place.segment ≡ false }
        requires event { C.event ≡ Event.Read actor handle index }
        requires refused { (word : ℕ) → C.refused word
            ≡ away_answer (use_denial self.old.policy actor.0 Right.Read handle word) }
        ensures called { HasCalledHere (Event.Read actor handle index) (refused_answer result)
            self.old self.new }
    {
        let word = self.refuse_away::<C>(handle.place);
        denied_or_elsewhere(&self.policy, actor, Right::Read, handle, word)
    }

    /// A Write of one.
    fn write_away<C: RefusedCall>(
        &mut self,
        actor: Actor,
        handle: Handle,
        index: u32,
        value: u64,
    ) -> Refused
        requires ready { IsReady self.old }
        requires away { is_held number_in self.old.heap.segments handle.place.segment ≡ false }
        requires event { C.event ≡ Event.Write actor handle index value }
        requires refused { (word : ℕ) → C.refused word
            ≡ away_answer (use_denial self.old.policy actor.0 Right.Write handle word) }
        ensures called { HasCalledHere (Event.Write actor handle index value)
            (refused_answer result) self.old self.new }
    {
        let word = self.refuse_away::<C>(handle.place);
        denied_or_elsewhere(&self.policy, actor, Right::Write, handle, word)
    }

    /// The word of a place, by one look, at which a call is refused that concerns it. 0 where the policy
    /// has no such place: then it is decided without a word.
    fn refuse_away<C: RefusedCall>(&mut self, place: Place) -> u64
        requires ready { IsReady self.old }
        requires own { is_own C.event ≡ true }
        requires about { (shown : Option Shown) → IsShownAt (view_in self.old) place shown
            → IsShownFor (view_in self.old) C.event shown }
        requires refused { (word : ℕ) → refusal_in (view_in self.old) (slot_in word) C.event
            ≡ Some (C.refused word) }
        requires unchanged { (word other : ℕ)
            → changes_word C.event (C.refused word) other ≡ false }
        ensures called { HasCalledHere C.event (C.refused result) self.old self.new }
        ensures policy { self.new.policy ≡ self.old.policy }
    {
        if self.policy.arena_of(place.segment).is_none() {
            self.call_alone::<Brand>();
            return 0;
        }
        self.look_deciding::<Brand>(place)
    }

    /// A look at a place decides a call, by the worker's part of the run. Segments stay.
    pub(crate) fn look_deciding<W: WorkerCall>(&mut self, place: Place) -> u64
        requires same { self.old.call.seat.table_id
            ≡ (arc_value self.old.table).table.shared.table_id }
        requires place { number_of place
            < places_of_policy (arc_value self.old.table).table.shared.key }
        requires worker { IsWorkers self.old.call W.before }
        requires tied { (word : ℕ) → MayCall (arc_value self.old.table).table.shared.key
            (number_of place) word word W.before (W.call word) (W.after word) }
        ensures same { self.new.call.seat.table_id ≡ self.old.call.seat.table_id }
        ensures shown { IsShownTo (number_of place + 1) result self.old.call.seat.me.0.lives }
        ensures lives { self.new.call.seat.me.0.lives
            ≡ map (known_after look (number_of place + 1) result) self.old.call.seat.me.0.lives }
        ensures log { log_in self.new.call ≡ with_call (log_in self.old.call) (W.call result) }
        ensures worker { IsWorkers self.new.call
            (view_by W.before (W.call result) (W.after result)) }
        ensures met { (m : State) × Agrees m W.before (shown_at place result) }
        ensures heap { self.new.heap ≡ self.old.heap }
        ensures rest { KeepsRest self.old self.new }
    {
        let table = &self.table;
        table.call_at_look::<W>(&mut self.call, place)
    }
}

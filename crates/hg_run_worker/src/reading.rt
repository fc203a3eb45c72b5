//! Words of blocks that the worker holds.

ghost use Rattle.std.specs.Prelude.{◌≡◌, true, [], ◌∷◌, IfNone, IfSome, None, Some};
ghost use Rattle.hg_machine.specs.declared.Rule.{Rule};
ghost use Rattle.hg_machine.specs.declared.Event.TheVariants as Event;
ghost use Rattle.hg_heap.specs.Answers.{done_answer, list_denial, read_answer, row_answer};
ghost use Rattle.hg_heap.specs.Held.{KeepsLists, is_held};
ghost use Rattle.hg_heap.specs.Keeping.{KeepsAll};
ghost use Rattle.hg_run_worker.specs.AtWork.{HasCalledHere, IsReady, number_in, records_in};

use crate::RunWorker;
use hg_heap::Refused;
use hg_machine::Row;
use hg_place::{Actor, Handle, Place};
use hg_run_table::Asks;
use std::marker::Brand;

impl RunWorker {
    /// Reads a word of a block of a segment that the worker holds, and logs the Read with its answer:
    /// `Denied` by the word that its step finds, `OutOfBlock` where the block has no such word.
    pub fn read_here(&mut self, actor: Actor, handle: Handle, index: u32) -> Result<u64, Refused>
        requires ready { IsReady self.old }
        requires held { is_held number_in self.old.heap.segments handle.place.segment ≡ true }
        ensures called { HasCalledHere (Event.Read actor handle index)
            (read_answer result) self.old self.new }
        ensures kept { KeepsAll number_in records_in self.old.heap.segments
            self.new.heap.segments }
        ensures lists { KeepsLists number_in self.old.heap.segments self.new.heap.segments }
        ensures queues { self.new.heap.queues ≡ self.old.heap.queues }
    {
        self.read_asked::<Brand>(actor, handle, index)
    }

    /// The same, where the worker is asked this Read.
    fn read_asked<E: Asks>(
        &mut self,
        actor: Actor,
        handle: Handle,
        index: u32,
    ) -> Result<u64, Refused>
        requires ready { IsReady self.old }
        requires held { is_held number_in self.old.heap.segments handle.place.segment ≡ true }
        requires asked { E.asked ≡ (Event.Read actor handle index ∷ []) ∷ [] }
        ensures called { HasCalledHere (Event.Read actor handle index)
            (read_answer result) self.old self.new }
        ensures kept { KeepsAll number_in records_in self.old.heap.segments
            self.new.heap.segments }
        ensures lists { KeepsLists number_in self.old.heap.segments self.new.heap.segments }
        ensures queues { self.new.heap.queues ≡ self.old.heap.queues }
    {
        self.lend::<E>(handle.place.segment);
        let value = self.heap.read(&self.policy, actor, handle, index);
        self.take_back(handle.place.segment);
        value
    }

    /// Writes a word of a block of a segment that the worker holds, and logs the Write with its answer,
    /// which is refused as a read is; a refusal leaves the words.
    pub fn write_here(
        &mut self,
        actor: Actor,
        handle: Handle,
        index: u32,
        value: u64,
    ) -> Result<(), Refused>
        requires ready { IsReady self.old }
        requires held { is_held number_in self.old.heap.segments handle.place.segment ≡ true }
        ensures called { HasCalledHere (Event.Write actor handle index value)
            (done_answer result) self.old self.new }
        ensures lists { KeepsLists number_in self.old.heap.segments self.new.heap.segments }
        ensures queues { self.new.heap.queues ≡ self.old.heap.queues }
    {
        self.write_asked::<Brand>(actor, handle, index, value)
    }

    /// The same, where the worker is asked this Write.
    fn write_asked<E: Asks>(
        &mut self,
        actor: Actor,
        handle: Handle,
        index: u32,
        value: u64,
    ) -> Result<(), Refused>
        requires ready { IsReady self.old }
        requires held { is_held number_in self.old.heap.segments handle.place.segment ≡ true }
        requires asked { E.asked ≡ (Event.Write actor handle index value ∷ []) ∷ [] }
        ensures called { HasCalledHere (Event.Write actor handle index value)
            (done_answer result) self.old self.new }
        ensures lists { KeepsLists number_in self.old.heap.segments self.new.heap.segments }
        ensures queues { self.new.heap.queues ≡ self.old.heap.queues }
    {
        self.lend::<E>(handle.place.segment);
        let written = self.heap.write(&self.policy, actor, handle, index, value);
        self.take_back(handle.place.segment);
        written
    }

    /// The row of a live block of a segment that the worker holds; or none, where the word that its step
    /// finds denies it. That word is left in `shown`. Logs the Look with its answer.
    pub fn look_here(&mut self, actor: Actor, place: Place, shown: &mut u64) -> Option<Row>
        requires ready { IsReady self.old }
        requires held { is_held number_in self.old.heap.segments place.segment ≡ true }
        ensures called { HasCalledHere (Event.Look actor place)
            (row_answer result (list_denial self.old.policy actor place shown.new)) self.old self.new }
        ensures denied { IfNone result ((rule : Rule)
            × (list_denial self.old.policy actor place shown.new ≡ Some rule)) }
        ensures allowed { IfSome result (λ row.
            list_denial self.old.policy actor place shown.new ≡ None) }
        ensures kept { KeepsAll number_in records_in self.old.heap.segments
            self.new.heap.segments }
        ensures lists { KeepsLists number_in self.old.heap.segments self.new.heap.segments }
        ensures queues { self.new.heap.queues ≡ self.old.heap.queues }
    {
        self.look_asked::<Brand>(actor, place, shown)
    }

    /// The same, where the worker is asked this Look.
    fn look_asked<E: Asks>(&mut self, actor: Actor, place: Place, shown: &mut u64) -> Option<Row>
        requires ready { IsReady self.old }
        requires held { is_held number_in self.old.heap.segments place.segment ≡ true }
        requires asked { E.asked ≡ (Event.Look actor place ∷ []) ∷ [] }
        ensures called { HasCalledHere (Event.Look actor place)
            (row_answer result (list_denial self.old.policy actor place shown.new)) self.old self.new }
        ensures denied { IfNone result ((rule : Rule)
            × (list_denial self.old.policy actor place shown.new ≡ Some rule)) }
        ensures allowed { IfSome result (λ row.
            list_denial self.old.policy actor place shown.new ≡ None) }
        ensures kept { KeepsAll number_in records_in self.old.heap.segments
            self.new.heap.segments }
        ensures lists { KeepsLists number_in self.old.heap.segments self.new.heap.segments }
        ensures queues { self.new.heap.queues ≡ self.old.heap.queues }
    {
        self.lend::<E>(place.segment);
        let row = self.heap.look(&self.policy, actor, place, shown);
        self.take_back(place.segment);
        row
    }
}

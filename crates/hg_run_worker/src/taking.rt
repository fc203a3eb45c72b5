//! What was sent to a segment comes home.

ghost use Rattle.std.specs.Prelude.{◌≡◌, [], true, false, length};
ghost use Rattle.std.specs.Arc.{arc_value};
ghost use Rattle.hg_machine.specs.declared.Event.TheVariants as Event;
ghost use Rattle.hg_heap.specs.Held.{KeepsLists, is_held};
ghost use Rattle.hg_heap.specs.Homecoming.{HaveComeHome};
ghost use Rattle.hg_remote.specs.Remote.{contents};
ghost use Rattle.hg_roles.specs.Roles.{of_remote};
ghost use Rattle.hg_run_worker.specs.AtWork.{AreSeated, HasCalled, IsReady, KeepsRest, number_in};
ghost use Rattle.hg_run_worker.specs.AtWork.{records_in, view_in};
ghost use Rattle.hg_run_worker.specs.Lent.{IsLentQuietly};
ghost use Rattle.hg_run_worker.specs.Lists.{IsListOf, left_list, left_places, numbers_of};
ghost use Rattle.hg_run_worker.specs.Lists.{take_answer, taken_view};

use crate::{RunList, RunWorker};
use hg_machine::Answer;
use hg_run_table::{OtherPart, OwnCall};
use std::marker::Brand;

impl RunWorker {
    /// Takes in all places of this list, which are of a segment that the worker holds: they are home then, and
    /// the list has none. `Taken`, with how many they were; `NotHeld` where the segment isn't held, and then
    /// nothing changes but the log. Logs the Take with its answer.
    pub fn take(&mut self, list: &mut RunList) -> Answer
        requires ready { IsReady self.old }
        requires list { IsListOf (arc_value self.old.table).table.shared.table_id list.old }
        ensures called { HasCalled (Event.Take list.old.segment) result self.old self.new }
        ensures answered { result ≡ take_answer
            (is_held number_in self.old.heap.segments list.old.segment)
            (length (contents list.old.list)) }
        ensures list { IsListOf (arc_value self.old.table).table.shared.table_id list.new }
        ensures left { list.new.list ≡ left_list
            (is_held number_in self.old.heap.segments list.old.segment) list.old.list }
        ensures segment { list.new.segment ≡ list.old.segment }
        ensures home { is_held number_in self.old.heap.segments list.old.segment ≡ true
            → HaveComeHome number_in records_in list.old.segment (contents list.old.list)
            self.old.heap.segments self.new.heap.segments (length (contents list.old.list)) }
        ensures unheld { is_held number_in self.old.heap.segments list.old.segment ≡ false
            → self.new.heap ≡ self.old.heap }
    {
        self.take_by::<Brand, Brand>(list)
    }

    /// The same, where it is said what the worker and the list have, and what each has then.
    fn take_by<W: OwnCall, P: OtherPart>(&mut self, list: &mut RunList) -> Answer
        requires ready { IsReady self.old }
        requires list { IsListOf (arc_value self.old.table).table.shared.table_id list.old }
        requires before { W.before ≡ view_in self.old }
        requires call { W.call ≡ (
          Event.Take list.old.segment,
          take_answer (is_held number_in self.old.heap.segments list.old.segment)
              (length (contents list.old.list)),
        ) }
        requires after { W.after
            ≡ taken_view (is_held number_in self.old.heap.segments list.old.segment)
            (view_in self.old) (numbers_of list.old.segment list.old.list) }
        requires role { P.role ≡ of_remote list.old.segment
            (numbers_of list.old.segment list.old.list) }
        requires left { P.left ≡ of_remote list.old.segment
            (left_places (is_held number_in self.old.heap.segments list.old.segment)
            (numbers_of list.old.segment list.old.list)) }
        ensures called { HasCalled (Event.Take list.old.segment) result self.old self.new }
        ensures answered { result ≡ take_answer
            (is_held number_in self.old.heap.segments list.old.segment)
            (length (contents list.old.list)) }
        ensures list { IsListOf (arc_value self.old.table).table.shared.table_id list.new }
        ensures left { list.new.list ≡ left_list
            (is_held number_in self.old.heap.segments list.old.segment) list.old.list }
        ensures segment { list.new.segment ≡ list.old.segment }
        ensures home { is_held number_in self.old.heap.segments list.old.segment ≡ true
            → HaveComeHome number_in records_in list.old.segment (contents list.old.list)
            self.old.heap.segments self.new.heap.segments (length (contents list.old.list)) }
        ensures unheld { is_held number_in self.old.heap.segments list.old.segment ≡ false
            → self.new.heap ≡ self.old.heap }
    {
        let segment = list.segment;
        if !self.holds(segment) {
            self.refuse::<W>();
            return Answer::NotHeld;
        }
        // these hand out what a heap keeps, and how the places of a list stand
        self.heap.settled();
        let _is_empty = list.list.is_empty();
        self.call_with::<W, P>(&mut list.call);
        self.lend_quietly(segment);
        let count = self.heap.take(segment, &mut list.list);
        self.take_back(segment);
        Answer::Taken(count)
    }

    /// Lends the worker's part, which is asked nothing, to a segment that it holds.
    fn lend_quietly(&mut self, segment: u8)
        requires same { self.old.call.seat.table_id
            ≡ (arc_value self.old.table).table.shared.table_id }
        requires bare { self.old.call.seat.me.0.lives ≡ [] }
        requires one { length self.old.call.seat.me.0.run ≡ 1 }
        requires seated { AreSeated (arc_value self.old.table).table.shared.table_id
            self.old.heap.segments }
        requires held { is_held number_in self.old.heap.segments segment ≡ true }
        ensures lent { IsLentQuietly segment self.old.heap.segments self.old.call
            self.new.heap.segments }
        ensures lists { KeepsLists number_in self.old.heap.segments self.new.heap.segments }
        ensures queues { self.new.heap.queues ≡ self.old.heap.queues }
        ensures rest { KeepsRest self.old self.new }
    {
        let table = &self.table;
        let mut call = table.split::<Brand>(&mut self.call);
        table.ask::<Brand>(&mut call);
        self.heap.lend(segment, call);
    }
}

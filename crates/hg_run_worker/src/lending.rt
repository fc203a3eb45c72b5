//! For a call the worker's part of the run is lent to a segment.

ghost use Rattle.std.specs.Prelude.{◌≡◌, ◌≤◌, true, length, Some};
ghost use Rattle.std.specs.Arc.{arc_value};
ghost use Rattle.hg_segment.specs.Kept.{Kept};
ghost use Rattle.hg_heap.specs.Held.{is_held, segment_in, KeepsLists};
ghost use Rattle.hg_run_table.specs.declared.segment.RunSegment.{RunSegment};
ghost use Rattle.hg_run_table.specs.Segments.{HasLoan};
ghost use Rattle.hg_run_worker.specs.AtWork.{IsReady, KeepsRest, number_in};
ghost use Rattle.hg_run_worker.specs.Lent.{IsLent, HasComeBack};

use crate::RunWorker;
use hg_run_table::Asks;
use std::marker::Brand;

impl RunWorker {
    /// Lends the worker's part, which is asked what the caller picks, to a segment that it holds.
    pub(crate) fn lend<E: Asks>(&mut self, segment: u8)
        requires ready { IsReady self.old }
        requires held { is_held number_in self.old.heap.segments segment ≡ true }
        ensures lent { IsLent (arc_value self.old.table).table.shared.table_id self.old.policy
            self.old.number self.old.hand E.asked segment self.old.heap.segments self.old.call
            self.new.heap.segments }
        ensures lists { KeepsLists number_in self.old.heap.segments self.new.heap.segments }
        ensures queues { self.new.heap.queues ≡ self.old.heap.queues }
        ensures rest { KeepsRest self.old self.new }
    {
        self.heap.settled();
        let table = &self.table;
        let mut call = table.split::<Brand>(&mut self.call);
        table.ask::<E>(&mut call);
        self.heap.lend(segment, call);
    }

    /// It comes back.
    pub(crate) fn take_back(&mut self, segment: u8)
        requires held { is_held number_in self.old.heap.segments segment ≡ true }
        requires loan { (one : Kept RunSegment)
            → segment_in number_in self.old.heap.segments segment ≡ Some one
            → HasLoan one.slots.seat }
        ensures back { HasComeBack segment self.old.heap.segments self.new.call
            self.new.heap.segments }
        ensures lists { KeepsLists number_in self.old.heap.segments self.new.heap.segments }
        ensures queues { self.new.heap.queues ≡ self.old.heap.queues }
        ensures rest { KeepsRest self.old self.new }
    {
        self.call = self.heap.give_back(segment);
    }
}

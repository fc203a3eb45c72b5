//! Pages without open places lose their class.

ghost use Rattle.std.specs.Prelude.{◌≡◌, [], ◌∷◌};
ghost use Rattle.hg_machine.specs.declared.Answer.TheVariants as Answer;
ghost use Rattle.hg_machine.specs.declared.Event.TheVariants as Event;
ghost use Rattle.hg_heap.specs.Idle.{Collected, IdleAreOut, idle_pages};
ghost use Rattle.hg_run_worker.specs.AtWork.{HasCalledHere, IsReady, number_in, records_in, view_in};

use crate::RunWorker;
use hg_run_table::OwnCall;
use std::marker::Brand;

impl RunWorker {
    /// Takes the class from each page of the worker's segments that has one and no open place, and
    /// tells from how many. Logs the Collect with its answer.
    pub fn collect(&mut self) -> u32
        requires ready { IsReady self.old }
        ensures called { HasCalledHere Event.Collect (Answer.Pages result) self.old self.new }
        ensures pages { result ≡ idle_pages number_in records_in self.old.heap.segments }
        ensures collected { Collected number_in records_in self.old.heap self.new.heap }
        ensures out { IdleAreOut number_in records_in self.old.heap self.new.heap }
    {
        self.collect_by::<Brand>()
    }

    /// The same, where it is said what the worker has, and the call.
    fn collect_by<W: OwnCall>(&mut self) -> u32
        requires ready { IsReady self.old }
        requires before { W.before ≡ view_in self.old }
        requires call { W.call ≡ (
          Event.Collect,
          Answer.Pages (idle_pages number_in records_in self.old.heap.segments),
        ) }
        ensures called { HasCalledHere Event.Collect (Answer.Pages result) self.old self.new }
        ensures pages { result ≡ idle_pages number_in records_in self.old.heap.segments }
        ensures collected { Collected number_in records_in self.old.heap self.new.heap }
        ensures out { IdleAreOut number_in records_in self.old.heap self.new.heap }
    {
        let pages = self.heap.collect();
        self.call_alone::<Brand>();
        pages
    }
}

//! What was freed elsewhere is sent to the segment that it is of.

ghost use Rattle.std.specs.Prelude.{◌≡◌, None};
ghost use Rattle.std.specs.Arc.{arc_value};
ghost use Rattle.hg_machine.specs.declared.Event.TheVariants as Event;
ghost use Rattle.hg_roles.specs.Roles.{of_remote};
ghost use Rattle.hg_run_worker.specs.AtWork.{HasCalledLeaving, IsReady, view_in, worker_view};
ghost use Rattle.hg_run_worker.specs.Lists.{IsForHand, IsListOf, deliver_answer, numbers_of};
ghost use Rattle.hg_run_worker.specs.Lists.{with_sent, with_place};

use crate::{RunList, RunWorker};
use hg_machine::Answer;
use hg_run_table::{OtherPart, OwnCall};
use std::marker::Brand;

impl RunWorker {
    /// Sends the block in hand, whose life is over, to the remote list of its segment: `Done`, and nothing is
    /// in hand. `NothingInHand` where nothing was, and then nothing changes but the log. Logs the Deliver with
    /// its answer.
    pub fn deliver(&mut self, list: &mut RunList) -> Answer
        requires ready { IsReady self.old }
        requires list { IsListOf (arc_value self.old.table).table.shared.table_id list.old }
        requires home { IsForHand self.old.hand list.old.segment }
        ensures called { HasCalledLeaving None Event.Deliver result self.old self.new }
        ensures answered { result ≡ deliver_answer self.old.hand }
        ensures list { IsListOf (arc_value self.old.table).table.shared.table_id list.new }
        ensures sent { list.new.list ≡ with_sent self.old.hand list.old.list }
        ensures segment { list.new.segment ≡ list.old.segment }
        ensures heap { self.new.heap ≡ self.old.heap }
    {
        self.deliver_by::<Brand, Brand>(list)
    }

    /// The same, where it is said what the worker and the list have, and what each has then.
    fn deliver_by<W: OwnCall, P: OtherPart>(&mut self, list: &mut RunList) -> Answer
        requires ready { IsReady self.old }
        requires list { IsListOf (arc_value self.old.table).table.shared.table_id list.old }
        requires home { IsForHand self.old.hand list.old.segment }
        requires before { W.before ≡ view_in self.old }
        requires call { W.call ≡ (Event.Deliver, deliver_answer self.old.hand) }
        requires after { W.after
            ≡ worker_view self.old.policy self.old.number None self.old.heap.segments }
        requires role { P.role ≡ of_remote list.old.segment
            (numbers_of list.old.segment list.old.list) }
        requires left { P.left ≡ of_remote list.old.segment
            (with_place self.old.hand (numbers_of list.old.segment list.old.list)) }
        ensures called { HasCalledLeaving None Event.Deliver result self.old self.new }
        ensures answered { result ≡ deliver_answer self.old.hand }
        ensures list { IsListOf (arc_value self.old.table).table.shared.table_id list.new }
        ensures sent { list.new.list ≡ with_sent self.old.hand list.old.list }
        ensures segment { list.new.segment ≡ list.old.segment }
        ensures heap { self.new.heap ≡ self.old.heap }
    {
        let Some(handle) = self.hand else {
            self.refuse::<W>();
            return Answer::NothingInHand;
        };
        self.call_with::<W, P>(&mut list.call);
        if list
            .list
            .push(handle.place.page, handle.place.index)
            .is_err()
        {
            unreachable!()
        }
        self.hand = None;
        Answer::Done
    }
}

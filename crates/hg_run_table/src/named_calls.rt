//! The calls that concern a worker and a remote list, and a worker and the pool.

ghost use Rattle.std.specs.Prelude.{◌≡◌, ◌<◌, true, [], ◌∷◌, ◌++◌, length, Some, None};
ghost use Rattle.hg_place.specs.Places.{segment_of};
ghost use Rattle.hg_machine.specs.declared.Answer.TheVariants as Answer;
ghost use Rattle.hg_machine.specs.declared.Event.TheVariants as Event;
ghost use Rattle.hg_roles.specs.Joined.{come_home, emptied};
ghost use Rattle.hg_roles.specs.Pooling.{let_go, put_back, next_in, taken_up, without};
ghost use Rattle.hg_roles.specs.Roles.{of_remote, of_pool};
ghost use Rattle.hg_run_table.specs.Calls.{IsWorkers, log_in};
ghost use Rattle.hg_run_table.specs.JoinedCalls.{IsOthers};

use crate::call::{HandAndList, WorkerAndList, WorkerAndPool};
use crate::table::{RunSeat, RunTable};
use std::marker::Brand;

impl RunTable {
    /// A Take of a segment that the worker holds: all places of its list come home, and are
    /// counted.
    pub fn take_list<L: WorkerAndList>(&self, seat: &mut RunSeat, list: RunSeat) -> RunSeat
        requires same { seat.old.seat.table_id ≡ self.now.table.shared.table_id }
        requires of_it { list.seat.table_id ≡ self.now.table.shared.table_id }
        requires worker { IsWorkers seat.old L.before }
        requires other { IsOthers list (of_remote L.segment L.sent) }
        requires bare { list.seat.me.0.lives ≡ [] }
        requires below { L.before.worker < self.now.table.shared.key.workers }
        requires held { L.before.holds L.segment ≡ true }
        ensures same { seat.new.seat.table_id ≡ seat.old.seat.table_id }
        ensures of_it { result.seat.table_id ≡ seat.old.seat.table_id }
        ensures lives { seat.new.seat.me.0.lives ≡ seat.old.seat.me.0.lives }
        ensures bare { result.seat.me.0.lives ≡ [] }
        ensures log { log_in seat.new ≡ log_in seat.old ++ (Event.Take L.segment, Answer.Taken (length L.sent)) ∷ [] }
        ensures worker { IsWorkers seat.new (come_home L.before L.sent) }
        ensures other { IsOthers result (of_remote L.segment []) }
    {
        self.call_together::<Brand, Brand>(seat, list)
    }

    /// A Deliver of the place in hand, to the list of its segment.
    pub fn deliver<H: HandAndList>(&self, seat: &mut RunSeat, list: RunSeat) -> RunSeat
        requires same { seat.old.seat.table_id ≡ self.now.table.shared.table_id }
        requires of_it { list.seat.table_id ≡ self.now.table.shared.table_id }
        requires worker { IsWorkers seat.old H.before }
        requires other { IsOthers list (of_remote (segment_of H.place) H.sent) }
        requires bare { list.seat.me.0.lives ≡ [] }
        requires below { H.before.worker < self.now.table.shared.key.workers }
        requires hand { H.before.hand ≡ Some H.place }
        ensures same { seat.new.seat.table_id ≡ seat.old.seat.table_id }
        ensures of_it { result.seat.table_id ≡ seat.old.seat.table_id }
        ensures lives { seat.new.seat.me.0.lives ≡ seat.old.seat.me.0.lives }
        ensures bare { result.seat.me.0.lives ≡ [] }
        ensures log { log_in seat.new ≡ log_in seat.old ++ (Event.Deliver, Answer.Done) ∷ [] }
        ensures worker { IsWorkers seat.new (emptied H.before) }
        ensures other { IsOthers result (of_remote (segment_of H.place) (H.place ∷ H.sent)) }
    {
        self.call_together::<Brand, Brand>(seat, list)
    }

    /// An Abandon of a segment that the worker holds: it is the last orphan then.
    pub fn abandon<P: WorkerAndPool>(&self, seat: &mut RunSeat, pool: RunSeat) -> RunSeat
        requires same { seat.old.seat.table_id ≡ self.now.table.shared.table_id }
        requires of_it { pool.seat.table_id ≡ self.now.table.shared.table_id }
        requires worker { IsWorkers seat.old P.before }
        requires other { IsOthers pool (of_pool P.pooled) }
        requires bare { pool.seat.me.0.lives ≡ [] }
        requires below { P.before.worker < self.now.table.shared.key.workers }
        requires held { P.before.holds P.segment ≡ true }
        ensures same { seat.new.seat.table_id ≡ seat.old.seat.table_id }
        ensures of_it { result.seat.table_id ≡ seat.old.seat.table_id }
        ensures lives { seat.new.seat.me.0.lives ≡ seat.old.seat.me.0.lives }
        ensures bare { result.seat.me.0.lives ≡ [] }
        ensures log { log_in seat.new ≡ log_in seat.old ++ (Event.Abandon P.segment, Answer.Done) ∷ [] }
        ensures worker { IsWorkers seat.new (let_go P.before P.segment) }
        ensures other { IsOthers result (of_pool (put_back P.pooled P.before P.segment)) }
    {
        self.call_together::<Brand, Brand>(seat, pool)
    }

    /// A Refill that takes the segment which the pool has next for the arena.
    pub fn refill<P: WorkerAndPool>(&self, seat: &mut RunSeat, pool: RunSeat) -> RunSeat
        requires same { seat.old.seat.table_id ≡ self.now.table.shared.table_id }
        requires of_it { pool.seat.table_id ≡ self.now.table.shared.table_id }
        requires worker { IsWorkers seat.old P.before }
        requires other { IsOthers pool (of_pool P.pooled) }
        requires bare { pool.seat.me.0.lives ≡ [] }
        requires below { P.before.worker < self.now.table.shared.key.workers }
        requires next { next_in self.now.table.shared.key P.arena P.pooled ≡ Some P.segment }
        ensures same { seat.new.seat.table_id ≡ seat.old.seat.table_id }
        ensures of_it { result.seat.table_id ≡ seat.old.seat.table_id }
        ensures lives { seat.new.seat.me.0.lives ≡ seat.old.seat.me.0.lives }
        ensures bare { result.seat.me.0.lives ≡ [] }
        ensures log { log_in seat.new ≡ log_in seat.old ++ (Event.Refill P.arena, Answer.Refilled P.segment) ∷ [] }
        ensures worker { IsWorkers seat.new (taken_up P.before P.pooled P.segment) }
        ensures other { IsOthers result (of_pool (without P.pooled P.segment)) }
    {
        self.call_together::<Brand, Brand>(seat, pool)
    }

    /// And one that finds none.
    pub fn refill_nothing<P: WorkerAndPool>(&self, seat: &mut RunSeat, pool: RunSeat) -> RunSeat
        requires same { seat.old.seat.table_id ≡ self.now.table.shared.table_id }
        requires of_it { pool.seat.table_id ≡ self.now.table.shared.table_id }
        requires worker { IsWorkers seat.old P.before }
        requires other { IsOthers pool (of_pool P.pooled) }
        requires bare { pool.seat.me.0.lives ≡ [] }
        requires below { P.before.worker < self.now.table.shared.key.workers }
        requires none { next_in self.now.table.shared.key P.arena P.pooled ≡ None }
        ensures same { seat.new.seat.table_id ≡ seat.old.seat.table_id }
        ensures of_it { result.seat.table_id ≡ seat.old.seat.table_id }
        ensures lives { seat.new.seat.me.0.lives ≡ seat.old.seat.me.0.lives }
        ensures bare { result.seat.me.0.lives ≡ [] }
        ensures log { log_in seat.new ≡ log_in seat.old ++ (Event.Refill P.arena, Answer.NoSegment) ∷ [] }
        ensures worker { IsWorkers seat.new P.before }
        ensures other { IsOthers result (of_pool P.pooled) }
    {
        self.call_together::<Brand, Brand>(seat, pool)
    }
}

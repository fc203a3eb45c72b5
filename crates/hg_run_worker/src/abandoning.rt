//! A worker gives a segment to the pool.

ghost use Rattle.std.specs.Prelude.{◌≡◌, ◌≢◌, ℕ, false, [], ◌∷◌};
ghost use Rattle.std.specs.Arc.{arc_value};
ghost use Rattle.hg_machine.specs.declared.Event.TheVariants as Event;
ghost use Rattle.hg_heap.specs.Held.{is_held, segment_in};
ghost use Rattle.hg_heap.specs.Releasing.{without_pages, without_segment};
ghost use Rattle.hg_roles.specs.Roles.{of_pool};
ghost use Rattle.hg_run_worker.specs.AtWork.{HasCalled, IsReady, number_in, view_in, worker_view};
ghost use Rattle.hg_run_worker.specs.Pools.{IsPoolOf, abandon_answer, pool_part, with_orphan};

use crate::deciding::never_twice;
use crate::{RunPool, RunWorker};
use hg_run_table::{OtherPart, OwnCall};
use std::marker::Brand;

impl RunWorker {
    /// Gives a segment that the worker holds to the pool, of which it is the last orphan then, with its
    /// blocks. False where it isn't held, and then nothing changes but the log. Logs the Abandon with
    /// its answer.
    pub fn abandon(&mut self, segment: u8, pool: &mut RunPool) -> bool
        requires ready { IsReady self.old }
        requires pool { IsPoolOf (arc_value self.old.table).table.shared.table_id self.old.policy
            pool.old }
        ensures called { HasCalled (Event.Abandon segment)
            (abandon_answer result) self.old self.new }
        ensures pool { IsPoolOf (arc_value self.old.table).table.shared.table_id self.old.policy
            pool.new }
        ensures held { result ≡ is_held number_in self.old.heap.segments segment }
        ensures left { self.new.heap.segments
            ≡ without_segment number_in self.old.heap.segments segment }
        ensures queues { self.new.heap.queues ≡ without_pages segment self.old.heap.queues }
        ensures put { pool.new.pool ≡ with_orphan
            (segment_in number_in self.old.heap.segments segment) pool.old.pool }
    {
        self.abandon_by::<Brand, Brand>(segment, pool)
    }

    /// The same, where it is said what the worker and the pool have, and what each has then.
    fn abandon_by<W: OwnCall, P: OtherPart>(&mut self, segment: u8, pool: &mut RunPool) -> bool
        requires ready { IsReady self.old }
        requires pool { IsPoolOf (arc_value self.old.table).table.shared.table_id self.old.policy
            pool.old }
        requires before { W.before ≡ view_in self.old }
        requires call { W.call ≡ (
          Event.Abandon segment,
          abandon_answer (is_held number_in self.old.heap.segments segment),
        ) }
        requires after { W.after ≡ worker_view self.old.policy self.old.number self.old.hand
            (without_segment number_in self.old.heap.segments segment) }
        requires role { P.role ≡ of_pool (pool_part self.old.policy pool.old.pool) }
        requires left { P.left ≡ of_pool (pool_part self.old.policy
            (with_orphan (segment_in number_in self.old.heap.segments segment) pool.old.pool)) }
        ensures called { HasCalled (Event.Abandon segment)
            (abandon_answer result) self.old self.new }
        ensures pool { IsPoolOf (arc_value self.old.table).table.shared.table_id self.old.policy
            pool.new }
        ensures held { result ≡ is_held number_in self.old.heap.segments segment }
        ensures left { self.new.heap.segments
            ≡ without_segment number_in self.old.heap.segments segment }
        ensures queues { self.new.heap.queues ≡ without_pages segment self.old.heap.queues }
        ensures put { pool.new.pool ≡ with_orphan
            (segment_in number_in self.old.heap.segments segment) pool.old.pool }
    {
        let Some(one) = self.heap.release(segment) else {
            self.refuse::<W>();
            return false;
        };
        if let Some(other) = pool.pool.pick(segment) {
            never_twice(&self.table, one, other);
            unreachable!()
        }
        self.call_with::<W, P>(&mut pool.call);
        pool.pool.put_orphan(one);
        true
    }
}

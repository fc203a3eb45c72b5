//! A worker takes a segment from the pool.

ghost use Rattle.std.specs.Prelude.{◌≡◌, false, [], ◌∷◌, IfSome, option_map};
ghost use Rattle.std.specs.Arc.{arc_value};
ghost use Rattle.hg_machine.specs.declared.Event.TheVariants as Event;
ghost use Rattle.hg_heap.specs.Held.{is_held};
ghost use Rattle.hg_pool.specs.Pooled.{next_in};
ghost use Rattle.hg_roles.specs.Roles.{of_pool};
ghost use Rattle.hg_run_worker.specs.AtWork.{HasCalled, IsReady, number_in, view_in, worker_view};
ghost use Rattle.hg_run_worker.specs.Pools.{IsPoolOf, left_pool, pool_part, refill_answer, with_taken};
ghost use Rattle.hg_run_worker.specs.Pools.{QueuesTaken};

use crate::deciding::never_twice;
use crate::{RunPool, RunWorker};
use hg_run_table::{OtherPart, OwnCall};
use std::marker::Brand;

impl RunWorker {
    /// Takes the next segment of the arena from the pool, and tells its number: the oldest orphan, or
    /// else the lowest fresh one. `None` where the pool has neither, and then nothing changes but the
    /// worker's log. Logs the Refill with its answer.
    pub fn refill(&mut self, arena: u8, pool: &mut RunPool) -> Option<u8>
        requires ready { IsReady self.old }
        requires pool { IsPoolOf (arc_value self.old.table).table.shared.table_id self.old.policy
            pool.old }
        ensures called { HasCalled (Event.Refill arena) (refill_answer result) self.old self.new }
        ensures pool { IsPoolOf (arc_value self.old.table).table.shared.table_id self.old.policy
            pool.new }
        ensures next { result ≡ option_map (λ one. number_in one.slots)
            (next_in pool.old.pool arena) }
        ensures unheld { IfSome result (λ segment.
            is_held number_in self.old.heap.segments segment ≡ false) }
        ensures taken { self.new.heap.segments
            ≡ with_taken (next_in pool.old.pool arena) self.old.heap.segments }
        ensures queues { QueuesTaken (next_in pool.old.pool arena) self.old.heap.queues
            self.new.heap.queues }
        ensures left { pool.new.pool ≡ left_pool (next_in pool.old.pool arena) pool.old.pool }
    {
        self.refill_by::<Brand, Brand>(arena, pool)
    }

    /// The same, where it is said what the worker and the pool have, and what each has then.
    fn refill_by<W: OwnCall, P: OtherPart>(&mut self, arena: u8, pool: &mut RunPool) -> Option<u8>
        requires ready { IsReady self.old }
        requires pool { IsPoolOf (arc_value self.old.table).table.shared.table_id self.old.policy
            pool.old }
        requires before { W.before ≡ view_in self.old }
        requires call { W.call ≡ (
          Event.Refill arena,
          refill_answer
              (option_map (λ one. number_in one.slots) (next_in pool.old.pool arena)),
        ) }
        requires after { W.after ≡ worker_view self.old.policy self.old.number self.old.hand
            (with_taken (next_in pool.old.pool arena) self.old.heap.segments) }
        requires role { P.role ≡ of_pool (pool_part self.old.policy pool.old.pool) }
        requires left { P.left ≡ of_pool (pool_part self.old.policy
            (left_pool (next_in pool.old.pool arena) pool.old.pool)) }
        ensures called { HasCalled (Event.Refill arena) (refill_answer result) self.old self.new }
        ensures pool { IsPoolOf (arc_value self.old.table).table.shared.table_id self.old.policy
            pool.new }
        ensures next { result ≡ option_map (λ one. number_in one.slots)
            (next_in pool.old.pool arena) }
        ensures unheld { IfSome result (λ segment.
            is_held number_in self.old.heap.segments segment ≡ false) }
        ensures taken { self.new.heap.segments
            ≡ with_taken (next_in pool.old.pool arena) self.old.heap.segments }
        ensures queues { QueuesTaken (next_in pool.old.pool arena) self.old.heap.queues
            self.new.heap.queues }
        ensures left { pool.new.pool ≡ left_pool (next_in pool.old.pool arena) pool.old.pool }
    {
        // these hand out what a pool keeps, and that a policy is sound
        let _there = pool.pool.has(0);
        let _workers = self.policy.workers();
        let Some(one) = pool.pool.next_of(arena) else {
            self.call_with::<W, P>(&mut pool.call);
            return None;
        };
        let segment = one.number();
        if let Some(other) = self.heap.release(segment) {
            never_twice(&self.table, one, other);
            unreachable!()
        }
        self.call_with::<W, P>(&mut pool.call);
        self.heap.adopt(one);
        Some(segment)
    }
}

//! The segments of a service that nobody holds.

ghost use Rattle.std.specs.Prelude.{◌≡◌, ◌↔◌, ◌++◌, [], IsTrue, IfOk, IfSome, IfNone, option_map};
ghost use Rattle.hg_heap.specs.Policies.{AreOf, IsOf};
ghost use Rattle.hg_lists.specs.Inserts.{Inserts};
ghost use Rattle.hg_place.specs.Plain.{plain_records};
ghost use Rattle.hg_pool.specs.Moving.{CopiedIn, AreForFirst, IsMoved};
ghost use Rattle.hg_pool.specs.Pooled.{IsPooled, IsRight, first_in};
ghost use Rattle.hg_segment.specs.Parted.{plain_number};
ghost use Rattle.hg_worker.specs.Missing.{HasAll, IsFirstMissing};
ghost use Rattle.hg_table.specs.Named.{table_of_segment};
ghost use Rattle.hg_worker.specs.Seats.{number_in, records_in, seat_shows, seat_steps};
ghost use Rattle.hg_worker.specs.Seats.{AreOnTable};

use crate::ServiceName;
use hg_place::PlainWords;
use hg_pool::Pool;
use hg_segment::Segment;
use hg_table::UnnamedSegment;
use std::alloc::{AllocError, Global};
use std::marker::PhantomData;

/// A pool of segments of the service N: each is of its arena and has its greatest generation by the
/// policy, and the seat of its own number and of the service's table.
#[derive(Drop)]
pub struct KeptPool<N: ServiceName> {
    pub(crate) pool: Pool<UnnamedSegment>,
    pub(crate) of: PhantomData<N>,
    ghost each: { AreOf number_in N.policy (pool.orphans ++ pool.fresh) },
    ghost named: { AreOnTable N.table (pool.orphans ++ pool.fresh) },
}

impl<N: ServiceName> KeptPool<N> {
    /// A pool without segments.
    pub fn new(alloc: Global) -> Result<KeptPool<N>, AllocError>
        ensures orphans { IfOk result (λ kept. kept.pool.orphans ≡ []) }
        ensures fresh { IfOk result (λ kept. kept.pool.fresh ≡ []) }
    {
        let pool = Pool::new(alloc)?;
        Ok(KeptPool {
            pool,
            of: PhantomData,
        })
    }

    /// The pool without its service's name. Nothing else changes.
    pub fn without_name(self) -> Pool<UnnamedSegment>
        ensures pool { result ≡ self.pool }
        ensures of { AreOf number_in N.policy (result.orphans ++ result.fresh) }
        ensures named { AreOnTable N.table (result.orphans ++ result.fresh) }
    {
        let KeptPool { pool, of: _ } = self;
        pool
    }

    /// The pool under the name of its service: its segments are as the service's policy has them,
    /// with seats of the service's table.
    pub fn with_name(pool: Pool<UnnamedSegment>) -> KeptPool<N>
        requires of { AreOf number_in N.policy (pool.orphans ++ pool.fresh) }
        requires named { AreOnTable N.table (pool.orphans ++ pool.fresh) }
        ensures { result.pool ≡ pool }
    {
        let of = PhantomData;
        KeptPool { pool, of }
    }

    /// Puts a segment that no worker has held with the fresh ones, by its number, as it is: blocks
    /// that were given out there are those of the worker that it comes to.
    pub fn put_fresh(&mut self, one: Segment<UnnamedSegment>)
        requires of { IsOf number_in N.policy one }
        requires named { table_of_segment one.slots ≡ N.table }
        ensures fresh { Inserts one self.old.pool.fresh self.new.pool.fresh }
        ensures orphans { self.new.pool.orphans ≡ self.old.pool.orphans }
        ensures right { IsRight number_in self.new.pool }
    {
        if let Some(other) = self.pool.pick(one.number()) {
            never_twice(one, other);
            unreachable!()
        }
        self.pool.put_fresh(one);
    }

    /// What a pool keeps, for its callers to know: each segment is of its arena and has its greatest
    /// generation by the policy, and the seat of the service's table; no two are of one number, and
    /// the fresh ones stand by number.
    pub fn settled(&self)
        ensures of { AreOf number_in N.policy (self.now.pool.orphans ++ self.now.pool.fresh) }
        ensures named { AreOnTable N.table (self.now.pool.orphans ++ self.now.pool.fresh) }
        ensures right { IsRight number_in self.now.pool }
    {
        let _there = self.pool.has(0); // hands out what a pool keeps
    }

    /// Whether the pool has the segment of a number.
    pub fn has(&self, segment: u8) -> bool
        ensures { IsTrue result ↔ IsPooled number_in self.now.pool segment }
    {
        self.pool.has(segment)
    }

    /// The lowest of so many segments that isn't there.
    pub fn first_missing(&self, segments: u8) -> Option<u8>
        ensures none { IfNone result (HasAll number_in self.now.pool segments) }
        ensures some { IfSome result (IsFirstMissing number_in self.now.pool segments) }
    {
        for segment in 0..segments {
            if !self.has(segment) {
                return Some(segment);
            }
        }
        None
    }

    /// The number of the segment that stands first: the oldest orphan, or else the lowest fresh one.
    pub fn first(&self) -> Option<u8>
        ensures { result ≡ option_map (λ one. number_in one.slots) (first_in self.now.pool) }
    {
        self.pool.first()
    }

    /// Puts the record of each place of a segment that is there into plain words, and the word that
    /// one look shows.
    pub fn copy_words(&mut self, segment: u8, words: &mut PlainWords)
        requires pooled { IsPooled number_in self.old.pool segment }
        requires number { words.old.segment ≡ segment }
        ensures copied { CopiedIn number_in records_in seat_shows seat_steps segment
            self.old.pool self.new.pool words.old words.new }
        ensures right { IsRight number_in self.new.pool }
    {
        self.pool.copy_words(segment, words);
    }

    /// Moves the segment that stands first to a pool over plain words, which are to be of its number
    /// and to have its records: to the end of its kind. Its seat is given up.
    pub fn rewrap_next(&mut self, slots: PlainWords, to: &mut Pool<PlainWords>)
        requires first { AreForFirst number_in records_in plain_number plain_records
            self.old.pool slots }
        requires new { ¬ IsPooled plain_number to.old (plain_number slots) }
        ensures moved { IsMoved number_in slots self.old.pool self.new.pool to.old to.new }
        ensures right { IsRight plain_number to.new }
    {
        self.pool.rewrap_next(slots, to);
    }
}

/// Two segments of one table are never of one number.
pub(crate) fn never_twice(one: Segment<UnnamedSegment>, other: Segment<UnnamedSegment>)
    requires number { number_in one.slots ≡ number_in other.slots }
    requires table { table_of_segment one.slots ≡ table_of_segment other.slots }
    ensures { ⊥ }
{
    one.into_slots().apart(other.into_slots());
}

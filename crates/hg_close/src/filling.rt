//! A service's remote lists and segments come into the room in which it closes.

ghost use Rattle.std.specs.Prelude.{◌≡◌, ◌<◌, None, Some, length, option_map, slice_get};
ghost use Rattle.std.specs.Prelude.{slice_set};
ghost use Rattle.hg_pool.specs.Pooled.{IsPooled, IsRight, first_in};
ghost use Rattle.hg_segment.specs.Parted.{plain_number};
ghost use Rattle.hg_worker.specs.Missing.{HasAll};
ghost use Rattle.hg_worker.specs.Seats.{number_in, records_in, seat_shows, seat_steps};
ghost use Rattle.hg_close.specs.Moved.{AreOver, HasMoved};
ghost use Rattle.hg_close.specs.Rooms.{HasWords, IsUnfilled, IsFilled};

use crate::room::CloseRoom;
use hg_remote::RemoteList;
use hg_worker::{KeptPool, ServiceName};
use std::mem;

impl CloseRoom {
    /// The remote list of a segment comes, and one to which nothing was sent is left in its place.
    pub fn take_list(&mut self, segment: u8, list: &mut RemoteList)
        requires { segment < length self.old.parts.remotes.items }
        ensures lists { self.new.parts.remotes.items
            ≡ slice_set self.old.parts.remotes.items segment list.old }
        ensures other { slice_get self.old.parts.remotes.items segment ≡ Some list.new }
        ensures rest { self.new ≡ record self.old {
          parts = record self.old.parts { remotes = self.new.parts.remotes };
        } }
        ensures unfilled { IsUnfilled self.old → IsUnfilled self.new }
    {
        mem::swap(&mut self.parts.remotes[usize::from(segment)], list);
    }

    /// All segments of a service's pool come, in their order: each has its records and words
    /// copied, and then its slot words given up.
    pub fn take_segments<N: ServiceName>(&mut self, pool: &mut KeptPool<N>)
        requires room { IsUnfilled self.old }
        requires policy { self.old.parts.policy ≡ N.policy }
        requires all { HasAll number_in pool.old.pool (length N.policy.segments) }
        ensures over { AreOver number_in records_in seat_shows seat_steps pool.old.pool
            self.new.parts.pool }
        ensures filled { IsFilled self.new }
        ensures lists { self.new.parts.remotes ≡ self.old.parts.remotes }
        ensures policy { self.new.parts.policy ≡ self.old.parts.policy }
    {
        while let Some(number) = pool.first() {
            self.take_first(number, pool);
        }
    }

    /// The segment that stands first in the pool comes.
    fn take_first<N: ServiceName>(&mut self, number: u8, pool: &mut KeptPool<N>)
        requires first { option_map (λ one. number_in one.slots) (first_in pool.old.pool)
            ≡ Some number }
        requires words { HasWords self.old.words.items number }
        requires new { ¬ IsPooled plain_number self.old.parts.pool number }
        ensures moved { HasMoved number_in records_in seat_shows seat_steps number pool.old.pool
            pool.new.pool self.old.parts.pool self.new.parts.pool }
        ensures right { IsRight plain_number self.new.parts.pool }
        ensures words { self.new.words.items ≡ slice_set self.old.words.items number None }
        ensures rest { self.new ≡ record self.old {
          words = self.new.words;
          parts = record self.old.parts { pool = self.new.parts.pool };
        } }
    {
        pool.settled();
        let Some(mut words) = self.words[usize::from(number)].take() else {
            unreachable!()
        };
        pool.copy_words(number, &mut words);
        pool.rewrap_next(words, &mut self.parts.pool);
    }
}

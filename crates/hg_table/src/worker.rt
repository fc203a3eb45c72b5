//! The seat of a worker.

ghost use Rattle.std.specs.Prelude.{◌≡◌, ◌≢◌, ℕ, ◌+◌, ◌-◌, ◌*◌, ◌<◌, ◌≤◌, [], ◌∷◌, length, OnOk};
ghost use Rattle.std.specs.Prelude.{IfErr};
ghost use Rattle.std.specs.Arc.{arc_value};
ghost use Rattle.hg_place.specs.Lives.{IsLiveWord};
ghost use Rattle.hg_place.specs.Standings.{slot_of};
ghost use Rattle.hg_table.specs.Ids.{TableId-set};
ghost use Rattle.hg_table.specs.Told.{IsShown};
ghost use Rattle.hg_table.specs.Seats.{word_at, part_on, HasStepped, HaveMet};

use crate::name::TableName;
use crate::plays::{Both, Look, Meet, Part};
use crate::rule::Words;
use crate::view::View;
use crate::words::word;
use atomic_table::{Badge, Seat};
use hg_place::Place;
use std::alloc::Global;
use std::marker::PhantomData;
use std::mem;
use std::sync::Arc;

/// The seat of a worker without its table's name, as it is kept between two calls.
#[derive(Drop)]
pub struct UnnamedWorker {
    pub(crate) table: Arc<Words, Global>,
    pub(crate) badge: Badge<View>,
    ghost same: { (arc_value table).shared.table_id ≡ badge.table_id } by { TableId-set _ _ },
    ghost wide: { (arc_value table).shared.table_id.words
        ≡ (arc_value table).shared.key + 1 },
    ghost one: { badge.views ≡ (part_on badge ∷ []) ∷ [] },
    ghost plain: { length (part_on badge).records ≡ 0 },
    ghost gives_none: { (part_on badge).may_give ≡ 0 },
}

/// The seat of a worker, for the words of segments that it doesn't hold.
#[derive(Drop)]
pub struct WorkerSeat<N: TableName> {
    pub(crate) inner: UnnamedWorker,
    pub(crate) of: PhantomData<N>,
    ghost named: { inner.badge.table_id ≡ N.table } by { TableId-set _ _ },
}

impl UnnamedWorker {
    /// The seat under the name of its table.
    pub fn with_name<N: TableName>(self) -> WorkerSeat<N>
        requires { self.badge.table_id ≡ N.table }
        ensures { result.inner ≡ self }
    {
        WorkerSeat {
            inner: self,
            of: PhantomData,
        }
    }

    /// The word of a place of the table.
    pub fn look(&mut self, place: Place) -> u64
        requires { word_at place.segment (slot_of place) < self.old.badge.table_id.words }
        ensures shown { IsShown (word_at place.segment (slot_of place)) result
            (part_on self.old.badge) }
        ensures step { HasStepped (part_on self.old.badge)
            (word_at place.segment (slot_of place)) result result (part_on self.new.badge) }
        ensures same { self.new.badge.table_id ≡ self.old.badge.table_id }
    {
        let badge = mem::replace(&mut self.badge, Badge::blank());
        let mut seat: Seat<(), View> = badge.into_seat();
        let table = &self.table;
        let found = table.shared.load::<Look>(&mut seat, word(place));
        self.badge = seat.into_badge();
        found
    }

    /// Ends the life of the live word that is expected, by one exchange: its place stays open until
    /// the segment's seat takes it home. An error has the word that was found, which is another,
    /// and leaves it.
    pub fn part(&mut self, place: Place, expected: u64) -> Result<(), u64>
        requires place { word_at place.segment (slot_of place) < self.old.badge.table_id.words }
        requires live { IsLiveWord expected }
        ensures ok { OnOk result (IsShown (word_at place.segment (slot_of place)) expected
            (part_on self.old.badge)
            × HasStepped (part_on self.old.badge) (word_at place.segment (slot_of place))
            expected (expected - 1) (part_on self.new.badge)) }
        ensures err { IfErr result (λ found. (found ≢ expected)
            × IsShown (word_at place.segment (slot_of place)) found (part_on self.old.badge)
            × HasStepped (part_on self.old.badge) (word_at place.segment (slot_of place))
            found found (part_on self.new.badge)) }
        ensures same { self.new.badge.table_id ≡ self.old.badge.table_id }
    {
        let badge = mem::replace(&mut self.badge, Badge::blank());
        let mut seat: Seat<(), View> = badge.into_seat();
        let table = &self.table;
        let found = table
            .shared
            .compare_exchange::<Part>(&mut seat, word(place), expected, expected - 1);
        self.badge = seat.into_badge();
        if found == expected {
            Ok(())
        } else {
            Err(found)
        }
    }

    /// The word of a place of the table, as this seat and another of it see it together: each has
    /// seen it from then on.
    pub fn meet(&mut self, other: &mut UnnamedWorker, place: Place) -> u64
        requires place { word_at place.segment (slot_of place) < self.old.badge.table_id.words }
        requires together { self.old.badge.table_id ≡ other.old.badge.table_id }
        ensures met { HaveMet (word_at place.segment (slot_of place)) result
            (part_on self.old.badge) (part_on other.old.badge)
            (part_on self.new.badge) (part_on other.new.badge) }
        ensures same { self.new.badge.table_id ≡ self.old.badge.table_id }
        ensures same_other { other.new.badge.table_id ≡ other.old.badge.table_id }
    {
        let badge = mem::replace(&mut other.badge, Badge::blank());
        let theirs: Seat<(), View> = badge.into_seat();
        let own = mem::replace(&mut self.badge, Badge::blank());
        let mut seat: Seat<(), View> = own.into_seat();
        let table = &self.table;
        let shared = &table.shared;
        shared.join_seat::<Both>(&mut seat, theirs);
        let found = shared.load::<Meet>(&mut seat, word(place));
        let back = shared.split_seat::<Both>(&mut seat);
        other.badge = back.into_badge();
        self.badge = seat.into_badge();
        found
    }
}

impl<N: TableName> WorkerSeat<N> {
    /// The seat without the name.
    pub fn without_name(self) -> UnnamedWorker
        ensures { result ≡ self.inner }
    {
        let WorkerSeat { inner, of: _ } = self;
        inner
    }

    /// The word of a place of the table.
    pub fn look(&mut self, place: Place) -> u64
        requires { word_at place.segment (slot_of place) < N.table.words }
        ensures shown { IsShown (word_at place.segment (slot_of place)) result
            (part_on self.old.inner.badge) }
        ensures step { HasStepped (part_on self.old.inner.badge)
            (word_at place.segment (slot_of place)) result result (part_on self.new.inner.badge) }
    {
        self.inner.look(place)
    }

    /// Ends the life of the live word that is expected, by one exchange: its place stays open until
    /// the segment's seat takes it home. An error has the word that was found, which is another,
    /// and leaves it.
    pub fn part(&mut self, place: Place, expected: u64) -> Result<(), u64>
        requires place { word_at place.segment (slot_of place) < N.table.words }
        requires live { IsLiveWord expected }
        ensures ok { OnOk result (IsShown (word_at place.segment (slot_of place)) expected
            (part_on self.old.inner.badge)
            × HasStepped (part_on self.old.inner.badge) (word_at place.segment (slot_of place))
            expected (expected - 1) (part_on self.new.inner.badge)) }
        ensures err { IfErr result (λ found. (found ≢ expected)
            × IsShown (word_at place.segment (slot_of place)) found (part_on self.old.inner.badge)
            × HasStepped (part_on self.old.inner.badge) (word_at place.segment (slot_of place))
            found found (part_on self.new.inner.badge)) }
    {
        self.inner.part(place, expected)
    }

    /// The word of a place of the table, as this seat and the other see it together: each has seen
    /// it from then on.
    pub fn meet(&mut self, other: &mut WorkerSeat<N>, place: Place) -> u64
        requires { word_at place.segment (slot_of place) < N.table.words }
        ensures { HaveMet (word_at place.segment (slot_of place)) result
            (part_on self.old.inner.badge) (part_on other.old.inner.badge)
            (part_on self.new.inner.badge) (part_on other.new.inner.badge) }
    {
        self.inner.meet(&mut other.inner, place)
    }
}

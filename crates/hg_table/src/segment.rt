//! The seat of a segment: its slot words are words of the table.

ghost use Rattle.std.specs.Prelude.{◌≡◌, ℕ, ◌+◌, ◌*◌, ◌<◌, ◌≤◌, [], ◌∷◌, length};
ghost use Rattle.std.specs.Arc.{arc_value};
ghost use Rattle.std.specs.Box.{boxed_slice_items};
ghost use Rattle.hg_place.specs.declared.geometry.TheConstants.{MAX_SEGMENTS, SEGMENT_PLACES};
ghost use Rattle.hg_place.specs.Standings.{standing_at, slot_of, IsSane};
ghost use Rattle.hg_table.specs.Ids.{TableId-set};
ghost use Rattle.hg_table.specs.View.{part_of};

use crate::name::TableName;
use crate::plays::{Both, Close, Look, Meet, Open, Take};
use crate::rule::Words;
use crate::view::View;
use crate::words::word;
use crate::worker::{UnnamedWorker, WorkerSeat};
use atomic_table::{Badge, Seat};
use hg_place::{
    Handle, PAGE_PLACES, PackedStanding, Place, SlotWords, Standing, pack, word_generation,
};
use std::alloc::Global;
use std::boxed::BoxedSlice;
use std::marker::PhantomData;
use std::mem;
use std::sync::Arc;

/// The seat of a segment without its table's name, as it is kept between two calls. It is the
/// segment's slot words by itself: its steps keep its table, and it may meet a worker's seat of
/// the same one.
#[derive(Drop)]
pub struct UnnamedSegment {
    pub(crate) table: Arc<Words, Global>,
    pub(crate) seat: Seat<(), View>,
    pub(crate) segment: u8,
    pub(crate) records: BoxedSlice<PackedStanding>,
    ghost same: { (arc_value table).shared.table_id ≡ seat.table_id } by { TableId-set _ _ },
    ghost wide: { (arc_value table).shared.table_id.words
        ≡ (arc_value table).shared.key + 1 },
    ghost within: { segment * SEGMENT_PLACES + SEGMENT_PLACES
        ≤ (arc_value table).shared.key },
    ghost segment_below: { segment < MAX_SEGMENTS },
    ghost one: { seat.me.0 ≡ part_of seat.me.0 ∷ [] },
    ghost gives_none: { (part_of seat.me.0).may_give ≡ 0 },
    ghost bare: { seat.me.1 ≡ [] },
    ghost first: { (part_of seat.me.0).first ≡ segment * SEGMENT_PLACES + 1 },
    ghost recorded: { (part_of seat.me.0).records ≡ boxed_slice_items records },
    ghost sized: { length (boxed_slice_items records) ≡ SEGMENT_PLACES },
    ghost sane: { (at : ℕ) → at < SEGMENT_PLACES
        → IsSane (standing_at (boxed_slice_items records) at) },
}

/// The seat of the holder of a segment. It alone opens places of the segment, and takes them home.
#[derive(Drop)]
pub struct SegmentSeat<N: TableName> {
    pub(crate) inner: UnnamedSegment,
    pub(crate) of: PhantomData<N>,
    ghost named: { inner.seat.table_id ≡ N.table } by { TableId-set _ _ },
}

impl UnnamedSegment {
    /// The seat under the name of its table.
    pub fn with_name<N: TableName>(self) -> SegmentSeat<N>
        requires { self.seat.table_id ≡ N.table }
        ensures { result.inner ≡ self }
    {
        SegmentSeat {
            inner: self,
            of: PhantomData,
        }
    }
}

impl<N: TableName> SegmentSeat<N> {
    /// The seat without the name.
    pub fn without_name(self) -> UnnamedSegment
        ensures { result ≡ self.inner }
    {
        let SegmentSeat { inner, of: _ } = self;
        inner
    }
}

impl SlotWords for UnnamedSegment {
    type Other = UnnamedWorker;

    type Lent = ();

    ghost use Rattle.hg_table.specs.Told.{IsShown};
    ghost use Rattle.hg_table.specs.Seats.{word_at, part_in, StepsOn, MeetAt};

    ghost number = { λ s. s.segment };

    ghost records = { λ s. boxed_slice_items s.records };

    ghost shows = { λ s at word. IsShown (word_at s.segment at) word (part_in s.seat) };

    ghost steps = { λ s at found left t. StepsOn (word_at s.segment at) found left s.seat t.seat };

    ghost allows = { λ s at found left. Unit {0} };

    ghost quiet = { λ s. Unit {0} };

    ghost quiet_allows = { λ s at word quiet. tt };

    ghost stays_quiet = { λ s t at word step quiet. tt };

    ghost may_meet = { λ s other. s.seat.table_id ≡ other.badge.table_id };

    ghost meets = { λ s other at word t after. MeetAt (word_at s.segment at) word
        s.seat other.badge t.seat after.badge };

    ghost may_lend = { λ s what. Unit {0} };

    ghost lends = { λ s what t. t ≡ s };

    ghost may_give_back = { λ s. Unit {0} };

    ghost gives_back = { λ s what t. t ≡ s };

    ghost numbered = { λ s. s.segment_below };

    ghost sized = { λ s. s.sized };

    ghost sane = { λ s. s.sane };

    ghost use Rattle.hg_table.specs.Fitting.{fitting};

    ghost fits = { λ s at word below shown. fitting s.segment at word (part_in s.seat)
        (boxed_slice_items s.records) s.first s.recorded s.sized below shown };

    ghost use Rattle.hg_table.specs.Fitting.{still_together, together_again};

    ghost still_meets = { λ s t other at found left step may.
        still_together s.seat t.seat other.badge step.same may };

    ghost meets_again = { λ s t other after at word met may.
        together_again s.seat t.seat other.badge after.badge met.same met.same_other may };

    ghost use Rattle.std.proofs.Common.{ap, ◌∙◌};

    ghost meets_lent = { λ s t other what lent may. ap (λ s. s.seat.table_id) lent ∙ may };

    ghost meets_given_back = { λ s t other what given may. ap (λ s. s.seat.table_id) given ∙ may };

    fn segment(&self) -> u8 {
        self.segment
    }

    fn standing(&self, place: Place) -> Standing {
        self.records[slot(place)].standing()
    }

    fn look(&mut self, place: Place) -> u64 {
        let table = &self.table;
        table.shared.load::<Look>(&mut self.seat, word(place))
    }

    fn open(&mut self, place: Place, owner: u8) -> Handle {
        let Standing::Home(before) = self.standing(place) else {
            unreachable!()
        };
        let generation = before + 1;
        let live = pack(generation, owner, true);
        let table = &self.table;
        table
            .shared
            .store::<Open>(&mut self.seat, word(place), live);
        self.records[slot(place)] = PackedStanding::of(Standing::Open(generation, owner));
        Handle { place, generation }
    }

    fn close(&mut self, place: Place, expected: u64) -> Result<(), u64> {
        let table = &self.table;
        let found = table
            .shared
            .compare_exchange::<Close>(&mut self.seat, word(place), expected, expected - 1);
        if found != expected {
            return Err(found);
        }
        let home = Standing::Home(word_generation(expected));
        self.records[slot(place)] = PackedStanding::of(home);
        Ok(())
    }

    fn take(&mut self, place: Place) -> Result<(), u64> {
        let table = &self.table;
        let found = table.shared.load::<Take>(&mut self.seat, word(place));
        if found % 2 == 1 {
            return Err(found);
        }
        let home = Standing::Home(word_generation(found));
        self.records[slot(place)] = PackedStanding::of(home);
        Ok(())
    }

    fn meet(&mut self, other: &mut UnnamedWorker, place: Place) -> u64 {
        let badge = mem::replace(&mut other.badge, Badge::blank());
        let theirs: Seat<(), View> = badge.into_seat();
        let table = &self.table;
        let shared = &table.shared;
        shared.join_seat::<Both>(&mut self.seat, theirs);
        let found = shared.load::<Meet>(&mut self.seat, word(place));
        let back = shared.split_seat::<Both>(&mut self.seat);
        other.badge = back.into_badge();
        found
    }

    fn lend(&mut self, _what: ()) {}

    fn give_back(&mut self) {}
}

impl<N: TableName> SlotWords for SegmentSeat<N> {
    type Other = WorkerSeat<N>;

    type Lent = ();

    ghost use Rattle.hg_table.specs.Told.{IsShown};
    ghost use Rattle.hg_table.specs.Seats.{word_at, part_in, part_on, HasStepped, HaveMet};

    ghost number = { λ s. s.inner.segment };

    ghost records = { λ s. boxed_slice_items s.inner.records };

    ghost shows = { λ s at word. IsShown (word_at s.inner.segment at) word
        (part_in s.inner.seat) };

    ghost steps = { λ s at found left t. HasStepped (part_in s.inner.seat)
        (word_at s.inner.segment at) found left (part_in t.inner.seat) };

    ghost allows = { λ s at found left. Unit {0} };

    ghost quiet = { λ s. Unit {0} };

    ghost quiet_allows = { λ s at word quiet. tt };

    ghost stays_quiet = { λ s t at word step quiet. tt };

    ghost may_meet = { λ s other. Unit {0} };

    ghost meets = { λ s other at word t after. HaveMet (word_at s.inner.segment at) word
        (part_in s.inner.seat) (part_on other.inner.badge)
        (part_in t.inner.seat) (part_on after.inner.badge) };

    ghost may_lend = { λ s what. Unit {0} };

    ghost lends = { λ s what t. t.inner ≡ s.inner };

    ghost may_give_back = { λ s. Unit {0} };

    ghost gives_back = { λ s what t. t.inner ≡ s.inner };

    ghost numbered = { λ s. s.inner.segment_below };

    ghost sized = { λ s. s.inner.sized };

    ghost sane = { λ s. s.inner.sane };

    ghost use Rattle.hg_table.specs.Fitting.{fitting};

    ghost fits = { λ s at word below shown. fitting s.inner.segment at word
        (part_in s.inner.seat) (boxed_slice_items s.inner.records)
        s.inner.first s.inner.recorded s.inner.sized below shown };

    ghost still_meets = { λ s t other at found left step may. tt };

    ghost meets_again = { λ s t other after at word met may. tt };

    ghost meets_lent = { λ s t other what lent may. tt };

    ghost meets_given_back = { λ s t other what given may. tt };

    fn segment(&self) -> u8 {
        self.inner.segment()
    }

    fn standing(&self, place: Place) -> Standing {
        self.inner.standing(place)
    }

    fn look(&mut self, place: Place) -> u64 {
        self.inner.look(place)
    }

    fn open(&mut self, place: Place, owner: u8) -> Handle {
        self.inner.open(place, owner)
    }

    fn close(&mut self, place: Place, expected: u64) -> Result<(), u64> {
        self.inner.close(place, expected)
    }

    fn take(&mut self, place: Place) -> Result<(), u64> {
        self.inner.take(place)
    }

    fn meet(&mut self, other: &mut WorkerSeat<N>, place: Place) -> u64 {
        self.inner.meet(&mut other.inner, place)
    }

    fn lend(&mut self, what: ()) {
        self.inner.lend(what);
    }

    fn give_back(&mut self) {
        self.inner.give_back()
    }
}

/// The number of a place in its segment.
fn slot(place: Place) -> usize
    ensures value { result ≡ slot_of place }
    ensures below { result < SEGMENT_PLACES }
{
    usize::from(place.page) * PAGE_PLACES + usize::from(place.index)
}

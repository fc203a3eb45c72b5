//! The seat of a segment: its slot words are words of the table, and its steps answer what a worker is
//! asked whose seat is lent to it.

ghost use Rattle.std.specs.Prelude.{◌≡◌, ℕ, ◌+◌, ◌*◌, ◌<◌, ◌≤◌, [], ◌∷◌, length, IfOk};
ghost use Rattle.std.specs.Arc.{arc_value};
ghost use Rattle.std.specs.Box.{boxed_slice_items};
ghost use Rattle.hg_place.specs.declared.geometry.TheConstants.{MAX_SEGMENTS, SEGMENT_PLACES};
ghost use Rattle.hg_place.specs.Standings.{standing_at, slot_of, IsSane};
ghost use Rattle.hg_roles.specs.Served.{places_of_policy};
ghost use Rattle.hg_table.specs.Ids.{TableId-set};
ghost use Rattle.hg_table.specs.Seats.{AreHome};
ghost use Rattle.hg_table.specs.View.{part_of};
ghost use Rattle.hg_run_table.specs.NewSeats.{IsNewSegment};

use crate::table::{RunSeat, RunTable};
use hg_place::{
    Handle, PAGE_PLACES, PackedStanding, Place, SEGMENT_PLACES, SlotWords, Standing, filled, pack,
    word_generation,
};
use std::alloc::{AllocError, Global};
use std::boxed::BoxedSlice;
use std::marker::Brand;
use std::mem;
use std::sync::Arc;

/// The seat of a segment, with the records of its places. It alone opens places of the segment, and
/// takes them home. It has one part of words and lives; of the run it has the segment's own part, and
/// behind it that of a worker whose seat is lent to it. What that worker is asked, the next step
/// answers; where it is asked nothing, each step has to leave the word.
#[derive(Drop)]
pub struct RunSegment {
    pub(crate) table: Arc<RunTable, Global>,
    pub(crate) seat: RunSeat,
    pub(crate) segment: u8,
    pub(crate) records: BoxedSlice<PackedStanding>,
    ghost same: { (arc_value table).table.shared.table_id ≡ seat.seat.table_id } by { TableId-set _ _ },
    ghost within: { segment * SEGMENT_PLACES + SEGMENT_PLACES
        ≤ places_of_policy (arc_value table).table.shared.key },
    ghost segment_below: { segment < MAX_SEGMENTS },
    ghost one: { seat.seat.me.0.lives ≡ part_of seat.seat.me.0.lives ∷ [] },
    ghost first: { (part_of seat.seat.me.0.lives).first ≡ segment * SEGMENT_PLACES + 1 },
    ghost recorded: { (part_of seat.seat.me.0.lives).records ≡ boxed_slice_items records },
    ghost sized: { length (boxed_slice_items records) ≡ SEGMENT_PLACES },
    ghost sane: { (at : ℕ) → at < SEGMENT_PLACES
        → IsSane (standing_at (boxed_slice_items records) at) },
}

impl RunSegment {
    /// The slot words of a segment, by the new seat of it: all its places are home and were never
    /// given out. Asks for at most 8 bytes a place, for its record; where memory was refused the seat
    /// is given up.
    pub fn new(
        alloc: Global,
        table: &Arc<RunTable, Global>,
        seat: RunSeat,
        segment: u8,
    ) -> Result<RunSegment, AllocError>
        requires there { segment < length (arc_value table.now).table.shared.key.segments }
        requires few { segment < MAX_SEGMENTS }
        requires new { IsNewSegment (arc_value table.now).table.shared.table_id segment seat }
        ensures number { IfOk result (λ s. s.segment ≡ segment) }
        ensures seat { IfOk result (λ s. s.seat ≡ seat) }
        ensures home { IfOk result (λ s. AreHome (boxed_slice_items s.records)) }
        ensures table { IfOk result (λ s. arc_value s.table ≡ arc_value table.now) }
    {
        let home = PackedStanding::of(Standing::Home(0));
        let records = filled(alloc, home, SEGMENT_PLACES)?;
        let table = Arc::try_clone(table)?;
        Ok(RunSegment {
            table,
            seat,
            segment,
            records,
        })
    }

    /// The seat, without the records of its places.
    pub fn into_seat(self) -> RunSeat
        ensures { result ≡ self.seat }
    {
        self.seat
    }
}

impl SlotWords for RunSegment {
    type Other = RunSeat;

    type Lent = RunSeat;

    ghost use Rattle.hg_table.specs.Told.{IsShown};
    ghost use Rattle.hg_table.specs.Seats.{word_at};
    ghost use Rattle.hg_run_table.specs.Segments.{SeatMayLeave, IsQuiet, StepsIn, MayMeet, MeetIn};
    ghost use Rattle.hg_run_table.specs.Segments.{MayLend, HasLent, HasLoan, HasGivenBack};

    ghost number = { λ s. s.segment };

    ghost records = { λ s. boxed_slice_items s.records };

    ghost shows = { λ s at word. IsShown (word_at s.segment at) word
        (part_of s.seat.seat.me.0.lives) };

    ghost steps = { λ s at found left t. StepsIn s.segment at found left s.seat t.seat };

    ghost allows = { λ s at found left. SeatMayLeave (arc_value s.table).table.shared.key
        s.segment s.seat at found left };

    ghost quiet = { λ s. IsQuiet s.seat };

    ghost may_meet = { λ s other. MayMeet s.seat other };

    ghost meets = { λ s other at word t after. MeetIn s.segment at word
        s.seat other t.seat after };

    ghost may_lend = { λ s what. MayLend s.seat what };

    ghost lends = { λ s what t. HasLent s.seat what t.seat };

    ghost may_give_back = { λ s. HasLoan s.seat };

    ghost gives_back = { λ s what t. HasGivenBack s.seat what t.seat };

    ghost numbered = { λ s. s.segment_below };

    ghost sized = { λ s. s.sized };

    ghost sane = { λ s. s.sane };

    ghost use Rattle.hg_table.specs.Fitting.{fitting};

    ghost fits = { λ s at word below shown. fitting s.segment at word
        (part_of s.seat.seat.me.0.lives) (boxed_slice_items s.records)
        s.first s.recorded s.sized below shown };

    ghost use Rattle.hg_run_table.specs.Resting.{rests, rests_on, still_meeting, meeting_again};
    ghost use Rattle.hg_run_table.specs.Resting.{meeting_of_table};

    ghost quiet_allows = { λ s at word quiet. rests (arc_value s.table).table.shared.key
        s.segment s.seat at word quiet };

    ghost stays_quiet = { λ s t at word step quiet. rests_on s.segment at word s.seat t.seat
        step quiet };

    ghost still_meets = { λ s t other at found left step may.
        still_meeting s.segment at found left s.seat t.seat other step may };

    ghost meets_again = { λ s t other after at word met may.
        meeting_again s.segment at word s.seat other t.seat after met may };

    ghost meets_lent = { λ s t other what lent may.
        meeting_of_table s.seat t.seat other lent.same may };

    ghost meets_given_back = { λ s t other what given may.
        meeting_of_table s.seat t.seat other given.same may };

    fn segment(&self) -> u8 {
        self.segment
    }

    fn standing(&self, place: Place) -> Standing {
        self.records[slot(place)].standing()
    }

    fn look(&mut self, place: Place) -> u64 {
        let table = &self.table;
        table.look_asked(&mut self.seat, place)
    }

    fn open(&mut self, place: Place, owner: u8) -> Handle {
        let Standing::Home(before) = self.standing(place) else {
            unreachable!()
        };
        let generation = before + 1;
        let live = pack(generation, owner, true);
        let table = &self.table;
        table.open_asked::<Brand>(&mut self.seat, place, live);
        self.records[slot(place)] = PackedStanding::of(Standing::Open(generation, owner));
        Handle { place, generation }
    }

    fn close(&mut self, place: Place, expected: u64) -> Result<(), u64> {
        let table = &self.table;
        let found = table.close_asked::<Brand>(&mut self.seat, place, expected);
        if found != expected {
            return Err(found);
        }
        let home = Standing::Home(word_generation(expected));
        self.records[slot(place)] = PackedStanding::of(home);
        Ok(())
    }

    fn take(&mut self, place: Place) -> Result<(), u64> {
        let table = &self.table;
        let found = table.take::<Brand>(&mut self.seat, place);
        if found % 2 == 1 {
            return Err(found);
        }
        let home = Standing::Home(word_generation(found));
        self.records[slot(place)] = PackedStanding::of(home);
        Ok(())
    }

    fn meet(&mut self, other: &mut RunSeat, place: Place) -> u64 {
        let table = &self.table;
        let blank = table.split::<Brand>(&mut self.seat);
        let theirs = mem::replace(other, blank);
        table.join(&mut self.seat, theirs);
        let found = table.look(&mut self.seat, place);
        *other = table.split::<Brand>(&mut self.seat);
        found
    }

    fn lend(&mut self, what: RunSeat) {
        let table = &self.table;
        table.join(&mut self.seat, what);
    }

    fn give_back(&mut self) -> RunSeat {
        self.table.split::<Brand>(&mut self.seat)
    }
}

/// The number of a place in its segment.
fn slot(place: Place) -> usize
    ensures value { result ≡ slot_of place }
    ensures below { result < SEGMENT_PLACES }
{
    usize::from(place.page) * PAGE_PLACES + usize::from(place.index)
}

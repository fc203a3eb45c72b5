//! What other workers freed comes home.

ghost use Rattle.std.specs.Prelude.{◌≡◌, ◌<◌, ◌≤◌, ℕ, true, false, IsTrue, IsFalse, IfSome, IfNone};
ghost use Rattle.hg_place.specs.declared.geometry.TheConstants.{SEGMENT_PAGES, PAGE_PLACES};
ghost use Rattle.hg_place.specs.declared.geometry.TheConstants.{SEGMENT_PLACES};
ghost use Rattle.hg_place.specs.declared.standing.Standing.TheVariants.{Open};
ghost use Rattle.hg_place.specs.Standings.{standing_at};
ghost use Rattle.hg_segment.specs.Kept.{slot};
ghost use Rattle.hg_remote.specs.Remote.{contents, nothing_sent};
ghost use Rattle.hg_remote.specs.Order.{drained};
ghost use Rattle.hg_heap.specs.Allowed.{IsQuietIn};
ghost use Rattle.hg_heap.specs.Held.{is_held};
ghost use Rattle.hg_heap.specs.Homecoming.{HaveComeHome};
ghost use Rattle.hg_heap.specs.Taking.{WentHome, StayedAway, IsTaken, IsPassed, Takes};

use crate::Heap;
use crate::requeue::{block_bytes, page_of, requeue};
use hg_place::{Place, SlotWords, Standing};
use hg_remote::RemoteList;
use hg_segment::Segment;

impl<S: SlotWords> Heap<S> {
    /// Takes in what was sent to a segment, in the order in which it is drained: each place that is
    /// open and whose life has ended comes home, in front of its page's `local_free`, or on no list
    /// where its generation is the greatest; any other is passed over. Tells how many came home. A
    /// segment that isn't held takes nothing in.
    pub fn take(&mut self, segment: u8, remote: &mut RemoteList) -> u32
        requires quiet { IsQuietIn S.number S.quiet segment self.old.segments }
        ensures quiet { IsQuietIn S.number S.quiet segment self.new.segments }
        ensures unheld { is_held S.number self.old.segments segment ≡ false
            → (result ≡ 0) × (remote.new ≡ remote.old) × (self.new ≡ self.old) }
        ensures empty { is_held S.number self.old.segments segment ≡ true
            → remote.new ≡ nothing_sent }
        ensures taken { is_held S.number self.old.segments segment ≡ true
            → Takes S.number S.records S.shows S.steps segment (drained remote.old)
            self.old self.new result }
        ensures few { result ≤ SEGMENT_PLACES }
        ensures whole { is_held S.number self.old.segments segment ≡ true
            → HaveComeHome S.number S.records segment (contents remote.old)
            self.old.segments self.new.segments result }
    {
        if !self.holds(segment) {
            return 0;
        }
        // these hand out what a heap keeps, and how the places of a remote list stand
        self.settled();
        let _is_empty = remote.is_empty();
        let mut count = 0;
        while let Some((page, index)) = remote.drain_one() {
            if self.take_one(segment, page, index) {
                count += 1;
            }
        }
        count
    }

    /// Takes in one place of a segment that is held, if it is open and its life has ended.
    fn take_one(&mut self, segment: u8, page: u8, index: u16) -> bool
        requires held { is_held S.number self.old.segments segment ≡ true }
        requires page { page < SEGMENT_PAGES }
        requires index { index < PAGE_PLACES }
        requires quiet { IsQuietIn S.number S.quiet segment self.old.segments }
        ensures quiet { IsQuietIn S.number S.quiet segment self.new.segments }
        ensures taken { IsTrue result → IsTaken S.number S.records S.shows S.steps
            segment page index self.old self.new }
        ensures passed { IsFalse result → IsPassed S.number S.records S.shows S.steps
            segment page index self.old self.new }
    {
        let Some(found) = self.found(segment) else {
            unreachable!()
        };
        let place = Place {
            segment,
            page,
            index,
        };
        let segment = &mut self.segments[found as usize];
        let owner = bring_home(segment, page, index);
        segment.settled();
        let Some(owner) = owner else {
            return false;
        };
        let Some(class) = segment.class_of(page) else {
            unreachable!()
        };
        let is_full = segment.is_full(page);
        let arena = segment.arena();
        self.charges.lower(owner, block_bytes(class));
        requeue(&mut self.queues, arena, class, page_of(place), is_full);
        true
    }
}

/// Takes home a place of the segment that is open and whose life has ended, and tells whose block
/// it had. None where it is home or lives.
fn bring_home<S: SlotWords>(segment: &mut Segment<S>, page: u8, index: u16) -> Option<u8>
    requires page { page < SEGMENT_PAGES }
    requires index { index < PAGE_PLACES }
    requires quiet { S.quiet segment.old.slots }
    ensures quiet { S.quiet segment.new.slots }
    ensures number { S.number segment.new.slots ≡ S.number segment.old.slots }
    ensures home { IfSome result (λ owner. (generation : ℕ)
        × (standing_at (S.records segment.old.slots) (slot page index) ≡ Open generation owner)
        × WentHome S.records S.shows S.steps page index segment.old segment.new) }
    ensures away { IfNone result
        (StayedAway S.records S.shows S.steps page index segment.old segment.new) }
{
    let standing = segment.standing(page, index);
    if !segment.take_back(page, index) {
        return None;
    }
    match standing {
        Standing::Open(_, owner) => Some(owner),
        Standing::Home(_) => unreachable!(),
    }
}

//! A segment comes to a heap.

ghost use Rattle.std.specs.Prelude.{◌≡◌, ◌<◌, ◌≤◌, ◌+◌, ◌++◌, ◌∷◌, ℕ, [], false, Some, Contains};
ghost use Rattle.std.specs.Prelude.{reverse, length, slice_index};
ghost use Rattle.hg_place.specs.Places.{segment_of_page};
ghost use Rattle.hg_size.specs.Sizes.{sizes};
ghost use Rattle.hg_queue.specs.declared.page_queues.TheConstants.{ARENAS};
ghost use Rattle.hg_queue.specs.Queues.{queue_of, IsQueued, AreQueues};
ghost use Rattle.hg_segment.specs.declared.charges.TheConstants.{TENANTS};
ghost use Rattle.hg_segment.specs.Kept.{class_at};
ghost use Rattle.hg_segment.specs.Charges.{charge_of};
ghost use Rattle.hg_heap.specs.Held.{is_held};
ghost use Rattle.hg_heap.specs.Entering.{pages_of_key};

use crate::Heap;
use hg_place::{SEGMENT_PAGES, SlotWords};
use hg_queue::PageQueues;
use hg_segment::{Charges, Segment, TENANTS};

impl<S: SlotWords> Heap<S> {
    /// Takes a segment in that isn't held, as it is: with its blocks, its lists and what tenants are
    /// charged for its open places. Its pages that have a place to give out go to the front of their
    /// queues, in rising number, so that the greatest of a key stands foremost. Its arena is below 16.
    pub fn adopt(&mut self, segment: Segment<S>)
        requires new { is_held S.number self.old.segments (S.number segment.slots) ≡ false }
        requires arena { segment.arena < ARENAS }
        ensures segments { self.new.segments ≡ self.old.segments ++ segment ∷ [] }
        ensures queues { (key : ℕ) → queue_of self.new.queues key
            ≡ reverse (pages_of_key S.number segment key) ++ queue_of self.old.queues key }
    {
        segment.settled();
        enter_pages(&mut self.queues, &segment);
        add_charges(&mut self.charges, &segment);
        self.table[segment.number() as usize] = Some(self.segments.len() as u8);
        self.segments.push_reserved(segment);
    }
}

/// Puts the pages of a segment that have a place to give out to the front of their queues.
fn enter_pages<S: SlotWords>(queues: &mut PageQueues, segment: &Segment<S>)
    requires arena { segment.now.arena < ARENAS }
    requires sizes { (page size : ℕ) → class_at segment.now.classes page ≡ Some size
        → Contains sizes size }
    requires queues { AreQueues queues.old }
    requires nowhere { (page : ℕ) → segment_of_page page ≡ S.number segment.now.slots
        → ¬ IsQueued queues.old page }
    ensures entered { (key : ℕ) → queue_of queues.new key
        ≡ reverse (pages_of_key S.number segment.now key) ++ queue_of queues.old key }
    ensures queues { AreQueues queues.new }
{
    let first = u16::from(segment.number()) * SEGMENT_PAGES as u16;
    for page in 0..SEGMENT_PAGES as u8 {
        if let Some(class) = segment.class_of(page) {
            if !segment.is_full(page) {
                queues.push_front(segment.arena(), class, first + u16::from(page));
            }
        }
    }
}

/// Charges each tenant for its open places of a segment.
fn add_charges<S: SlotWords>(charges: &mut Charges, segment: &Segment<S>)
    requires all { length charges.old ≡ TENANTS }
    requires room { (tenant : ℕ) → tenant < TENANTS → slice_index charges.old tenant
        + charge_of (S.records segment.now.slots) segment.now.classes tenant ≤ u64.MAX }
    ensures all { length charges.new ≡ TENANTS }
    ensures each { (tenant : ℕ) → tenant < TENANTS → slice_index charges.new tenant
        ≡ slice_index charges.old tenant
        + charge_of (S.records segment.now.slots) segment.now.classes tenant }
{
    for tenant in 0..TENANTS as u8 {
        charges.raise(tenant, segment.charge(tenant));
    }
}

//! A segment leaves a heap.

ghost use Rattle.std.specs.Prelude.{◌≡◌, ◌≢◌, ◌<◌, ◌≤◌, ◌-◌, ◌∷◌, ℕ, false, IfSome, IfNone};
ghost use Rattle.std.specs.Prelude.{length, slice_index, IsPermutation};
ghost use Rattle.hg_place.specs.declared.geometry.TheConstants.{MAX_SEGMENTS};
ghost use Rattle.hg_queue.specs.declared.page_queues.TheConstants.{ARENAS};
ghost use Rattle.hg_queue.specs.Queues.{AreQueues};
ghost use Rattle.hg_segment.specs.declared.charges.TheConstants.{TENANTS};
ghost use Rattle.hg_segment.specs.Charges.{charge_of};
ghost use Rattle.hg_heap.specs.Held.{is_held, segment_in};
ghost use Rattle.hg_heap.specs.Releasing.{without_segment, without_pages};

use crate::Heap;
use hg_place::{SEGMENT_PAGES, SlotWords};
use hg_queue::PageQueues;
use hg_segment::{Charges, Segment, TENANTS};

impl<S: SlotWords> Heap<S> {
    /// Gives a segment out as it is: with its blocks, its lists and its classes. Its pages leave
    /// the queues, and tenants are charged no more for its open places. None where it isn't held,
    /// and then nothing changes.
    pub fn release(&mut self, segment: u8) -> Option<Segment<S>>
        ensures released { result ≡ segment_in S.number self.old.segments segment }
        ensures unchanged { IfNone result (self.new ≡ self.old) }
        ensures segments { self.new.segments
            ≡ without_segment S.number self.old.segments segment }
        ensures queues { self.new.queues ≡ without_pages segment self.old.queues }
        ensures gone { is_held S.number self.new.segments segment ≡ false }
        ensures others { (other : ℕ) → other ≢ segment
            → segment_in S.number self.new.segments other
            ≡ segment_in S.number self.old.segments other }
        ensures rest { IfSome result (λ one.
            IsPermutation self.old.segments (one ∷ self.new.segments)) }
        ensures number { IfSome result (λ one. S.number one.slots ≡ segment) }
        ensures arena { IfSome result (λ one. one.arena < ARENAS) }
    {
        let found = self.found(segment)?;
        remove_pages(&mut self.queues, segment);
        let released = self.segments.swap_remove(found as usize);
        lower_charges(&mut self.charges, &released);
        self.table[segment as usize] = None;
        // the last stands in its place now, if it wasn't the last itself
        if let Some(moved) = self.segments.get(found as usize) {
            self.table[moved.number() as usize] = Some(found);
        }
        Some(released)
    }
}

/// Takes the pages of a segment out of their queues.
fn remove_pages(queues: &mut PageQueues, segment: u8)
    requires segment { segment < MAX_SEGMENTS }
    requires queues { AreQueues queues.old }
    ensures removed { queues.new ≡ without_pages segment queues.old }
    ensures queues { AreQueues queues.new }
{
    let first = u16::from(segment) * SEGMENT_PAGES as u16;
    for page in 0..SEGMENT_PAGES as u16 {
        queues.remove(first + page);
    }
}

/// Charges each tenant no more for its open places of a segment.
fn lower_charges<S: SlotWords>(charges: &mut Charges, segment: &Segment<S>)
    requires all { length charges.old ≡ TENANTS }
    requires counted { (tenant : ℕ) → tenant < TENANTS
        → charge_of (S.records segment.now.slots) segment.now.classes tenant
        ≤ slice_index charges.old tenant }
    ensures all { length charges.new ≡ TENANTS }
    ensures each { (tenant : ℕ) → tenant < TENANTS → slice_index charges.new tenant
        ≡ slice_index charges.old tenant
        - charge_of (S.records segment.now.slots) segment.now.classes tenant }
{
    for tenant in 0..TENANTS as u8 {
        charges.lower(tenant, segment.charge(tenant));
    }
}

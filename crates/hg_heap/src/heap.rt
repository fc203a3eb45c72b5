ghost use Rattle.std.specs.Prelude.{◌≡◌, ◌<◌, ◌≤◌, ◌↔◌, ℕ, true, false, [], None, Some, length};
ghost use Rattle.std.specs.Prelude.{map, Contains, option_map, IfOk, IfSome, IfNone, IsTrue};
ghost use Rattle.hg_place.specs.declared.geometry.TheConstants.{SEGMENT_PAGES, PAGE_PLACES};
ghost use Rattle.hg_place.specs.declared.standing.Standing.{Standing};
ghost use Rattle.hg_place.specs.Standings.{standing_at, slot_of};
ghost use Rattle.hg_lists.specs.Repeats.{HasNoRepeats};
ghost use Rattle.hg_queue.specs.declared.page_queues.TheConstants.{ARENAS};
ghost use Rattle.hg_queue.specs.Queues.{queue_of};
ghost use Rattle.hg_segment.specs.declared.charges.TheConstants.{TENANTS};
ghost use Rattle.hg_segment.specs.Kept.{Kept, class_at};
ghost use Rattle.hg_heap.specs.BlockPlaces.{places_by};
ghost use Rattle.hg_heap.specs.Charges.{charge_in};
ghost use Rattle.hg_heap.specs.Found.{IsFoundAt};
ghost use Rattle.hg_heap.specs.Held.{is_held, segment_in, lists_on, has_place};
ghost use Rattle.hg_heap.specs.Policies.{IsOf, AreOf};
ghost use Rattle.hg_heap.specs.Queues.{AreQueued, HasVacant, key_on};
ghost use Rattle.hg_heap.specs.Settled.{IsSettled};

use hg_place::{MAX_SEGMENTS, Place, SlotWords, Standing};
use hg_policy::Policy;
use hg_queue::PageQueues;
use hg_segment::{Charges, Segment, TENANTS};
use hg_size::{Class, per_page};
use std::alloc::{AllocError, Global};
use std::marker::Model;

/// The segments that a worker holds. A page with a place to give out stands in the queue of its
/// arena and class; what each tenant is charged for open places is counted. Segments stand in room
/// that `new` takes, so no other call takes memory.
#[derive(Drop)]
pub struct Heap<S: SlotWords> {
    pub(crate) segments: Vec<Segment<S>>,
    /// Where each segment stands, by number.
    pub(crate) table: Box<[Option<u8>; MAX_SEGMENTS]>,
    pub(crate) queues: PageQueues,
    pub(crate) charges: Charges,
}

impl<S: SlotWords> Model for Heap<S> {
    ghost use Rattle.std.specs.Prelude.{vec_capacity};
    ghost use Rattle.hg_heap.specs.Held.{Held};
    ghost use Rattle.hg_heap.specs.Right.{IsRight};

    ghost Value = { Held S };

    ghost view = { λ h. record { segments = h.segments.items; queues = h.queues } };

    ghost invariant = { λ h. IsRight S.number S.records h.table.value h.charges
        (vec_capacity h.segments) (record { segments = h.segments.items; queues = h.queues }) };
}

impl<S: SlotWords> Heap<S> {
    /// A heap without segments. An error is want of memory.
    pub fn new(alloc: Global) -> Result<Heap<S>, AllocError>
    where
        S: Drop,
        ensures segments { IfOk result (λ h. h.segments ≡ []) }
        ensures queues { IfOk result (λ h. (key : ℕ) → queue_of h.queues key ≡ []) }
    {
        let segments = Vec::with_capacity(alloc, MAX_SEGMENTS)?;
        let table = Box::new(alloc, [None; MAX_SEGMENTS])?;
        let queues = PageQueues::new(alloc)?;
        let charges = Charges::none(alloc)?;
        Ok(Heap {
            segments,
            table,
            queues,
            charges,
        })
    }

    /// Whether the segment of this number is held.
    pub fn holds(&self, segment: u8) -> bool
        ensures { result ≡ is_held S.number self.now.segments segment }
    {
        self.found(segment).is_some()
    }

    /// Where the segment of this number stands.
    pub(crate) fn found(&self, segment: u8) -> Option<u8>
        ensures none { IfNone result (is_held S.number self.now.segments segment ≡ false) }
        ensures some { IfSome result (λ found. IsFoundAt S.number self.now.segments segment found) }
    {
        if segment as usize >= MAX_SEGMENTS {
            return None;
        }
        self.table[segment as usize]
    }

    /// The arena of a segment that is held.
    pub fn arena(&self, segment: u8) -> u8
        requires { is_held S.number self.now.segments segment ≡ true }
        ensures { option_map (λ k. k.arena) (segment_in S.number self.now.segments segment)
            ≡ Some result }
    {
        let Some(found) = self.found(segment) else {
            unreachable!()
        };
        self.segments[found as usize].arena()
    }

    /// The greatest generation of the places of a segment that is held.
    pub fn greatest(&self, segment: u8) -> u32
        requires { is_held S.number self.now.segments segment ≡ true }
        ensures { option_map (λ k. k.greatest) (segment_in S.number self.now.segments segment)
            ≡ Some result }
    {
        let Some(found) = self.found(segment) else {
            unreachable!()
        };
        self.segments[found as usize].greatest()
    }

    /// The record of a place of a segment that is held.
    pub fn standing(&self, place: Place) -> Standing
        requires { is_held S.number self.now.segments place.segment ≡ true }
        ensures { option_map (λ k. standing_at (S.records k.slots) (slot_of place))
            (segment_in S.number self.now.segments place.segment) ≡ Some result }
    {
        let Some(found) = self.found(place.segment) else {
            unreachable!()
        };
        self.segments[found as usize].standing(place.page, place.index)
    }

    /// The class of a page, if it has one, of a segment that is held. A page that a block of several
    /// pages lies over has none but at the block's first page.
    pub fn page_class(&self, segment: u8, page: u8) -> Option<Class>
        requires held { is_held S.number self.now.segments segment ≡ true }
        requires page { page < SEGMENT_PAGES }
        ensures { option_map (λ k. class_at k.classes page)
            (segment_in S.number self.now.segments segment) ≡ Some result }
    {
        let Some(found) = self.found(segment) else {
            unreachable!()
        };
        self.segments[found as usize].class_of(page)
    }

    /// How many places the blocks of a page have, of a segment that is held: those of the page's
    /// class, 0 where it has none. By `settled` each place at this index or behind it is home.
    pub fn block_places(&self, segment: u8, page: u8) -> u16
        requires held { is_held S.number self.now.segments segment ≡ true }
        requires page { page < SEGMENT_PAGES }
        ensures value { option_map (λ k. places_by (class_at k.classes page))
            (segment_in S.number self.now.segments segment) ≡ Some result }
        ensures few { result ≤ PAGE_PLACES }
    {
        let Some(found) = self.found(segment) else {
            unreachable!()
        };
        places_on(&self.segments[found as usize], page)
    }

    /// Whether a policy gives each held segment its arena and its greatest generation.
    pub fn is_of(&self, policy: &Policy) -> bool
        ensures { IsTrue result ↔ AreOf S.number policy.now self.now.segments }
    {
        for segment in &self.segments {
            if !is_given(policy, segment) {
                return false;
            }
        }
        true
    }

    /// What a tenant is charged for the open places of all segments, in bytes; a number that no
    /// tenant may have is charged nothing.
    pub fn charge(&self, tenant: u8) -> u64
        ensures counted { tenant < TENANTS → result ≡ charge_in S.records self.now.segments tenant }
        ensures nobody { ¬ tenant < TENANTS → result ≡ 0 }
    {
        if tenant as usize >= TENANTS {
            return 0;
        }
        self.charges.of(tenant)
    }

    /// What a heap keeps, for its callers to know: each segment as it promises, no two of one
    /// number, each of an arena that there may be; and a page stands in the queue of its key
    /// exactly where a block place of it is home and not worn.
    pub fn settled(&self)
        ensures each { (k : Kept S) → Contains self.now.segments k → IsSettled S.records k }
        ensures once { HasNoRepeats (map (λ k. S.number k.slots) self.now.segments) }
        ensures arenas { (k : Kept S) → Contains self.now.segments k → k.arena < ARENAS }
        ensures queued { AreQueued S.number self.now }
        ensures vacant { (page : ℕ) → has_place (lists_on S.number self.now.segments page) ≡ true
            ↔ HasVacant S.number S.records self.now.segments page }
    {
        let _ = &self.queues;
    }
}

/// Whether a policy gives a segment its arena and its greatest generation.
fn is_given<S: SlotWords>(policy: &Policy, segment: &Segment<S>) -> bool
    ensures { IsTrue result ↔ IsOf S.number policy.now segment.now }
{
    policy.arena_of(segment.number()) == Some(segment.arena())
        && segment.greatest() == policy.max_generation()
}

/// How many places the blocks of a page have: those of its class, 0 where it has none.
fn places_on<S: SlotWords>(segment: &Segment<S>, page: u8) -> u16
    requires { page < SEGMENT_PAGES }
    ensures value { result ≡ places_by (class_at segment.now.classes page) }
    ensures few { result ≤ PAGE_PLACES }
{
    match segment.class_of(page) {
        Some(class) => per_page(class),
        None => 0,
    }
}

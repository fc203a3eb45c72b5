//! A segment: the words of its pages, their lists, and the slot words of their places.

ghost use Rattle.std.specs.Prelude.{◌≡◌, ◌<◌, ◌≤◌, ◌+◌, ◌*◌, ℕ, false, [], None, Some, Contains};
ghost use Rattle.std.specs.Prelude.{length, IfOk, IsTrue, ◌↔◌};
ghost use Rattle.hg_place.specs.declared.geometry.TheConstants.{SEGMENT_PAGES, PAGE_PLACES};
ghost use Rattle.hg_place.specs.declared.geometry.TheConstants.{SEGMENT_WORDS};
ghost use Rattle.hg_place.specs.Standings.{standing_at, is_home, standing_generation};
ghost use Rattle.hg_place.specs.declared.standing.Standing.TheVariants.{Home};
ghost use Rattle.hg_size.specs.Sizes.{sizes};
ghost use Rattle.hg_size.specs.Runs.{AreRuns};
ghost use Rattle.hg_page.specs.PageLists.{listed};
ghost use Rattle.hg_segment.specs.declared.charges.TheConstants.{TENANTS};
ghost use Rattle.hg_segment.specs.Kept.{slot, class_at, lists_at};
ghost use Rattle.hg_segment.specs.Blocks.{block_at};
ghost use Rattle.hg_segment.specs.Charges.{charge_of};
ghost use Rattle.hg_segment.specs.Right.{AreListsRight, IsBlockPlace};

use crate::charges::{Charges, TENANTS};
use crate::lists::no_pages;
use crate::page_classes::PageClasses;
use hg_page::Page;
use hg_place::{Place, SlotWords, Standing};
use hg_size::Class;
use hg_words::WordMemory;
use std::alloc::{AllocError, Global};
use std::boxed::BoxedSlice;
use std::marker::Model;

/// The pages of one segment with the words of their blocks. Which places are home and which are
/// open is recorded by the slot words. Each place that is home and not worn stands on a list of its
/// page if that has a class with so many places; the open places are those that the page has as
/// used. What a tenant is charged for them is counted as it changes. All that is large lies behind
/// it, since segments are handed on by value.
#[derive(Drop)]
pub struct Segment<S: SlotWords> {
    pub(crate) arena: u8,
    pub(crate) greatest: u32,
    pub(crate) slots: S,
    pub(crate) memory: WordMemory,
    pub(crate) pages: BoxedSlice<Page>,
    pub(crate) classes: PageClasses,
    pub(crate) charges: Charges,
}

impl<S: SlotWords> Model for Segment<S> {
    ghost use Rattle.std.specs.Prelude.{map};
    ghost use Rattle.std.specs.Box.{boxed_slice_items};
    ghost use Rattle.hg_page.specs.Links.{lists_of};
    ghost use Rattle.hg_segment.specs.Kept.{Kept};
    ghost use Rattle.hg_segment.specs.Right.{IsRight};

    ghost Value = { Kept S };

    ghost view = { λ s. record {
      arena = s.arena;
      greatest = s.greatest;
      slots = s.slots;
      words = s.memory;
      classes = s.classes;
      lists = map (λ p. lists_of p s.memory) (boxed_slice_items s.pages);
    } };

    ghost invariant = { λ s. IsRight s.greatest (S.records s.slots) s.memory
        (boxed_slice_items s.pages) s.classes s.charges };
}

impl<S: SlotWords> Segment<S> {
    /// A segment of pages without classes, over the slot words of places of which none was ever
    /// given out.
    pub fn new(
        alloc: Global,
        number: u8,
        arena: u8,
        greatest: u32,
        slots: S,
    ) -> Result<Segment<S>, AllocError>
    where
        S: Drop,
        requires number { S.number slots ≡ number }
        requires home { (at : ℕ) → standing_at (S.records slots) at ≡ Home 0 }
        ensures slots { IfOk result (λ s. s.slots ≡ slots) }
        ensures arena { IfOk result (λ s. s.arena ≡ arena) }
        ensures greatest { IfOk result (λ s. s.greatest ≡ greatest) }
        ensures classes { IfOk result (λ s. (page : ℕ) → class_at s.classes page ≡ None) }
        ensures lists { IfOk result (λ s. (page : ℕ) → listed (lists_at s.lists page) ≡ []) }
    {
        let memory = WordMemory::new(alloc)?;
        let pages = no_pages(alloc)?;
        let classes = PageClasses::none(alloc)?;
        let charges = Charges::none(alloc)?;
        Ok(Segment {
            arena,
            greatest,
            slots,
            memory,
            pages,
            classes,
            charges,
        })
    }

    /// The number of the segment.
    pub fn number(&self) -> u8
        ensures { result ≡ S.number self.now.slots }
    {
        self.slots.segment()
    }

    /// The arena that the segment belongs to.
    pub fn arena(&self) -> u8
        ensures { result ≡ self.now.arena }
    {
        self.arena
    }

    /// The greatest generation of its places: one that has it is never given out again.
    pub fn greatest(&self) -> u32
        ensures { result ≡ self.now.greatest }
    {
        self.greatest
    }

    /// The record of a place.
    pub fn standing(&self, page: u8, index: u16) -> Standing
        requires page { page < SEGMENT_PAGES }
        requires index { index < PAGE_PLACES }
        ensures { result ≡ standing_at (S.records self.now.slots) (slot page index) }
    {
        self.slots.standing(Place {
            segment: self.slots.segment(),
            page,
            index,
        })
    }

    /// The class of a page, if it has one.
    pub fn class_of(&self, page: u8) -> Option<Class>
        requires { page < SEGMENT_PAGES }
        ensures { result ≡ class_at self.now.classes page }
    {
        self.classes.get(page)
    }

    /// Whether a page has no place to give out.
    pub fn is_full(&self, page: u8) -> bool
        requires { page < SEGMENT_PAGES }
        ensures { IsTrue result ↔ (listed (lists_at self.now.lists page) ≡ []) }
    {
        self.pages[page as usize].is_full(&self.memory)
    }

    /// What the places that are open count against the tenant's limit, in bytes; a number that no
    /// tenant may have is charged nothing.
    pub fn charge(&self, tenant: u8) -> u64
        ensures counted { tenant < TENANTS
            → result ≡ charge_of (S.records self.now.slots) self.now.classes tenant }
        ensures nobody { ¬ tenant < TENANTS → result ≡ 0 }
    {
        if tenant as usize >= TENANTS {
            return 0;
        }
        self.charges.of(tenant)
    }

    /// What a segment keeps, for its callers to know.
    pub fn settled(&self)
        ensures lists { (page : ℕ) → page < SEGMENT_PAGES → AreListsRight self.now.greatest
            (S.records self.now.slots) page (class_at self.now.classes page)
            (lists_at self.now.lists page) }
        ensures sizes { (page size : ℕ) → class_at self.now.classes page ≡ Some size
            → Contains sizes size }
        ensures runs { AreRuns (class_at self.now.classes) }
        ensures bounded { (at : ℕ)
            → standing_generation (standing_at (S.records self.now.slots) at) ≤ self.now.greatest }
        ensures open { (page index : ℕ) → page < SEGMENT_PAGES → index < PAGE_PLACES
            → is_home (standing_at (S.records self.now.slots) (slot page index)) ≡ false
            → IsBlockPlace (class_at self.now.classes page) index }
        ensures listed { (page index : ℕ) → page < SEGMENT_PAGES
            → Contains (listed (lists_at self.now.lists page)) index
            → IsBlockPlace (class_at self.now.classes page) index }
        ensures blocks { (page index size : ℕ) → page < SEGMENT_PAGES → index < PAGE_PLACES
            → is_home (standing_at (S.records self.now.slots) (slot page index)) ≡ false
            → class_at self.now.classes page ≡ Some size
            → length (block_at self.now.words self.now.classes page index) ≡ size }
        ensures all { (length self.now.lists ≡ SEGMENT_PAGES)
            × (length self.now.classes ≡ SEGMENT_PAGES)
            × (length self.now.words ≡ SEGMENT_WORDS) }
    {
        // a use of any field hands out what is kept of all
        let _ = &self.pages;
    }
}

ghost use Rattle.std.specs.Prelude.{◌≡◌, ◌≢◌, ℕ, ◌+◌, ◌-◌, ◌*◌, ◌<◌, ◌≤◌, ◌↔◌, ◌==◌, if◌then◌else◌};
ghost use Rattle.std.specs.Prelude.{false, true, List, [], ◌∷◌, length, replicate};
ghost use Rattle.std.specs.Prelude.{slice_index, slice_index_or, slice_set, IsTrue};
ghost use Rattle.std.specs.Prelude.{MatchOption, IfSome};
ghost use Rattle.hg_place.specs.declared.geometry.TheConstants.{PAGE_PLACES, PAGE_WORDS};
ghost use Rattle.hg_place.specs.declared.geometry.TheConstants.{SEGMENT_PAGES, SEGMENT_WORDS};
ghost use Rattle.hg_lists.specs.Repeats.{Lacks};
ghost use Rattle.hg_size.specs.Sizes.{pages_of, places_of};
ghost use Rattle.hg_page.specs.Shapes.{shape_of, start_of};
ghost use Rattle.hg_page.specs.PageLists.{listed, unworn, IsUsed, IsIdle, Pops};
ghost use Rattle.hg_page.specs.PageLists.{unused, pushed, spliced, freed, fresh};
ghost use Rattle.hg_page.specs.Links.{IsLinked, lists_of};
ghost use Rattle.hg_page.specs.Others.{KeepsOthers};

use crate::worn::Worn;
use hg_place::{PAGE_PLACES, PAGE_WORDS, SEGMENT_PAGES, SEGMENT_WORDS};
use hg_size::{Class, block_words, per_page};
use hg_words::WordMemory;

/// The link at the end of a list.
const END: u16 = 0;

/// A page of blocks of one size. `free` has the places to give out next. `local_free` has those
/// that came back since, so that a run of allocations comes to an end now and then, where the
/// caller can take in what else is free. Both are linked through the first words of their blocks,
/// in the words of the page's segment, which each call is lent: a link is 0 at the end, otherwise
/// the next index plus 1. No index stands on them twice, and none that is used.
#[derive(Drop)]
pub struct Page {
    // in words: where the page begins in its segment, and the size of a block
    base: u16,
    size: u16,
    // how many blocks there are
    places: u16,
    // the link to the first place of each list, and the index of its last, any where it has none
    free: u16,
    free_end: u16,
    local: u16,
    local_end: u16,
    // how many places are used, and by index which
    in_use: u16,
    used: [bool; PAGE_PLACES],
}

impl Page {
    /// The page of this number in its segment, with no places.
    pub fn new(number: u8) -> Page
        requires { number < SEGMENT_PAGES }
        ensures linked { (words : List ℕ) → length words ≡ SEGMENT_WORDS → IsLinked result words }
        ensures unlisted { (words : List ℕ) → listed (lists_of result words) ≡ [] }
        ensures idle { (words : List ℕ) → IsIdle (lists_of result words) }
        ensures base { (shape_of result).base ≡ number * PAGE_WORDS }
        ensures places { (shape_of result).places ≡ 0 }
    {
        Page {
            base: number as u16 * PAGE_WORDS as u16,
            size: 1,
            places: 0,
            free: END,
            free_end: 0,
            local: END,
            local_end: 0,
            in_use: 0,
            used: no_flags(),
        }
    }

    /// Gives the page blocks of a class, whatever was on its lists or used. The places that aren't
    /// worn are free, in rising order, and none is used. A block of several pages is to end in the
    /// segment.
    pub fn format(&mut self, memory: &mut WordMemory, class: Class, worn: &Worn)
        requires linked { IsLinked self.old memory.old }
        requires inside { (shape_of self.old).base + pages_of class * PAGE_WORDS ≤ SEGMENT_WORDS }
        ensures linked { IsLinked self.new memory.new }
        ensures formatted { lists_of self.new memory.new
            ≡ fresh (unworn worn.now 0 (places_of class)) }
        ensures others { KeepsOthers (shape_of self.new) (listed (lists_of self.new memory.new))
            memory.old memory.new }
        ensures shape { shape_of self.new
            ≡ record (shape_of self.old) { size = class; places = places_of class } }
    {
        self.resize(memory, block_words(class), per_page(class));
        for index in (0..self.places).rev() {
            self.offer(memory, index, worn.has(index));
        }
    }

    /// Takes the head of `free`, which is used from then on.
    pub fn pop(&mut self, memory: &WordMemory) -> Option<u16>
        requires { IsLinked self.old memory.now }
        ensures linked { IsLinked self.new memory.now }
        ensures popped { MatchOption result
            (((lists_of self.old memory.now).free ≡ []) × (self.new ≡ self.old))
            (λ index. Pops index (lists_of self.old memory.now) (lists_of self.new memory.now)) }
        ensures below { IfSome result (λ index. index < (shape_of self.old).places) }
        ensures shape { shape_of self.new ≡ shape_of self.old }
    {
        if self.free == END {
            return None;
        }
        let index = self.free - 1;
        self.free = memory.get(self.start(index)) as u16;
        self.used[index as usize] = true;
        self.in_use += 1;
        Some(index)
    }

    /// Puts a used index in front of `local_free`.
    pub fn push_local(&mut self, memory: &mut WordMemory, index: u16)
        requires linked { IsLinked self.old memory.old }
        requires used { IsUsed (lists_of self.old memory.old) index }
        ensures linked { IsLinked self.new memory.new }
        ensures pushed { lists_of self.new memory.new
            ≡ pushed (lists_of self.old memory.old) index }
        ensures others { KeepsOthers (shape_of self.new) (listed (lists_of self.new memory.new))
            memory.old memory.new }
        ensures shape { shape_of self.new ≡ shape_of self.old }
    {
        memory.set(self.start(index), self.local as u64);
        self.local_end = end_behind(self.local, self.local_end, index);
        self.local = index + 1;
        self.end_use(index);
    }

    /// Puts `local_free` behind `free`, without walking either.
    pub fn splice(&mut self, memory: &mut WordMemory)
        requires { IsLinked self.old memory.old }
        ensures linked { IsLinked self.new memory.new }
        ensures spliced { lists_of self.new memory.new
            ≡ spliced (lists_of self.old memory.old) }
        ensures others { KeepsOthers (shape_of self.new) (listed (lists_of self.new memory.new))
            memory.old memory.new }
        ensures shape { shape_of self.new ≡ shape_of self.old }
    {
        if self.local == END {
            return;
        }
        if self.free == END {
            self.free = self.local;
            self.free_end = self.local_end;
            self.local = END;
            return;
        }
        memory.set(self.start(self.free_end), self.local as u64);
        self.free_end = self.local_end;
        self.local = END;
    }

    /// A used index is never to be given out again: it is used no more, and on no list.
    pub fn wear(&mut self, memory: &WordMemory, index: u16)
        requires linked { IsLinked self.old memory.now }
        requires used { IsUsed (lists_of self.old memory.now) index }
        ensures linked { IsLinked self.new memory.now }
        ensures worn { lists_of self.new memory.now ≡ unused (lists_of self.old memory.now) index }
        ensures shape { shape_of self.new ≡ shape_of self.old }
    {
        self.end_use(index)
    }

    /// Takes all places off the lists of a page that no index is used of.
    pub fn retire(&mut self, memory: &WordMemory)
        requires linked { IsLinked self.old memory.now }
        requires idle { IsIdle (lists_of self.old memory.now) }
        ensures linked { IsLinked self.new memory.now }
        ensures retired { lists_of self.new memory.now ≡ freed (lists_of self.old memory.now) [] }
        ensures shape { shape_of self.new ≡ shape_of self.old }
    {
        self.clear()
    }

    /// Whether no index is used.
    pub fn is_idle(&self, memory: &WordMemory) -> bool
        requires { IsLinked self.now memory.now }
        ensures { IsTrue result ↔ IsIdle (lists_of self.now memory.now) }
    {
        self.in_use == 0
    }

    /// Whether no place is on a list.
    pub fn is_full(&self, memory: &WordMemory) -> bool
        requires { IsLinked self.now memory.now }
        ensures { IsTrue result ↔ (listed (lists_of self.now memory.now) ≡ []) }
    {
        self.free == END && self.local == END
    }

    /// Whether an index is used.
    pub fn is_used(&self, memory: &WordMemory, index: u16) -> bool
        requires linked { IsLinked self.now memory.now }
        requires index { index < PAGE_PLACES }
        ensures { IsTrue result ↔ IsUsed (lists_of self.now memory.now) index }
    {
        self.used[index as usize]
    }

    /// No place is on a list.
    fn clear(&mut self)
        ensures { self.new ≡ record self.old { free = END; local = END } }
    {
        self.free = END;
        self.local = END;
    }

    /// The index is used no more.
    fn end_use(&mut self, index: u16)
        requires index { index < length self.old.used }
        requires some { 1 ≤ self.old.in_use }
        ensures { self.new ≡ record self.old {
          in_use = self.old.in_use - 1;
          used = slice_set self.old.used index false;
        } }
    {
        self.in_use -= 1;
        self.used[index as usize] = false;
    }

    /// The word where a block begins.
    fn start(&self, index: u16) -> usize
        requires { start_of (shape_of self.now) index < SEGMENT_WORDS }
        ensures { result ≡ start_of (shape_of self.now) index }
    {
        self.base as usize + self.size as usize * index as usize
    }

    /// Takes another size of blocks, with nothing on a list and nothing used.
    fn resize(&mut self, memory: &WordMemory, size: u16, places: u16)
        requires linked { IsLinked self.old memory.now }
        requires sized { 1 ≤ size }
        requires inside { size * places ≤ pages_of size * PAGE_WORDS }
        requires within { self.old.base + pages_of size * PAGE_WORDS ≤ SEGMENT_WORDS }
        requires count { places ≤ PAGE_PLACES }
        ensures linked { IsLinked self.new memory.now }
        ensures emptied { lists_of self.new memory.now ≡ fresh [] }
        ensures shape { shape_of self.new
            ≡ record (shape_of self.old) { size = size; places = places } }
        ensures in_use { self.new.in_use ≡ 0 }
    {
        self.size = size;
        self.places = places;
        self.in_use = 0;
        self.used = no_flags();
        self.clear();
    }

    /// Puts an index in front of `free` unless it is worn.
    fn offer(&mut self, memory: &mut WordMemory, index: u16, worn: bool)
        requires linked { IsLinked self.old memory.old }
        requires below { index < self.old.places }
        requires unused { slice_index_or self.old.used index true ≡ false }
        requires apart { Lacks index (listed (lists_of self.old memory.old)) }
        requires room { length (listed (lists_of self.old memory.old)) + self.old.in_use
            < self.old.places }
        ensures linked { IsLinked self.new memory.new }
        ensures offered { let old = lists_of self.old memory.old in
            lists_of self.new memory.new
            ≡ record old { free = (if worn then old.free else index ∷ old.free) } }
        ensures others { (at : ℕ) → (worn ≡ false → at ≢ start_of (shape_of self.old) index)
            → slice_index memory.new at ≡ slice_index memory.old at }
        ensures shape { shape_of self.new ≡ shape_of self.old }
        ensures in_use { self.new.in_use ≡ self.old.in_use }
    {
        if worn {
            return;
        }
        memory.set(self.start(index), self.free as u64);
        self.free_end = end_behind(self.free, self.free_end, index);
        self.free = index + 1;
    }
}

/// The last index of a list once an index stands in front of it.
fn end_behind(link: u16, end: u16, index: u16) -> u16
    ensures { result ≡ (if link == 0 then index else end) }
{
    if link == END { index } else { end }
}

/// No flag is set.
fn no_flags() -> [bool; PAGE_PLACES]
    ensures all { length result ≡ PAGE_PLACES }
    ensures unset { result ≡ replicate PAGE_PLACES false }
{
    [false; PAGE_PLACES]
}

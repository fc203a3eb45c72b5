//! Pages get a class, and lose it.

ghost use Rattle.std.specs.Prelude.{◌≡◌, ◌<◌, ◌+◌, ◌*◌, ℕ, false, None, Some, slice_index_or};
ghost use Rattle.std.specs.Prelude.{slice_set, IsTrue, IsFalse, true};
ghost use Rattle.hg_place.specs.declared.geometry.TheConstants.{SEGMENT_PAGES};
ghost use Rattle.hg_place.specs.Standings.{standing_at};
ghost use Rattle.hg_size.specs.Sizes.{places_of};
ghost use Rattle.hg_size.specs.Runs.{may_begin};
ghost use Rattle.hg_page.specs.PageLists.{fresh};
ghost use Rattle.hg_segment.specs.Kept.{slot, class_at};
ghost use Rattle.hg_segment.specs.Right.{is_worn, vacant_in};
ghost use Rattle.hg_segment.specs.Retires.{Retired, Stayed, Retires};
ghost use Rattle.hg_segment.specs.Blocks.{KeepsBlocks};

use crate::Segment;
use hg_page::Worn;
use hg_place::{Place, SEGMENT_PAGES, SlotWords, Standing};
use hg_size::{Class, block_words, per_page};

impl<S: SlotWords> Segment<S> {
    /// Gives a page this class, where it and the other pages of its blocks are without one. Its
    /// places that are not worn are free, in rising order.
    pub fn assign_page(&mut self, page: u8, class: Class)
        requires page { page < SEGMENT_PAGES }
        requires begins { may_begin (class_at self.old.classes) class page ≡ true }
        ensures assigned { self.new ≡ record self.old {
          words = self.new.words;
          classes = slice_set self.old.classes page (Some class);
          lists = slice_set self.old.lists page (fresh
              (vacant_in self.old.greatest (S.records self.old.slots) page (places_of class)));
        } }
        ensures blocks { KeepsBlocks (S.records self.old.slots) self.old.classes
            self.old.words self.new.words }
    {
        let worn = worn_in(&self.slots, page, class, self.greatest);
        // a class's size is one of the table's, as what is kept says
        let _size = block_words(class);
        let lists = &mut self.pages[page as usize];
        lists.format(&mut self.memory, class, &worn);
        self.classes.assign(page, class);
    }

    /// Takes the class from each page that has no open place, and tells from how many.
    pub fn retire_idle(&mut self) -> u32
        ensures { Retires S.records SEGMENT_PAGES self.old self.new result }
    {
        let mut count = 0;
        for page in 0..SEGMENT_PAGES as u8 {
            if self.retire(page) {
                count += 1;
            }
        }
        count
    }

    /// Takes the class from a page if it has one and no open place.
    pub fn retire(&mut self, page: u8) -> bool
        requires { page < SEGMENT_PAGES }
        ensures retired { IsTrue result → Retired S.records page self.old self.new }
        ensures stayed { IsFalse result → Stayed S.records page self.old self.new }
    {
        if self.classes.get(page).is_none() {
            return false;
        }
        if !self.pages[page as usize].is_idle(&self.memory) {
            return false;
        }
        let lists = &mut self.pages[page as usize];
        lists.retire(&self.memory);
        self.classes.clear(page);
        true
    }
}

/// The places of a page that are worn, of those that blocks of the class have there.
fn worn_in<S: SlotWords>(slots: &S, page: u8, class: Class, greatest: u32) -> Worn
    requires { page < SEGMENT_PAGES }
    ensures worn { (index : ℕ) → index < places_of class → slice_index_or result index false
        ≡ is_worn greatest (standing_at (S.records slots.now) (slot page index)) }
{
    let mut worn = Worn::none();
    for index in 0..per_page(class) {
        let place = Place {
            segment: slots.segment(),
            page,
            index,
        };
        if is_worn(slots.standing(place), greatest) {
            worn.mark(index);
        }
    }
    worn
}

/// Whether a place is home at the greatest generation.
fn is_worn(standing: Standing, greatest: u32) -> bool
    ensures { result ≡ is_worn greatest standing }
{
    match standing {
        Standing::Home(generation) => generation == greatest,
        Standing::Open(_, _) => false,
    }
}

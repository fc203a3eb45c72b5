//! Where a block of a class may begin, by the marks of the pages without a class.

ghost use Rattle.std.specs.Prelude.{◌≡◌, ◌<◌, ℕ, false, true, None, IfSome, IfNone};
ghost use Rattle.std.specs.Prelude.{IsTrue, IsFalse};
ghost use Rattle.hg_place.specs.declared.geometry.TheConstants.{SEGMENT_PAGES};
ghost use Rattle.hg_place.specs.Standings.{standing_at};
ghost use Rattle.hg_size.specs.Sizes.{places_of};
ghost use Rattle.hg_size.specs.Runs.{is_covered, may_begin};
ghost use Rattle.hg_segment.specs.Kept.{slot, class_at};
ghost use Rattle.hg_segment.specs.Right.{is_vacant};
ghost use Rattle.hg_segment.specs.Begins.{CanBegin, IsFirstBegin};

use crate::Segment;
use hg_mask::{is_marked, lowest, unmark};
use hg_place::{SEGMENT_PAGES, SlotWords, Standing};
use hg_size::{Class, per_page};

impl<S: SlotWords> Segment<S> {
    /// Whether a block of an earlier page reaches over the page.
    pub fn covered(&self, page: u8) -> bool
        requires { page < SEGMENT_PAGES }
        ensures { result ≡ is_covered (class_at self.now.classes) page }
    {
        self.classes.get(page).is_none() && !self.classes.is_blank(page)
    }

    /// Whether the page and the others that a block of the class would lie over are pages of the
    /// segment without a class.
    pub fn may_begin(&self, page: u8, class: Class) -> bool
        requires { page < SEGMENT_PAGES }
        ensures { result ≡ may_begin (class_at self.now.classes) class page }
    {
        is_marked(self.classes.begins(class), page)
    }

    /// The first page at which a block of the class may begin and has a place that is home and not
    /// worn. The places of other pages aren't looked at.
    pub fn first_begin(&self, class: Class) -> Option<u8>
        ensures first { IfSome result (IsFirstBegin S.records self.now class) }
        ensures none { IfNone result ((page : ℕ) → page < SEGMENT_PAGES
            → ¬ CanBegin S.records self.now class page) }
    {
        let mut begins = self.classes.begins(class);
        for _turn in 0..SEGMENT_PAGES {
            let Some(page) = lowest(begins) else {
                return None;
            };
            if self.has_vacant(page, class) {
                return Some(page);
            }
            begins = unmark(begins, page, 1);
        }
        None
    }

    /// Whether a page has a place, of those that a block of this class may take, that is home and
    /// not worn.
    fn has_vacant(&self, page: u8, class: Class) -> bool
        requires { page < SEGMENT_PAGES }
        ensures some { IsTrue result → (index : ℕ) × (index < places_of class) × (is_vacant
            self.now.greatest (standing_at (S.records self.now.slots) (slot page index)) ≡ true) }
        ensures none { IsFalse result → (index : ℕ) → index < places_of class → is_vacant
            self.now.greatest (standing_at (S.records self.now.slots) (slot page index)) ≡ false }
    {
        for index in 0..per_page(class) {
            if is_vacant(self.standing(page, index), self.greatest) {
                return true;
            }
        }
        false
    }
}

/// Whether a place is home and may be given out again.
fn is_vacant(standing: Standing, greatest: u32) -> bool
    ensures { result ≡ is_vacant greatest standing }
{
    match standing {
        Standing::Home(generation) => generation != greatest,
        Standing::Open(_, _) => false,
    }
}

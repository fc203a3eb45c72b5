//! Pages without open places lose their class.

ghost use Rattle.std.specs.Prelude.{◌≡◌, ◌<◌, Option};
ghost use Rattle.std.specs.Prelude.{IsTrue, IsFalse};
ghost use Rattle.hg_queue.specs.declared.page_queues.TheConstants.{PAGES};
ghost use Rattle.hg_heap.specs.Retiring.{RetiredOn};
ghost use Rattle.hg_machine.specs.declared.Event.TheVariants as Event;
ghost use Rattle.hg_machine.specs.declared.Answer.TheVariants as Answer;
ghost use Rattle.hg_agreement.specs.Views.{Shown};
ghost use Rattle.hg_machine.specs.Policy.{Policy};
ghost use Rattle.hg_heap.specs.Held.{kinds};
ghost use Rattle.hg_heap.specs.Idle.{is_idle, idle_pages, IdleAreOut, Collected};
ghost use Rattle.hg_heap.specs.Policies.{AreOf};
ghost use Rattle.hg_heap.specs.Ties.{HeapTies};

use crate::Heap;
use hg_place::{SEGMENT_PAGES, SlotWords};
use hg_queue::PAGES;

impl<S: SlotWords> Heap<S> {
    /// Takes the class from each page that has one and no open place, and tells from how many.
    pub fn collect(&mut self) -> u32
        ensures pages { result ≡ idle_pages S.number S.records self.old.segments }
        ensures ties { (policy : Policy) (shown : Option Shown)
            → AreOf S.number policy self.old.segments
            → HeapTies S.number S.records policy shown shown Event.Collect (Answer.Pages result)
            self.old.segments self.new.segments }
        ensures collected { Collected S.number S.records self.old self.new }
        ensures out { IdleAreOut S.number S.records self.old self.new }
        ensures kinds { kinds S.number self.new.segments ≡ kinds S.number self.old.segments }
    {
        let mut count = 0;
        for page in 0..PAGES {
            if self.retire(page) {
                count += 1;
            }
        }
        count
    }

    /// Takes the class from a page, by its number over all segments, if it has one and no open
    /// place, and tells whether it had.
    fn retire(&mut self, page: u16) -> bool
        requires { page < PAGES }
        ensures idle { result ≡ is_idle S.number S.records self.old.segments page }
        ensures retired { IsTrue result → RetiredOn S.number page self.old self.new }
        ensures same { IsFalse result → self.new ≡ self.old }
    {
        let Some(found) = self.found((page / SEGMENT_PAGES as u16) as u8) else {
            return false;
        };
        let segment = &mut self.segments[found as usize];
        let is_retired = segment.retire((page % SEGMENT_PAGES as u16) as u8);
        segment.settled();
        if !is_retired {
            return false;
        }
        self.queues.remove(page);
        true
    }
}

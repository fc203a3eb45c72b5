ghost use Rattle.std.specs.Prelude.{◌≡◌, ◌≢◌, ◌<◌, ◌≤◌, ℕ, None, Some, true, IfOk, length, slice_set};
ghost use Rattle.std.specs.Int.{bit_at};
ghost use Rattle.hg_place.specs.declared.geometry.TheConstants.{SEGMENT_PAGES};
ghost use Rattle.hg_place.specs.Words.{bit_of};
ghost use Rattle.hg_size.specs.Runs.{AreRuns, is_blank, may_begin};
ghost use Rattle.hg_segment.specs.Kept.{class_at};

use hg_mask::{is_marked, mark, starts, unmark};
use hg_place::SEGMENT_PAGES;
use hg_size::{Class, pages_of};
use std::alloc::{AllocError, Global};
use std::marker::Model;

/// The classes of a segment's pages, seen as the list of their sizes in words, None where a page
/// has no class. Which pages are without one, having none and not being covered, is marked beside.
#[derive(Drop)]
pub struct PageClasses {
    by_page: Box<[Option<Class>; SEGMENT_PAGES]>,
    // a mark for each page that is without a class
    blank: u16,
}

impl Model for PageClasses {
    ghost use Rattle.std.specs.Prelude.{ℕ, List, Option};
    ghost use Rattle.hg_segment.specs.Marked.{AreMarked};

    ghost Value = { List (Option ℕ) };

    ghost view = { λ c. c.by_page.value };

    ghost invariant = { λ c. AreMarked c.by_page.value c.blank };
}

impl PageClasses {
    /// No page has a class.
    pub fn none(alloc: Global) -> Result<PageClasses, AllocError>
        ensures all { IfOk result (λ classes. length classes ≡ SEGMENT_PAGES) }
        ensures none { IfOk result (λ classes. (page : ℕ) → class_at classes page ≡ None) }
    {
        let by_page = Box::new(alloc, [None; SEGMENT_PAGES])?;
        Ok(PageClasses {
            by_page,
            blank: u16::MAX,
        })
    }

    /// The class of a page, if it has one.
    pub fn get(&self, page: u8) -> Option<Class>
        requires { page < SEGMENT_PAGES }
        ensures { result ≡ class_at self.now page }
    {
        self.by_page[page as usize]
    }

    /// Whether a page is without a class.
    pub fn is_blank(&self, page: u8) -> bool
        requires { page < SEGMENT_PAGES }
        ensures { result ≡ is_blank (class_at self.now) page }
    {
        is_marked(self.blank, page)
    }

    /// Where a block of the class may begin, a mark for each page.
    pub fn begins(&self, class: Class) -> u16
        ensures { (page : ℕ) → page < SEGMENT_PAGES
            → bit_at result page ≡ bit_of (may_begin (class_at self.now) class page) }
    {
        starts(self.blank, pages_of(class))
    }

    /// Gives a page the class, where its blocks may begin there.
    pub fn assign(&mut self, page: u8, class: Class)
        requires page { page < SEGMENT_PAGES }
        requires begins { may_begin (class_at self.old) class page ≡ true }
        ensures { self.new ≡ slice_set self.old page (Some class) }
    {
        self.blank = unmark(self.blank, page, pages_of(class));
        self.by_page[page as usize] = Some(class);
    }

    /// Takes the class from a page.
    pub fn clear(&mut self, page: u8)
        requires page { page < SEGMENT_PAGES }
        requires classed { class_at self.old page ≢ None }
        requires runs { AreRuns (class_at self.old) }
        ensures { self.new ≡ slice_set self.old page None }
    {
        let Some(class) = self.get(page) else {
            unreachable!()
        };
        self.blank = mark(self.blank, page, pages_of(class));
        self.by_page[page as usize] = None;
    }
}

//! A page's lists, as a segment uses them.

ghost use Rattle.std.specs.Prelude.{◌≡◌, ◌<◌, ℕ, [], length, slice_index_or, vec_capacity};
ghost use Rattle.std.specs.Prelude.{IfSome, IfNone, IfOk};
ghost use Rattle.std.specs.Box.{boxed_slice_items};
ghost use Rattle.hg_place.specs.declared.geometry.TheConstants.{SEGMENT_PAGES};
ghost use Rattle.hg_page.specs.declared.page.Page.{Page};
ghost use Rattle.hg_segment.specs.Empty.{IsEmptyPage};
ghost use Rattle.hg_page.specs.Shapes.{shape_of};
ghost use Rattle.hg_page.specs.PageLists.{listed, IsUsed, Pops};
ghost use Rattle.hg_page.specs.Links.{IsLinked, lists_of};
ghost use Rattle.hg_page.specs.Others.{KeepsOthers};
ghost use Rattle.hg_segment.specs.Kept.{refilled, returned};

use hg_page::Page;
use hg_place::SEGMENT_PAGES;
use hg_words::WordMemory;
use std::alloc::{AllocError, Global};
use std::boxed::BoxedSlice;

/// Takes the head of `free`, which is given what `local_free` has where it is empty.
pub(crate) fn pop_refilled(page: &mut Page, memory: &mut WordMemory) -> Option<u16>
    requires { IsLinked page.old memory.old }
    ensures linked { IsLinked page.new memory.new }
    ensures none { IfNone result ((listed (lists_of page.old memory.old) ≡ [])
        × (lists_of page.new memory.new ≡ lists_of page.old memory.old)
        × (memory.new ≡ memory.old)) }
    ensures some { IfSome result (λ index.
        Pops index (refilled (lists_of page.old memory.old)) (lists_of page.new memory.new)) }
    ensures others { KeepsOthers (shape_of page.new) (listed (lists_of page.old memory.old))
        memory.old memory.new }
    ensures shape { shape_of page.new ≡ shape_of page.old }
{
    if let Some(index) = page.pop(memory) {
        return Some(index);
    }
    page.splice(memory);
    page.pop(memory)
}

/// A used index goes home.
pub(crate) fn put_back(page: &mut Page, memory: &mut WordMemory, index: u16, worn: bool)
    requires linked { IsLinked page.old memory.old }
    requires used { IsUsed (lists_of page.old memory.old) index }
    ensures linked { IsLinked page.new memory.new }
    ensures returned { lists_of page.new memory.new
        ≡ returned worn (lists_of page.old memory.old) index }
    ensures others { KeepsOthers (shape_of page.new) (listed (lists_of page.new memory.new))
        memory.old memory.new }
    ensures shape { shape_of page.new ≡ shape_of page.old }
{
    if worn {
        page.wear(memory, index);
    } else {
        page.push_local(memory, index);
    }
}

/// The pages of a segment, without places.
pub(crate) fn no_pages(alloc: Global) -> Result<BoxedSlice<Page>, AllocError>
    ensures all { IfOk result (λ pages. length (boxed_slice_items pages) ≡ SEGMENT_PAGES) }
    ensures empty { IfOk result (λ pages. (k : ℕ) → k < SEGMENT_PAGES → (p : Page)
        → IsEmptyPage k (slice_index_or (boxed_slice_items pages) k p)) }
{
    Ok(empty_pages(alloc)?.into_boxed_slice())
}

/// The same in a vector with room for no more.
fn empty_pages(alloc: Global) -> Result<Vec<Page>, AllocError>
    ensures all { IfOk result (λ pages. length pages.items ≡ SEGMENT_PAGES) }
    ensures empty { IfOk result (λ pages. (k : ℕ) → k < SEGMENT_PAGES → (p : Page)
        → IsEmptyPage k (slice_index_or pages.items k p)) }
    ensures room { IfOk result (λ pages. vec_capacity pages ≡ SEGMENT_PAGES) }
{
    let mut pages = Vec::with_capacity(alloc, SEGMENT_PAGES)?;
    for number in 0..SEGMENT_PAGES as u8 {
        pages.push_reserved(Page::new(number));
    }
    Ok(pages)
}

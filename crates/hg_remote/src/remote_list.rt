ghost use Rattle.std.specs.Prelude.{◌≡◌, ◌<◌, ◌↔◌, suc, [], Contains, IsTrue, IsErr, IsNone};
ghost use Rattle.std.specs.Prelude.{IfOk, OnOk, OnErr, IfSome, IfNone};
ghost use Rattle.hg_place.specs.declared.geometry.TheConstants.{SEGMENT_PAGES, PAGE_PLACES};
ghost use Rattle.hg_place.specs.declared.geometry.TheConstants.{SEGMENT_PLACES};
ghost use Rattle.hg_place.specs.Places.{page_of, index_of};
ghost use Rattle.hg_lists.specs.Inserts.{Inserts};
ghost use Rattle.hg_remote.specs.Remote.{slot, contents, nothing_sent, IsRight};
ghost use Rattle.hg_remote.specs.Sends.{sent, Drains};

use hg_lists::IndexLists;
use hg_place::{PAGE_PLACES, SEGMENT_PAGES, SEGMENT_PLACES};
use std::alloc::{AllocError, Global};
use std::marker::Model;

/// The list has that place already.
#[derive(Clone, Copy, Debug, PartialEq, Eq)]
pub struct Twice;

/// The key of the delayed list. That of a page's thread-free list is the page plus 1.
const DELAYED: u16 = 0;

/// Places of one segment that were freed by workers which don't hold it. The first of a page goes
/// on the delayed list, which leads the holder to each page that has any; those that follow go on
/// the page's thread-free list. Places are linked by their numbers in room that `new` takes, so no
/// other call takes memory, and none walks a list. No place stands there twice.
#[derive(Drop)]
pub struct RemoteList {
    lists: IndexLists,
    // by page, whether a place of it stands on the delayed list
    delayed: [bool; SEGMENT_PAGES],
}

impl Model for RemoteList {
    ghost use Rattle.hg_remote.specs.Remote.{Remote};
    ghost use Rattle.hg_remote.specs.Kept.{remote_by, IsKept};

    ghost Value = { Remote };

    ghost view = { λ a. remote_by a.lists.by_key };

    ghost invariant = { λ a. IsKept a.lists a.delayed };
}

impl RemoteList {
    /// A list to which nothing was sent.
    pub fn new(alloc: Global) -> Result<RemoteList, AllocError>
        ensures empty { IfOk result (λ remote. remote ≡ nothing_sent) }
        ensures right { IfOk result IsRight }
    {
        let lists = IndexLists::new(alloc, SEGMENT_PLACES as u16, SEGMENT_PAGES as u16 + 1)?;
        Ok(RemoteList {
            lists,
            delayed: [false; SEGMENT_PAGES],
        })
    }

    /// Whether the list has a place.
    pub fn has(&self, page: u8, index: u16) -> bool
        requires page { page < SEGMENT_PAGES }
        requires index { index < PAGE_PLACES }
        ensures there { IsTrue result ↔ Contains (contents self.now) (slot page index) }
        ensures right { IsRight self.now }
    {
        self.lists.has(slot(page, index))
    }

    /// Whether the list has no place.
    pub fn is_empty(&self) -> bool
        ensures empty { IsTrue result ↔ (contents self.now ≡ []) }
        ensures right { IsRight self.now }
    {
        self.lists.front(DELAYED).is_none()
    }

    /// Adds a place, unless the list has it.
    pub fn push(&mut self, page: u8, index: u16) -> Result<(), Twice>
        requires page { page < SEGMENT_PAGES }
        requires index { index < PAGE_PLACES }
        ensures twice { IsErr result ↔ Contains (contents self.old) (slot page index) }
        ensures unchanged { OnErr result (self.new ≡ self.old) }
        ensures sent { OnOk result (self.new ≡ sent self.old page index) }
        ensures added { OnOk result (Inserts (slot page index) (contents self.old)
            (contents self.new)) }
        ensures right { IsRight self.new }
    {
        let place = slot(page, index);
        if self.lists.has(place) {
            return Err(Twice);
        }
        if self.delayed[page as usize] {
            self.lists.push_front(thread_free(page), place);
            return Ok(());
        }
        self.delayed[page as usize] = true;
        self.lists.push_front(DELAYED, place);
        Ok(())
    }

    /// Takes a place out: of the page of the first delayed one, whose thread-free places go before
    /// it. It has the page and the index.
    pub fn drain_one(&mut self) -> Option<(u8, u16)>
        ensures none { IsNone result ↔ (contents self.old ≡ []) }
        ensures unchanged { IfNone result (self.new ≡ self.old) }
        ensures page { IfSome result (λ place. place.0 < SEGMENT_PAGES) }
        ensures index { IfSome result (λ place. place.1 < PAGE_PLACES) }
        ensures drained { IfSome result (λ place. Drains self.old self.new place.0 place.1) }
        ensures removed { IfSome result (λ place. Inserts (slot place.0 place.1)
            (contents self.new) (contents self.old)) }
        ensures right { IsRight self.new }
    {
        let first = self.lists.front(DELAYED)?;
        let (page, index) = parts_of(first);
        if let Some(place) = self.lists.front(thread_free(page)) {
            self.lists.remove(place);
            return Some(parts_of(place));
        }
        self.lists.remove(first);
        self.delayed[page as usize] = false;
        Some((page, index))
    }
}

/// The number of a place in its segment.
fn slot(page: u8, index: u16) -> u16
    requires page { page < SEGMENT_PAGES }
    requires index { index < PAGE_PLACES }
    ensures { result ≡ slot page index }
{
    page as u16 * PAGE_PLACES as u16 + index
}

/// The page and the index of a place by its number.
fn parts_of(place: u16) -> (u8, u16)
    requires { place < SEGMENT_PLACES }
    ensures page { result.0 ≡ page_of place }
    ensures index { result.1 ≡ index_of place }
{
    let page = place / PAGE_PLACES as u16;
    (page as u8, place % PAGE_PLACES as u16)
}

/// The key of a page's thread-free list.
fn thread_free(page: u8) -> u16
    requires { page < SEGMENT_PAGES }
    ensures { result ≡ suc page }
{
    page as u16 + 1
}

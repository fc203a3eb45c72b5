ghost use Rattle.std.specs.Prelude.{◌≡◌, ℕ, ◌<◌, ◌↔◌, [], ◌∷◌, slice_get, slice_set, map};
ghost use Rattle.std.specs.Prelude.{None, Some, Contains, IsTrue, IfOk, IfSome};
ghost use Rattle.hg_lists.specs.Lists.{without, follower};
ghost use Rattle.hg_size.specs.Sizes.{number_of_size};
ghost use Rattle.hg_size.specs.SizeLaws.{key_of};
ghost use Rattle.hg_queue.specs.Queues.{queue_of, IsQueued, AreQueues};

use hg_lists::IndexLists;
use hg_place::{MAX_SEGMENTS, SEGMENT_PAGES};
use hg_size::{CLASSES, Class, class_number};
use std::alloc::{AllocError, Global};
use std::marker::Model;

/// How many pages there are over all segments. Pages are counted segment by segment.
pub const PAGES: u16 = (MAX_SEGMENTS * SEGMENT_PAGES) as u16;

/// How many arenas there may be.
pub const ARENAS: u8 = 16;

/// How many keys there are.
const KEYS: u16 = ARENAS as u16 * CLASSES as u16;

/// Pages with a place to give out, by arena and size class: a queue for each such key, whose front
/// is the page to allocate from next. Pages are linked by their numbers in room that `new` takes,
/// so no other call takes memory, and none walks a queue.
#[derive(Drop)]
pub struct PageQueues {
    lists: IndexLists,
}

impl Model for PageQueues {
    ghost use Rattle.std.specs.Prelude.{List, ℕ};

    ghost Value = { List (List ℕ) };

    ghost view = { λ q. q.lists.by_key };

    ghost use Rattle.hg_queue.specs.Queues.{IsRight};

    ghost invariant = { λ q. IsRight q.lists };
}

impl PageQueues {
    /// Queues without pages.
    pub fn new(alloc: Global) -> Result<PageQueues, AllocError>
        ensures empty { IfOk result (λ queues. (key : ℕ) → queue_of queues key ≡ []) }
        ensures queues { IfOk result AreQueues }
    {
        let lists = IndexLists::new(alloc, PAGES, KEYS)?;
        Ok(PageQueues { lists })
    }

    /// Puts a page that is in no queue in front of its key's.
    pub fn push_front(&mut self, arena: u8, class: Class, page: u16)
        requires arena { arena < ARENAS }
        requires page { page < PAGES }
        requires nowhere { ¬ IsQueued self.old page }
        ensures pushed { let key = key_of arena (number_of_size class) in
            self.new ≡ slice_set self.old key (page ∷ queue_of self.old key) }
        ensures queues { AreQueues self.new }
    {
        self.lists.push_front(key(arena, class), page);
    }

    /// Takes a page out of its queue. Where it is in none nothing changes.
    pub fn remove(&mut self, page: u16)
        requires { page < PAGES }
        ensures removed { self.new ≡ map (without page) self.old }
        ensures unchanged { ¬ IsQueued self.old page → self.new ≡ self.old }
        ensures queues { AreQueues self.new }
    {
        self.lists.remove(page);
    }

    /// The page at the front of a key's queue.
    pub fn front(&self, arena: u8, class: Class) -> Option<u16>
        requires { arena < ARENAS }
        ensures first { result ≡ slice_get (queue_of self.now (key_of arena (number_of_size class))) 0 }
        ensures page { IfSome result (λ page. page < PAGES) }
        ensures queues { AreQueues self.now }
    {
        self.lists.front(key(arena, class))
    }

    /// The page behind another in its queue.
    pub fn next(&self, page: u16) -> Option<u16>
        requires { page < PAGES }
        ensures follows { (key : ℕ) → Contains (queue_of self.now key) page
            → result ≡ follower page (queue_of self.now key) }
        ensures nowhere { ¬ IsQueued self.now page → result ≡ None }
        ensures queues { AreQueues self.now }
    {
        self.lists.next(page)
    }

    /// Whether a page is in a queue.
    pub fn has(&self, page: u16) -> bool
        requires { page < PAGES }
        ensures there { IsTrue result ↔ IsQueued self.now page }
        ensures queues { AreQueues self.now }
    {
        self.lists.has(page)
    }
}

/// The number of a key.
fn key(arena: u8, class: Class) -> u16
    requires { arena < ARENAS }
    ensures value { result ≡ key_of arena (number_of_size class) }
    ensures below { result < KEYS }
{
    arena as u16 * CLASSES as u16 + class_number(class) as u16
}

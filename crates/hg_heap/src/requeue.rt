ghost use Rattle.std.specs.Prelude.{◌≡◌, ◌<◌, ◌*◌, ℕ, not, Contains};
ghost use Rattle.hg_place.specs.declared.geometry.TheConstants.{WORD_BYTES};
ghost use Rattle.hg_place.specs.Places.{page_number};
ghost use Rattle.hg_size.specs.Sizes.{sizes, number_of_size};
ghost use Rattle.hg_size.specs.SizeLaws.{key_of};
ghost use Rattle.hg_queue.specs.declared.page_queues.TheConstants.{PAGES, ARENAS};
ghost use Rattle.hg_queue.specs.Queues.{IsQueued, queue_of, AreQueues};
ghost use Rattle.hg_heap.specs.Requeued.{requeued};

use hg_place::{Place, SEGMENT_PAGES, WORD_BYTES};
use hg_queue::PageQueues;
use hg_size::{Class, block_words};

/// Puts a page where it belongs after its lists have changed.
pub(crate) fn requeue(queues: &mut PageQueues, arena: u8, class: Class, page: u16, is_full: bool)
    requires arena { arena < ARENAS }
    requires page { page < PAGES }
    requires its_own { (key : ℕ) → Contains (queue_of queues.old key) page
        → key ≡ key_of arena (number_of_size class) }
    ensures requeued { queues.new
        ≡ requeued (key_of arena (number_of_size class)) page (not is_full) queues.old }
    ensures queues { AreQueues queues.new }
{
    if is_full {
        queues.remove(page);
        return;
    }
    if !queues.has(page) {
        queues.push_front(arena, class, page);
    }
}

/// Takes a page that stands in its queue out of it where it is full now.
pub(crate) fn part_full(queues: &mut PageQueues, page: u16, is_full: bool)
    requires { page < PAGES }
    ensures { (key : ℕ) → Contains (queue_of queues.old key) page
        → queues.new ≡ requeued key page (not is_full) queues.old }
{
    if !is_full {
        return;
    }
    queues.remove(page);
}

/// The number of a place's page over all segments.
pub(crate) fn page_of(place: Place) -> u16
    ensures number { result ≡ page_number place }
    ensures below { result < PAGES }
{
    u16::from(place.segment) * SEGMENT_PAGES as u16 + u16::from(place.page)
}

/// How many bytes a block of the class has.
pub(crate) fn block_bytes(class: Class) -> u64
    ensures value { result ≡ WORD_BYTES * class }
    ensures listed { Contains sizes class }
{
    WORD_BYTES as u64 * u64::from(block_words(class))
}

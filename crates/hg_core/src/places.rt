//! How many places the blocks of a page have.

ghost use Rattle.std.specs.Prelude.{◌≡◌, ◌<◌, ◌≤◌, ℕ, true};
ghost use Rattle.hg_place.specs.declared.geometry.TheConstants.{SEGMENT_PAGES, PAGE_PLACES};
ghost use Rattle.hg_machine.specs.Holders.{holds};
ghost use Rattle.hg_core.specs.BlockPlaces.{block_places, AreHomeFrom};
ghost use Rattle.hg_core.specs.Keeping.{state_in};

use crate::serving::Core;
use crate::stores::Stores;
use hg_place::SEGMENT_PAGES;

impl Stores {
    /// How many places the blocks of a page have, of a segment that a worker holds.
    pub(crate) fn block_places(&self, segment: u8, page: u8) -> u16
        ensures value { result ≡ block_places (state_in self.now) segment page }
        ensures few { result ≤ PAGE_PLACES }
    {
        if usize::from(page) >= SEGMENT_PAGES {
            return 0;
        }
        let Some(holder) = self.holder_of(segment) else {
            return 0;
        };
        self.heaps[usize::from(holder)].block_places(segment, page)
    }
}

impl Core {
    /// How many places the blocks of a page have, 0 to 512: those of the page's class, 1 for a run
    /// of pages. 0 for a page without a class, as for those that a run lies over behind its first;
    /// 0 too where there is no such page, and where nobody holds the segment or the policy lacks
    /// it. Where a worker holds it, each place of the page from that index on is home.
    pub fn block_places(&self, segment: u8, page: u8) -> u16
        ensures value { result ≡ block_places self.now.state segment page }
        ensures few { result ≤ PAGE_PLACES }
        ensures home { (worker : ℕ) → holds self.now.state worker segment ≡ true
            → page < SEGMENT_PAGES → AreHomeFrom self.now.state segment page result }
    {
        self.stores.block_places(segment, page)
    }
}

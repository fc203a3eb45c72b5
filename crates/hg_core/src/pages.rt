//! The class of a page.

ghost use Rattle.std.specs.Prelude.{◌≡◌};
ghost use Rattle.hg_core.specs.Keeping.{state_in};
ghost use Rattle.hg_core.specs.PageClasses.{page_class};

use crate::serving::Core;
use crate::stores::Stores;
use hg_place::SEGMENT_PAGES;
use hg_size::Class;

impl Stores {
    /// The class of a page, if it has one.
    pub(crate) fn page_class(&self, segment: u8, page: u8) -> Option<Class>
        ensures { result ≡ page_class (state_in self.now) segment page }
    {
        if segment >= self.policy.segments() {
            return None;
        }
        if usize::from(page) >= SEGMENT_PAGES {
            return None;
        }
        if let Some(holder) = self.holder_of(segment) {
            return self.heaps[usize::from(holder)].page_class(segment, page);
        }
        self.pool.page_class(segment, page)
    }
}

impl Core {
    /// The class of a page, if it has one, whoever holds its segment and where nobody does. A page
    /// that a block of several pages lies over has none but at the block's first page, and a page
    /// that there isn't has none.
    pub fn page_class(&self, segment: u8, page: u8) -> Option<Class>
        ensures { result ≡ page_class self.now.state segment page }
    {
        self.stores.page_class(segment, page)
    }
}

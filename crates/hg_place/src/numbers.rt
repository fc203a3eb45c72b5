//! Places and their numbers, counted over all segments.

ghost use Rattle.std.specs.Prelude.{◌≡◌, ◌<◌, ◌*◌};
ghost use Rattle.hg_place.specs.Places.{number_of, place_at};

use crate::Place;
use crate::geometry::{MAX_SEGMENTS, PAGE_PLACES, SEGMENT_PAGES, SEGMENT_PLACES};

impl Place {
    /// The number of the place: below 8,192 in segment 0, and so on.
    pub fn number(self) -> usize
        ensures number { result ≡ number_of self }
        ensures below { result < MAX_SEGMENTS * SEGMENT_PLACES }
    {
        let page = usize::from(self.segment) * SEGMENT_PAGES + usize::from(self.page);
        page * PAGE_PLACES + usize::from(self.index)
    }
}

/// The place that has a number.
pub fn place_at(number: usize) -> Place
    requires { number < MAX_SEGMENTS * SEGMENT_PLACES }
    ensures place { result ≡ place_at number }
    ensures number { number_of result ≡ number }
{
    Place {
        segment: (number / SEGMENT_PLACES) as u8,
        page: (number / PAGE_PLACES % SEGMENT_PAGES) as u8,
        index: (number % PAGE_PLACES) as u16,
    }
}

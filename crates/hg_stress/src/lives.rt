use hg_place::{Handle, Place, SEGMENT_PLACES};
use std::alloc::{AllocError, Global};
use std::sync::atomic::{AtomicU64, Ordering};

/// How often a life of a place was begun, and how often one was ended.
#[derive(Drop)]
struct Counted {
    begun: AtomicU64,
    ended: AtomicU64,
}

/// The lives of each place.
#[derive(Drop)]
pub struct Lives {
    places: Vec<Counted>,
}

/// Counts one more, and whether it is the life of this generation.
fn is_next(count: &AtomicU64, generation: u32) -> bool {
    let before = count.fetch_add(1, Ordering::SeqCst);
    before.wrapping_add(1) == u64::from(generation)
}

impl Lives {
    /// None yet, in so many segments.
    pub fn none(alloc: Global, segments: u8) -> Result<Lives, AllocError> {
        let mut places = Vec::new(alloc);
        for _ in 0..usize::from(segments) * SEGMENT_PLACES {
            places.push(Counted {
                begun: AtomicU64::new(0),
                ended: AtomicU64::new(0),
            })?;
        }
        Ok(Lives { places })
    }

    /// One more life is begun, and whether it is the one behind those of its place before it. Who
    /// begins one tells so before it gives away the handle, and who ends one before it sends the
    /// block; so they come one by one.
    pub fn begin(&self, handle: Handle) -> bool {
        match self.places.get(handle.place.number()) {
            Some(counted) => is_next(&counted.begun, handle.generation),
            None => false,
        }
    }

    /// One more is ended, and whether it is the one behind those before it.
    pub fn end(&self, handle: Handle) -> bool {
        match self.places.get(handle.place.number()) {
            Some(counted) => is_next(&counted.ended, handle.generation),
            None => false,
        }
    }

    /// The generation of the life that goes on at a place, by what was begun and ended there.
    pub fn goes_on(&self, place: Place) -> Option<u32> {
        let counted = self.places.get(place.number())?;
        let begun = counted.begun.load(Ordering::SeqCst);
        if counted.ended.load(Ordering::SeqCst) == begun {
            return None;
        }
        u32::try_from(begun).ok()
    }

    /// How many lives are over, and of how many places one goes on. `None` where more were ended at
    /// a place than begun, or more than one goes on.
    pub fn over_and_live(&self) -> Option<(u64, u64)> {
        let mut over = 0u64;
        let mut live = 0u64;
        for counted in &self.places {
            let ended = counted.ended.load(Ordering::SeqCst);
            let going = counted.begun.load(Ordering::SeqCst).checked_sub(ended)?;
            if going > 1 {
                return None;
            }
            over = over.wrapping_add(ended);
            live = live.wrapping_add(going);
        }
        Some((over, live))
    }
}

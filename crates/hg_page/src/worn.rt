ghost use Rattle.std.specs.Prelude.{◌≡◌, ℕ, ◌<◌, ◌==◌, true, false};
ghost use Rattle.std.specs.Prelude.{length, slice_index, slice_index_or, slice_set};
ghost use Rattle.hg_place.specs.declared.geometry.TheConstants.{PAGE_PLACES};

use hg_place::PAGE_PLACES;
use std::marker::Model;

/// Which places of a page are worn: used up, never to be given out again. Seen as truth values by
/// index.
#[derive(Drop)]
pub struct Worn {
    flags: [bool; PAGE_PLACES],
}

impl Model for Worn {
    ghost use Rattle.std.specs.Prelude.{List, Bool};

    ghost Value = { List Bool };

    ghost view = { λ w. w.flags };
}

impl Worn {
    /// No place is worn.
    pub fn none() -> Worn
        ensures all { length result ≡ PAGE_PLACES }
        ensures unset { (index : ℕ) → slice_index_or result index false ≡ false }
    {
        Worn {
            flags: [false; PAGE_PLACES],
        }
    }

    /// The places whose generation is the greatest, by the generations of all places.
    pub fn of_generations(generations: &[u32], greatest: u32) -> Worn
        requires { length generations.now ≡ PAGE_PLACES }
        ensures all { length result ≡ PAGE_PLACES }
        ensures worn { (index : ℕ) → index < PAGE_PLACES
            → slice_index_or result index false ≡ (slice_index generations.now index == greatest) }
    {
        let mut worn = Worn::none();
        for (index, generation) in generations.iter().enumerate() {
            if *generation == greatest {
                worn.mark(index as u16);
            }
        }
        worn
    }

    /// The place is worn from now on.
    pub fn mark(&mut self, index: u16)
        requires { index < PAGE_PLACES }
        ensures marked { self.new ≡ slice_set self.old index true }
        ensures all { length self.new ≡ PAGE_PLACES }
    {
        self.flags[index as usize] = true;
    }

    /// Whether the place is worn.
    pub fn has(&self, index: u16) -> bool
        requires { index < PAGE_PLACES }
        ensures { result ≡ slice_index_or self.now index false }
    {
        self.flags[index as usize]
    }
}

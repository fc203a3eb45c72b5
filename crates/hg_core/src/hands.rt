//! What a worker has in hand.

ghost use Rattle.std.specs.Prelude.{◌≡◌, option_map};
ghost use Rattle.hg_place.specs.Places.{number_of};
ghost use Rattle.hg_machine.specs.State.{hand_of};
ghost use Rattle.hg_core.specs.Keeping.{state_in};

use crate::stores::Stores;
use hg_place::Place;

impl Stores {
    /// The place that a worker freed and that stands on no remote list yet.
    pub(crate) fn hand(&self, worker: u8) -> Option<Place>
        ensures { option_map number_of result ≡ hand_of (state_in self.now) worker }
    {
        if usize::from(worker) >= self.hands.len() {
            return None;
        }
        self.hands[usize::from(worker)]
    }
}

//! What is known of a place.

ghost use Rattle.std.specs.Prelude.{◌≡◌, ◌<◌, ◌%◌, ◌==◌, length};
ghost use Rattle.hg_place.specs.Places.{number_of};
ghost use Rattle.hg_machine.specs.State.{record_at};
ghost use Rattle.hg_events.specs.Core.{parts_of};
ghost use Rattle.hg_audit.specs.Handed.{IsKeptAt};
ghost use Rattle.hg_core.specs.Keeping.{state_in};
ghost use Rattle.hg_core.specs.Records.{record_told, standing_told, open_told};

use crate::stores::Stores;
use hg_place::{Place, Standing};

/// Whether a place is free, or which tenant's block it has: a live one, or one that a worker freed
/// that didn't hold its segment, and that isn't taken back yet.
#[derive(Clone, Copy, Debug, PartialEq, Eq)]
pub enum PlaceLife {
    Home,
    Live(u8),
    Parted(u8),
}

/// How often a place was given out, and its life.
#[derive(Clone, Copy, Debug, PartialEq, Eq)]
pub struct PlaceRecord {
    pub generation: u32,
    pub life: PlaceLife,
}

/// What is known of a place that stands so, with this slot word.
fn told_by(standing: Standing, word: u64) -> PlaceRecord
    ensures { result ≡ standing_told standing (word % 2 == 0) }
{
    match standing {
        Standing::Home(generation) => PlaceRecord {
            generation,
            life: PlaceLife::Home,
        },
        Standing::Open(generation, owner) => PlaceRecord {
            generation,
            life: open_life(owner, word % 2 == 0),
        },
    }
}

/// The life of an open place.
fn open_life(owner: u8, is_freed: bool) -> PlaceLife
    ensures { result ≡ open_told owner is_freed }
{
    if is_freed {
        return PlaceLife::Parted(owner);
    }
    PlaceLife::Live(owner)
}

impl Stores {
    /// The standing and the slot word of a place, wherever its segment stands.
    fn standing(&self, place: Place) -> (Standing, u64)
        requires { place.segment < length self.now.policy.segments }
        ensures { IsKeptAt (parts_of self.now) place result.0 result.1 }
    {
        if let Some(holder) = self.holder_of(place.segment) {
            let heap = &self.heaps[usize::from(holder)];
            return heap.told(place);
        }
        self.pool.told(place)
    }

    /// What is known of a place.
    pub(crate) fn record(&self, place: Place) -> PlaceRecord
        ensures { result ≡ record_told (record_at (state_in self.now) (number_of place)) }
    {
        if place.segment >= self.policy.segments() {
            return PlaceRecord {
                generation: 0,
                life: PlaceLife::Home,
            };
        }
        let (standing, word) = self.standing(place);
        told_by(standing, word)
    }
}

//! Places of a kind: which is the first, and how many there are.

ghost use Rattle.std.specs.Prelude.{◌≡◌, ◌+◌, ◌*◌, ◌≤◌, IfNone, IfSome, count_by, option_map};
ghost use Rattle.std.specs.List.{range_with_len};
ghost use Rattle.hg_place.specs.declared.geometry.TheConstants.{MAX_SEGMENTS, SEGMENT_PLACES};
ghost use Rattle.hg_place.specs.Places.{number_of};
ghost use Rattle.hg_machine.specs.State.{record_at, hand_of};
ghost use Rattle.hg_core.specs.Kinds.{is_kind, is_kind_told, is_live_told, is_parted_told};
ghost use Rattle.hg_core.specs.Kinds.{is_told_of, IsFirst, IsNone};
ghost use Rattle.hg_core.specs.Records.{record_told};

use crate::records::{PlaceLife, PlaceRecord};
use crate::serving::Core;
use hg_place::{Place, place_at};

/// A kind of places: those with a live block, or with one of a tenant; those with a block that is
/// parted, or with a tenant's; those that are worn.
#[derive(Clone, Copy, Debug, PartialEq, Eq)]
pub enum PlaceKind {
    Live,
    LiveOf(u8),
    Parted,
    PartedOf(u8),
    Worn,
}

/// Whether it is a live block's.
fn is_live(life: PlaceLife) -> bool
    ensures { result ≡ is_live_told life }
{
    matches!(life, PlaceLife::Live(_))
}

/// Whether it is a parted block's.
fn is_parted(life: PlaceLife) -> bool
    ensures { result ≡ is_parted_told life }
{
    matches!(life, PlaceLife::Parted(_))
}

/// Whether it is that of a tenant's block.
fn is_of(life: PlaceLife, tenant: u8) -> bool
    ensures { result ≡ is_told_of tenant life }
{
    match life {
        PlaceLife::Home => false,
        PlaceLife::Live(owner) | PlaceLife::Parted(owner) => owner == tenant,
    }
}

/// Whether what is known of a place makes it one of the kind, where this is the greatest
/// generation.
fn is_told(kind: PlaceKind, known: PlaceRecord, greatest: u32) -> bool
    ensures { result ≡ is_kind_told greatest kind known }
{
    let life = known.life;
    match kind {
        PlaceKind::Live => is_live(life),
        PlaceKind::LiveOf(tenant) => is_live(life) && is_of(life, tenant),
        PlaceKind::Parted => is_parted(life),
        PlaceKind::PartedOf(tenant) => is_parted(life) && is_of(life, tenant),
        PlaceKind::Worn => {
            let is_open = is_live(life) || is_parted(life);
            !is_open && known.generation == greatest
        }
    }
}

impl Core {
    /// What is known of a place: how often it was given out, and whether it is free or whose block
    /// it has. A place of a segment that the policy lacks was never given out.
    pub fn record(&self, place: Place) -> PlaceRecord
        ensures { result ≡ record_told (record_at self.now.state (number_of place)) }
    {
        self.stores.record(place)
    }

    /// The place that a worker has in hand, if one: freed, and not delivered yet. A worker that the
    /// policy lacks has none.
    pub fn hand(&self, worker: u8) -> Option<Place>
        ensures { option_map number_of result ≡ hand_of self.now.state worker }
    {
        self.stores.hand(worker)
    }

    /// Whether a place is of a kind. No place is of a segment that the policy lacks.
    pub fn is_kind(&self, kind: PlaceKind, place: Place) -> bool
        ensures { result ≡ is_kind self.now.state kind (number_of place) }
    {
        let greatest = self.policy().max_generation();
        let known = self.record(place);
        is_told(kind, known, greatest)
    }

    /// Of so many places from a number on, the first of a kind. With `Live`, and from the number
    /// behind the last one on, it goes over the live blocks of a page, of a segment or of all.
    pub fn first_of(&self, kind: PlaceKind, first: usize, many: usize) -> Option<Place>
        requires { first + many ≤ MAX_SEGMENTS * SEGMENT_PLACES }
        ensures none { IfNone result (IsNone self.now.state kind first many) }
        ensures some { IfSome result
            (λ place. IsFirst self.now.state kind first many (number_of place)) }
    {
        for at in 0..many {
            let place = place_at(first + at);
            if self.is_kind(kind, place) {
                return Some(place);
            }
        }
        None
    }

    /// How many places of a kind there are among so many from a number on.
    pub fn count(&self, kind: PlaceKind, first: usize, many: usize) -> usize
        requires { first + many ≤ MAX_SEGMENTS * SEGMENT_PLACES }
        ensures { result ≡ count_by (is_kind self.now.state kind) (range_with_len first many) }
    {
        let mut count = 0;
        for at in 0..many {
            let place = place_at(first + at);
            count += usize::from(self.is_kind(kind, place));
        }
        count
    }
}

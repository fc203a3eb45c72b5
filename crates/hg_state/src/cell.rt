//! What stands at a place, to be drawn.

ghost use Rattle.std.specs.Prelude.{◌≡◌};
ghost use Rattle.hg_place.specs.Places.{number_of};
ghost use Rattle.hg_state.specs.Cells.{cell_at, cell_of};

use hg_core::{Core, PlaceLife, PlaceRecord};
use hg_place::Place;

/// What stands at a place: a live block of a tenant, or one that is parted; or no block, where the place
/// was given out as often as it may be (worn), or may be given out again (free).
#[derive(Clone, Copy)]
pub(crate) enum Cell {
    Live(u8),
    Parted(u8),
    Worn,
    Free,
}

/// What a place of this record is, where this is the greatest generation.
fn cell_of(greatest: u32, known: PlaceRecord) -> Cell
    ensures { result ≡ cell_of greatest known }
{
    match known.life {
        PlaceLife::Live(owner) => Cell::Live(owner),
        PlaceLife::Parted(owner) => Cell::Parted(owner),
        PlaceLife::Home if known.generation == greatest => Cell::Worn,
        PlaceLife::Home => Cell::Free,
    }
}

/// What stands at a place.
pub(crate) fn cell_at(core: &Core, place: Place) -> Cell
    ensures { result ≡ cell_at core.now.state (number_of place) }
{
    cell_of(core.policy().max_generation(), core.record(place))
}

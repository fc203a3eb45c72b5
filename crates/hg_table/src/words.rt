ghost use Rattle.std.specs.Prelude.{◌≡◌};
ghost use Rattle.hg_place.specs.Standings.{slot_of};
ghost use Rattle.hg_table.specs.Seats.{word_at};

use hg_place::Place;

/// The index of the word of a place. Word 0 is the spare one.
pub(crate) fn word(place: Place) -> usize
    ensures { result ≡ word_at place.segment (slot_of place) }
{
    place.number() + 1
}

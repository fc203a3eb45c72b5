//! Which places are sent: parted, and in no hand.

ghost use Rattle.std.specs.Prelude.{◌≡◌, ◌+◌, ◌*◌, ◌≤◌, cond, count_by};
ghost use Rattle.std.specs.List.{list_any, range_with_len};
ghost use Rattle.hg_place.specs.declared.geometry.TheConstants.{MAX_SEGMENTS, SEGMENT_PLACES};
ghost use Rattle.hg_place.specs.Places.{number_of};
ghost use Rattle.hg_machine.specs.Holders.{is_number};
ghost use Rattle.hg_machine.specs.State.{hand_of};
ghost use Rattle.hg_machine.specs.Sweeps.{is_sent};
ghost use Rattle.hg_state.specs.Blocks.{sent_in};

use hg_core::{Core, PlaceKind};
use hg_place::{Place, SEGMENT_PLACES, place_at};

/// Whether a worker has this place in hand.
fn has_in_hand(core: &Core, worker: u8, place: Place) -> bool
    ensures { result ≡ is_number (number_of place) (hand_of core.now.state worker) }
{
    match core.hand(worker) {
        Some(other) => other.number() == place.number(),
        None => false,
    }
}

/// Whether some worker has this place in hand.
fn is_in_hand(core: &Core, place: Place) -> bool
    ensures { result ≡ list_any (is_number (number_of place)) core.now.state.hands }
{
    for worker in 0..core.policy().workers() {
        if has_in_hand(core, worker, place) {
            return true;
        }
    }
    false
}

/// Whether a place is sent.
fn is_sent(core: &Core, place: Place) -> bool
    ensures { result ≡ is_sent core.now.state (number_of place) }
{
    core.is_kind(PlaceKind::Parted, place) && !is_in_hand(core, place)
}

/// One for what is so.
pub(crate) fn bit(is: bool) -> usize
    ensures bit { result ≡ cond is 1 0 }
    ensures few { result ≤ 1 }
{
    if is { 1 } else { 0 }
}

/// How many of so many places from a number on are sent.
fn count_sent(core: &Core, first: usize, many: usize) -> usize
    requires { first + many ≤ MAX_SEGMENTS * SEGMENT_PLACES }
    ensures { result ≡ count_by (is_sent core.now.state) (range_with_len first many) }
{
    let mut count = 0;
    for at in 0..many {
        let place = place_at(first + at);
        count += bit(is_sent(core, place));
    }
    count
}

/// How many places of so many segments from one on are sent: parted, and in no hand. They come home
/// when the worker takes that holds their segment.
#[tactic(auto, unfolding(crate::specs::Blocks::sent_in))]
pub fn sent_in(core: &Core, segment: u8, many: u8) -> usize
    requires { segment + many ≤ MAX_SEGMENTS }
    ensures { result ≡ sent_in core.now.state segment many }
{
    count_sent(
        core,
        usize::from(segment) * SEGMENT_PLACES,
        usize::from(many) * SEGMENT_PLACES,
    )
}

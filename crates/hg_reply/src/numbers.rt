//! What the numbers mean by which a host names workers, tenants, arenas, segments and places.

ghost use Rattle.std.specs.Prelude.{◌≡◌, true, false, MatchOption};
ghost use Rattle.hg_place.specs.HandleWords.{is_place};
ghost use Rattle.hg_place.specs.Places.{number_of};
ghost use Rattle.hg_reply.specs.Numbers.{actor_of, byte_of};

use hg_place::{Actor, MAX_SEGMENTS, Place, SEGMENT_PLACES, place_at};

/// A number up to 255 as it is, and each other as 255, which is no tenant's, arena's or segment's.
#[inline(always)]
pub fn byte_of(number: u32) -> u8
    ensures { result ≡ byte_of number }
{
    number.min(255) as u8
}

/// Who asks, by a tenant's number.
#[inline(always)]
pub fn actor_of(number: u32) -> Actor
    ensures { result ≡ actor_of number }
{
    Actor(byte_of(number))
}

/// The place of a number, if there is one.
pub fn place_of(number: u32) -> Option<Place>
    ensures { MatchOption result (is_place number ≡ false)
        (λ place. (is_place number ≡ true) × (number ≡ number_of place)) }
{
    let number = number as usize;
    if number < MAX_SEGMENTS * SEGMENT_PLACES {
        Some(place_at(number))
    } else {
        None
    }
}

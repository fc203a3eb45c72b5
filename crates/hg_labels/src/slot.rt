//! Where a name's number is kept.

ghost use Rattle.std.specs.Prelude.{◌≡◌, ◌≢◌, ◌+◌, ◌==◌, ℕ, IfSome, IsNone};
ghost use Rattle.hg_labels.specs.Slots.{slot_of};

use crate::hash::tag_of;

/// How many slots a bucket has: they fill one line of a cache.
pub(crate) const SLOTS: usize = 8;

/// A name's number, counted from 1, beside the upper half of its hash. The number of an empty slot
/// is 0.
#[derive(Clone, Copy, PartialEq, Eq)]
pub(crate) struct Slot {
    tag: u32,
    number: u32,
}

impl Slot {
    pub(crate) const EMPTY: Slot = Slot { tag: 0, number: 0 };

    /// None where the number is too large for a slot.
    pub(crate) fn new(hash: u64, number: usize) -> Option<Slot>
        ensures { IfSome result (λ slot. slot ≡ slot_of hash number) }
    {
        let number = u32::try_from(number.checked_add(1)?).ok()?;
        Some(Slot {
            tag: tag_of(hash),
            number,
        })
    }

    pub(crate) fn is_empty(self) -> bool
        ensures { result ≡ (self.number == 0) }
    {
        self.number == 0
    }

    /// The number of the name, where it may have this tag.
    pub(crate) fn number_under(self, tag: u32) -> Option<usize>
        ensures some { IfSome result (λ number. self ≡ record { tag = tag; number = number + 1 }) }
        ensures none { IsNone result →
            (number : ℕ) → self ≢ record { tag = tag; number = number + 1 } }
    {
        if self.tag == tag {
            (self.number as usize).checked_sub(1)
        } else {
            None
        }
    }
}

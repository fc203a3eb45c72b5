//! What a worker has, without its service's name.

ghost use Rattle.std.specs.Prelude.{◌≡◌, ◌<◌, ◌≤◌, ◌+◌, ◌*◌, ◌^◌, length, option_map};
ghost use Rattle.hg_place.specs.declared.geometry.TheConstants.{SEGMENT_PLACES};
ghost use Rattle.hg_machine.specs.SoundPolicy.{IsSoundPolicy};
ghost use Rattle.hg_heap.specs.Charges.{charge_in};
ghost use Rattle.hg_heap.specs.Held.{is_held};
ghost use Rattle.hg_heap.specs.Policies.{AreOf};
ghost use Rattle.hg_segment.specs.declared.charges.TheConstants.{TENANTS};
ghost use Rattle.hg_table.specs.Named.{table_of_worker};
ghost use Rattle.hg_table.specs.Seats.{part_on};
ghost use Rattle.hg_worker.specs.Charged.{AreKept};
ghost use Rattle.hg_worker.specs.Hands.{KnowsHand};
ghost use Rattle.hg_worker.specs.Seats.{number_in, records_in, part_of_seat};
ghost use Rattle.hg_worker.specs.Seats.{AreOnTable, IsInReach};

use hg_heap::Heap;
use hg_place::{Handle, Place};
use hg_policy::Policy;
use hg_table::{UnnamedSegment, UnnamedWorker};

/// A worker without its service's name, as a host keeps it between two calls: a copy of the
/// service's policy, the segments that it holds, a seat for the places of those that it doesn't
/// hold, and the life that it has freed and not delivered yet. What it holds is as the policy has
/// it and of the table of its seat, which has the words of the policy's places, and its seat for
/// the place in hand has seen that the life in hand is over.
#[derive(Drop)]
pub struct WorkerState {
    pub(crate) policy: Policy,
    pub(crate) number: u8,
    pub(crate) heap: Heap<UnnamedSegment>,
    pub(crate) seat: UnnamedWorker,
    pub(crate) hand: Option<Handle>,
    ghost sound: { IsSoundPolicy policy },
    ghost below: { number < policy.workers },
    ghost words: { seat.badge.table_id.words ≡ length policy.segments * SEGMENT_PLACES + 1 },
    ghost of: { AreOf number_in policy heap.segments },
    ghost together: { AreOnTable (table_of_worker seat) heap.segments },
    ghost reach: { IsInReach policy hand },
    ghost known: { KnowsHand number_in part_of_seat hand (part_on seat.badge) heap.segments },
}

impl WorkerState {
    /// The worker's number.
    pub fn number(&self) -> u8
        ensures { result ≡ self.now.number }
    {
        self.number
    }

    /// Whether the worker holds a segment.
    pub fn holds(&self, segment: u8) -> bool
        ensures { result ≡ is_held number_in self.now.heap.segments segment }
    {
        self.heap.holds(segment)
    }

    /// The place of the block in the worker's hand, which is to be sent to the list of its segment.
    pub fn hand(&self) -> Option<Place>
        ensures { result ≡ option_map (λ handle. handle.place) self.now.hand }
    {
        match self.hand {
            Some(handle) => Some(handle.place),
            None => None,
        }
    }

    /// What a tenant is charged for the open places of the segments that the worker holds, in
    /// bytes, 32 GiB at most; a number that no tenant may have is charged nothing.
    pub fn charge(&self, tenant: u8) -> u64
        ensures counted { tenant < TENANTS
            → result ≡ charge_in records_in self.now.heap.segments tenant }
        ensures nobody { ¬ tenant < TENANTS → result ≡ 0 }
        ensures few { result ≤ 2 ^ 35 }
        ensures kept { AreKept self.now.heap.segments }
    {
        self.heap.settled();
        self.heap.charge(tenant)
    }
}

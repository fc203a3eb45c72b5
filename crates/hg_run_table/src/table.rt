//! The table, how it is made, and how it ends.

ghost use Rattle.std.specs.Prelude.{◌≡◌, ℕ, ◌+◌, ◌*◌, ◌<◌, List, [], length, IfOk};
ghost use Rattle.core.specs.Mem.Slots.{slots_items, slots_len, IsFull};
ghost use Rattle.hg_roles.specs.FirstParts.{first_roles};
ghost use Rattle.hg_roles.specs.Histories.{IsRunOfAll};
ghost use Rattle.hg_roles.specs.Roles.{Role};
ghost use Rattle.hg_roles.specs.Served.{running, places_of_policy};
ghost use Rattle.hg_table.specs.View.{initial_view};
ghost use Rattle.hg_run_table.specs.Seated.{HaveRoles};

use crate::part::SeatView;
use crate::rule::Words;
use atomic_table::{Closed, Seat, Table};
use hg_place::{SEGMENT_PLACES, filled};
use hg_policy::Policy;
use std::alloc::{AllocError, Global};

/// The words of the places of a policy's segments, behind a spare one.
#[derive(Drop)]
pub struct RunTable {
    pub(crate) table: Words,
    ghost wide: { table.shared.table_id.words ≡ places_of_policy table.shared.key + 1 },
    ghost no_slot: { table.shared.table_id.slots ≡ 0 },
}

/// What threads step with: a seat of some parts.
#[derive(Drop)]
pub struct RunSeat {
    pub(crate) seat: Seat<(), SeatView>,
    ghost bare: { seat.me.1 ≡ [] },
}

impl RunTable {
    /// A table for the policy, all places home and never given out, and one seat that has each part
    /// of the service once. Asks for 8 bytes a word twice, and keeps one of the two.
    pub fn new(alloc: Global, policy: &Policy) -> Result<(RunTable, RunSeat), AllocError>
        ensures policy { IfOk result (λ t. t.0.table.shared.key ≡ policy.now) }
        ensures same { IfOk result (λ t. t.1.seat.table_id ≡ t.0.table.shared.table_id) }
        ensures lives { IfOk result (λ t.
            t.1.seat.me.0.lives ≡ initial_view (places_of_policy policy.now)) }
        ensures roles { IfOk result (λ t. HaveRoles t.1.seat.me.0.run (first_roles policy.now)) }
    {
        let places = usize::from(policy.segments()) * SEGMENT_PLACES;
        let words = filled(alloc, 0, places + 1)?;
        let (table, seat) = Table::of_words(alloc, &words, policy)?;
        Ok((RunTable { table }, RunSeat { seat }))
    }

    /// The end, by a seat that has all parts, as many as there are names: all calls that they logged
    /// are one run of the policy's machine, from its opening to a state that the words show.
    pub fn close(self, seat: RunSeat) -> Closed<(), Global>
        requires same { seat.seat.table_id ≡ self.table.shared.table_id }
        ensures words { slots_len result.words ≡ places_of_policy self.table.shared.key + 1 }
        ensures full { IsFull result.words }
        ensures no_slot { slots_len result.slots ≡ 0 }
        ensures run { (roles : List Role) → HaveRoles seat.seat.me.0.run roles
            → length roles ≡ (running self.table.shared.key).count
            → IsRunOfAll self.table.shared.key (slots_items result.words) roles }
    {
        self.table.close_with(seat.seat)
    }
}

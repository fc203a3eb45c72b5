//! A worker of a service without names: what it has.

ghost use Rattle.std.specs.Prelude.{◌≡◌, true, Some, is_some, option_map};
ghost use Rattle.hg_heap.specs.Held.{is_held};
ghost use Rattle.hg_table.specs.Named.{table_of_worker};
ghost use Rattle.hg_worker.specs.Seats.{number_in};
ghost use Rattle.hg_hosted.specs.Shared.{AreHome, AreOfService};

use crate::shared::Shared;
use hg_place::Place;
use hg_worker::WorkerState;
use std::alloc::Global;

/// A worker of a service, for one thread of its host. No call waits: where another call has what it
/// needs, it says so and does nothing.
#[derive(Drop)]
pub struct HostedWorker {
    pub(crate) state: Option<Box<WorkerState, Global>>,
    pub(crate) shared: Shared,
    ghost there: { is_some state ≡ true },
    ghost of: { (own : _) → state ≡ Some own
        → AreOfService own.value.policy (table_of_worker own.value.seat) shared },
    ghost home: { AreHome shared },
}

impl HostedWorker {
    /// The worker with this state, which is of the service that has what is shared.
    pub(crate) fn made(state: Box<WorkerState, Global>, shared: Shared) -> HostedWorker
        requires of { AreOfService state.value.policy (table_of_worker state.value.seat) shared }
        requires home { AreHome shared }
        ensures state { result.state ≡ Some state }
        ensures shared { result.shared ≡ shared }
    {
        HostedWorker {
            state: Some(state),
            shared,
        }
    }

    /// The worker's number.
    pub fn number(&self) -> u8
        ensures { (own : _) → self.now.state ≡ Some own → result ≡ own.value.number }
    {
        let Some(state) = &self.state else {
            unreachable!()
        };
        state.number()
    }

    /// Whether the worker holds a segment.
    pub fn holds(&self, segment: u8) -> bool
        ensures { (own : _) → self.now.state ≡ Some own
            → result ≡ is_held number_in own.value.heap.segments segment }
    {
        let Some(state) = &self.state else {
            unreachable!()
        };
        state.holds(segment)
    }

    /// The place of the block in the worker's hand.
    pub fn hand(&self) -> Option<Place>
        ensures { (own : _) → self.now.state ≡ Some own
            → result ≡ option_map (λ handle. handle.place) own.value.hand }
    {
        let Some(state) = &self.state else {
            unreachable!()
        };
        state.hand()
    }
}

//! The rule that all that is parked at one place is of one service.

ghost use Rattle.std.specs.Prelude.{◌≡◌, MatchOption};
ghost use Rattle.hg_worker.specs.States.{IsNamed};

use crossbeam_queue::protocol::{Outcome, Protocol, Split};
use hg_worker::{ServiceName, WorkerState};
use std::collections::LinkedList;
use std::marker::PhantomData;

/// A part of a service, whose type names none.
pub(crate) trait OfService {
    ghost use Rattle.hg_worker.specs.declared.state.WorkerState.{WorkerState};

    /// Whether it is of the service that a worker with this state is of.
    ghost of_service: { WorkerState → Self → Type 0 };
}

/// What whoever comes to a place knows: the state of one of the service's workers, or nothing as
/// long as nothing has come there; whether a part is out with this caller; and what this caller has
/// taken there and what it has parked, the last first. No value of it is made.
pub(crate) struct Way<T> {
    pub(crate) known: Option<WorkerState>,
    pub(crate) out: bool,
    pub(crate) taken: LinkedList<T>,
    pub(crate) parked: LinkedList<T>,
}

/// All that is parked at a place is of the one service that all who come there know of.
pub(crate) struct OneService;

impl<T: OfService> Protocol<T, Way<T>> for OneService {
    ghost use Rattle.std.specs.Prelude.{None};
    ghost use Rattle.hg_hosted.specs.Parking.{AreOfOne, came_to};

    ghost holds = { AreOfOne T.of_service };

    ghost first = { came_to None };
}

/// The first part comes, of the service N.
pub(crate) struct Founds<N> {
    of: PhantomData<N>,
}

impl<T, N: ServiceName> Outcome<T, Way<T>> for Founds<N> {
    ghost use Rattle.std.specs.Prelude.{◌≡◌, []};
    ghost use Rattle.hg_hosted.specs.Parking.{KnowsName, has_parked};

    ghost then = { λ before part after. KnowsName N.policy N.table after.known
        × (after ≡ has_parked after.known [] [] part) };
}

/// A part comes.
pub(crate) struct Comes;

impl<T> Outcome<T, Way<T>> for Comes {
    ghost use Rattle.std.specs.Prelude.{◌≡◌};
    ghost use Rattle.hg_hosted.specs.Parking.{has_parked};

    ghost then = { λ before part after.
        after ≡ has_parked before.known before.taken before.parked part };
}

/// A part goes: it is of the service.
pub(crate) struct Goes;

impl<T: OfService> Outcome<T, Way<T>> for Goes {
    ghost use Rattle.std.specs.Prelude.{◌≡◌};
    ghost use Rattle.hg_hosted.specs.Parking.{FitsKnown, has_taken};

    ghost then = { λ before part after.
        (after ≡ has_taken before.known before.taken before.parked part)
        × FitsKnown T.of_service before.known part };
}

/// Another comes there, who knows as much and has taken and parked nothing.
pub(crate) struct Twins;

impl<T> Split<Way<T>> for Twins {
    ghost use Rattle.hg_hosted.specs.Parking.{came_to};

    ghost left = { λ own. own };

    ghost right = { λ own. came_to own.known };
}

//! The calls that need what workers share. None waits: where another call has it, nothing is done.

ghost use Rattle.std.specs.Prelude.{◌≡◌, MatchOption};
ghost use Rattle.hg_worker.specs.States.{IsNamed};
ghost use Rattle.hg_machine.specs.declared.Event.TheVariants as event;
ghost use Rattle.hg_hosted.specs.Behind.{Sends, TakesIn, TakesOne, GivesUp};
ghost use Rattle.hg_hosted.specs.Places.{HaveSamePlaces};
ghost use Rattle.hg_hosted.specs.Reaching.{Reaches, Touches};
ghost use Rattle.hg_hosted.specs.Serving.{Serves};
ghost use Rattle.hg_hosted.specs.Shared.{AreHome, AreOfService};
ghost use Rattle.hg_hosted.specs.Waiting.{NeedsShared, Waits};

use crate::parts::Segments;
use crate::shared::Shared;
use crate::worker::HostedWorker;
use hg_machine::Answer;
use hg_queue::ARENAS;
use hg_worker::{KeptPool, ServiceName, Worker, WorkerState};
use std::alloc::Global;
use std::marker::Brand;

fn deliver_by<N: ServiceName>(
    state: Box<WorkerState, Global>,
    shared: &mut Shared,
) -> (Option<Answer>, Box<WorkerState, Global>)
    requires named { IsNamed N.policy N.table state.value }
    requires of { AreOfService N.policy N.table shared.old }
    requires home { AreHome shared.old }
    ensures done { MatchOption result.0 (Waits event.Deliver state.value result.1.value)
        (λ answer. Sends answer state.value result.1.value) }
    ensures named { IsNamed N.policy N.table result.1.value }
    ensures of { AreOfService N.policy N.table shared.new }
    ensures home { AreHome shared.new }
    ensures alone { ¬ (NeedsShared event.Deliver state.value) → shared.new ≡ shared.old }
    ensures touched { Touches event.Deliver state.value shared.old shared.new }
    ensures places { HaveSamePlaces shared.old shared.new }
{
    let mut worker = Worker::<N>::with_name(state);
    let Some(place) = worker.hand() else {
        return (Some(Answer::NothingInHand), worker.without_name());
    };
    let list = &mut shared.lists[usize::from(place.segment)];
    let Some(mut sent) = list.take() else {
        return (None, worker.without_name());
    };
    let answer = worker.deliver_to(&mut sent.list);
    list.put(sent);
    (Some(answer), worker.without_name())
}

fn take_by<N: ServiceName>(
    state: Box<WorkerState, Global>,
    shared: &mut Shared,
    segment: u8,
) -> (Option<Answer>, Box<WorkerState, Global>)
    requires named { IsNamed N.policy N.table state.value }
    requires of { AreOfService N.policy N.table shared.old }
    requires home { AreHome shared.old }
    ensures done { MatchOption result.0 (Waits (event.Take segment) state.value result.1.value)
        (λ answer. TakesIn segment answer state.value result.1.value) }
    ensures named { IsNamed N.policy N.table result.1.value }
    ensures of { AreOfService N.policy N.table shared.new }
    ensures home { AreHome shared.new }
    ensures alone { ¬ (NeedsShared (event.Take segment) state.value) → shared.new ≡ shared.old }
    ensures touched { Touches (event.Take segment) state.value shared.old shared.new }
    ensures places { HaveSamePlaces shared.old shared.new }
{
    let mut worker = Worker::<N>::with_name(state);
    if !worker.holds(segment) {
        return (Some(Answer::NotHeld), worker.without_name());
    }
    let list = &mut shared.lists[usize::from(segment)];
    let Some(mut sent) = list.take() else {
        return (None, worker.without_name());
    };
    let answer = worker.take_from(segment, &mut sent.list);
    list.put(sent);
    (Some(answer), worker.without_name())
}

fn refill_by<N: ServiceName>(
    state: Box<WorkerState, Global>,
    shared: &mut Shared,
    arena: u8,
) -> (Option<Answer>, Box<WorkerState, Global>)
    requires named { IsNamed N.policy N.table state.value }
    requires of { AreOfService N.policy N.table shared.old }
    requires home { AreHome shared.old }
    ensures done { MatchOption result.0 (Waits (event.Refill arena) state.value result.1.value)
        (λ answer. TakesOne arena answer state.value result.1.value) }
    ensures named { IsNamed N.policy N.table result.1.value }
    ensures of { AreOfService N.policy N.table shared.new }
    ensures home { AreHome shared.new }
    ensures alone { ¬ (NeedsShared (event.Refill arena) state.value) → shared.new ≡ shared.old }
    ensures touched { Touches (event.Refill arena) state.value shared.old shared.new }
    ensures places { HaveSamePlaces shared.old shared.new }
{
    let mut worker = Worker::<N>::with_name(state);
    if arena >= ARENAS {
        return (Some(Answer::NoSegment), worker.without_name());
    }
    let Some(segments) = shared.segments.take() else {
        return (None, worker.without_name());
    };
    let mut pool = KeptPool::<N>::with_name(segments.pool);
    let answer = worker.refill_from(arena, &mut pool);
    shared.segments.put(Segments {
        pool: pool.without_name(),
    });
    (Some(answer), worker.without_name())
}

fn abandon_by<N: ServiceName>(
    state: Box<WorkerState, Global>,
    shared: &mut Shared,
    segment: u8,
) -> (Option<Answer>, Box<WorkerState, Global>)
    requires named { IsNamed N.policy N.table state.value }
    requires of { AreOfService N.policy N.table shared.old }
    requires home { AreHome shared.old }
    ensures done { MatchOption result.0 (Waits (event.Abandon segment) state.value result.1.value)
        (λ answer. GivesUp segment answer state.value result.1.value) }
    ensures named { IsNamed N.policy N.table result.1.value }
    ensures of { AreOfService N.policy N.table shared.new }
    ensures home { AreHome shared.new }
    ensures alone { ¬ (NeedsShared (event.Abandon segment) state.value) → shared.new ≡ shared.old }
    ensures touched { Touches (event.Abandon segment) state.value shared.old shared.new }
    ensures places { HaveSamePlaces shared.old shared.new }
{
    let mut worker = Worker::<N>::with_name(state);
    if !worker.holds(segment) {
        return (Some(Answer::NotHeld), worker.without_name());
    }
    let Some(segments) = shared.segments.take() else {
        return (None, worker.without_name());
    };
    let mut pool = KeptPool::<N>::with_name(segments.pool);
    let answer = worker.abandon_to(segment, &mut pool);
    shared.segments.put(Segments {
        pool: pool.without_name(),
    });
    (Some(answer), worker.without_name())
}

impl HostedWorker {
    /// Sends what is in hand to the list of its segment: `NothingInHand` where that is nothing,
    /// `Busy` where the list has it already, and then it stays in the hand. `None`, and nothing is
    /// done, where another call has the list.
    pub fn deliver(&mut self) -> Option<Answer>
        ensures served { MatchOption result (Serves (Waits event.Deliver) self.old self.new)
            (λ answer. Serves (Sends answer) self.old self.new) }
        ensures reach { Reaches event.Deliver self.old self.new }
    {
        let Some(state) = self.state.take() else {
            unreachable!()
        };
        let (answer, state) = deliver_by::<Brand>(state, &mut self.shared);
        self.state = Some(state);
        answer
    }

    /// Takes in what was sent to a segment that the worker holds, else `NotHeld`. `None`, and
    /// nothing is done, where another call has the list.
    pub fn take(&mut self, segment: u8) -> Option<Answer>
        ensures served { MatchOption result (Serves (Waits (event.Take segment)) self.old self.new)
            (λ answer. Serves (TakesIn segment answer) self.old self.new) }
        ensures reach { Reaches (event.Take segment) self.old self.new }
    {
        let Some(state) = self.state.take() else {
            unreachable!()
        };
        let (answer, state) = take_by::<Brand>(state, &mut self.shared, segment);
        self.state = Some(state);
        answer
    }

    /// Takes the oldest orphan of the arena, or else its lowest fresh segment; `NoSegment` where
    /// there is neither, and at once of an arena that no policy has, from 16 on. `None`, and nothing
    /// is done, where another call has the segments.
    pub fn refill(&mut self, arena: u8) -> Option<Answer>
        ensures served { MatchOption result (Serves (Waits (event.Refill arena)) self.old self.new)
            (λ answer. Serves (TakesOne arena answer) self.old self.new) }
        ensures reach { Reaches (event.Refill arena) self.old self.new }
    {
        let Some(state) = self.state.take() else {
            unreachable!()
        };
        let (answer, state) = refill_by::<Brand>(state, &mut self.shared, arena);
        self.state = Some(state);
        answer
    }

    /// Gives up a segment that the worker holds, with the blocks that live there, else `NotHeld`.
    /// `None`, and nothing is done, where another call has the segments.
    pub fn abandon(&mut self, segment: u8) -> Option<Answer>
        ensures served { MatchOption result (Serves (Waits (event.Abandon segment)) self.old self.new)
            (λ answer. Serves (GivesUp segment answer) self.old self.new) }
        ensures reach { Reaches (event.Abandon segment) self.old self.new }
    {
        let Some(state) = self.state.take() else {
            unreachable!()
        };
        let (answer, state) = abandon_by::<Brand>(state, &mut self.shared, segment);
        self.state = Some(state);
        answer
    }
}

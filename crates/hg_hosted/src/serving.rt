//! The calls of a worker that take no lock.

ghost use Rattle.std.specs.Prelude.{◌≡◌, MatchResult};
ghost use Rattle.hg_worker.specs.States.{IsNamed};
ghost use Rattle.hg_hosted.specs.Behind.{Stays};
ghost use Rattle.hg_hosted.specs.Calls.{Allocates, Collects, Frees, ListsAll, LooksAt};
ghost use Rattle.hg_hosted.specs.Calls.{Reads, Writes};
ghost use Rattle.hg_hosted.specs.Serving.{Serves};

use crate::worker::HostedWorker;
use hg_machine::{Answer, Row};
use hg_place::{Actor, Handle, Place};
use hg_worker::{ServiceName, Worker, WorkerState};
use std::alloc::{AllocError, Global};
use std::marker::Brand;

fn alloc_by<N: ServiceName>(
    state: Box<WorkerState, Global>,
    actor: Actor,
    arena: u8,
    bytes: u64,
) -> (Answer, Box<WorkerState, Global>)
    requires { IsNamed N.policy N.table state.value }
    ensures done { Allocates actor arena bytes result.0 state.value result.1.value }
    ensures named { IsNamed N.policy N.table result.1.value }
{
    let mut worker = Worker::<N>::with_name(state);
    let answer = worker.alloc(actor, arena, bytes);
    (answer, worker.without_name())
}

fn collect_by<N: ServiceName>(state: Box<WorkerState, Global>) -> (Answer, Box<WorkerState, Global>)
    requires { IsNamed N.policy N.table state.value }
    ensures done { Collects result.0 state.value result.1.value }
    ensures named { IsNamed N.policy N.table result.1.value }
{
    let mut worker = Worker::<N>::with_name(state);
    let answer = worker.collect_own();
    (answer, worker.without_name())
}

fn free_by<N: ServiceName>(
    state: Box<WorkerState, Global>,
    actor: Actor,
    handle: Handle,
) -> (Answer, Box<WorkerState, Global>)
    requires { IsNamed N.policy N.table state.value }
    ensures done { Frees actor handle result.0 state.value result.1.value }
    ensures named { IsNamed N.policy N.table result.1.value }
{
    let mut worker = Worker::<N>::with_name(state);
    let answer = worker.free(actor, handle);
    (answer, worker.without_name())
}

fn read_by<N: ServiceName>(
    state: Box<WorkerState, Global>,
    actor: Actor,
    handle: Handle,
    index: u32,
) -> (Answer, Box<WorkerState, Global>)
    requires { IsNamed N.policy N.table state.value }
    ensures done { Reads actor handle index result.0 state.value result.1.value }
    ensures named { IsNamed N.policy N.table result.1.value }
{
    let mut worker = Worker::<N>::with_name(state);
    let answer = worker.read(actor, handle, index);
    (answer, worker.without_name())
}

fn write_by<N: ServiceName>(
    state: Box<WorkerState, Global>,
    actor: Actor,
    handle: Handle,
    index: u32,
    value: u64,
) -> (Answer, Box<WorkerState, Global>)
    requires { IsNamed N.policy N.table state.value }
    ensures done { Writes actor handle index value result.0 state.value result.1.value }
    ensures named { IsNamed N.policy N.table result.1.value }
{
    let mut worker = Worker::<N>::with_name(state);
    let answer = worker.write(actor, handle, index, value);
    (answer, worker.without_name())
}

fn look_by<N: ServiceName>(
    state: Box<WorkerState, Global>,
    actor: Actor,
    place: Place,
) -> (Answer, Box<WorkerState, Global>)
    requires { IsNamed N.policy N.table state.value }
    ensures done { LooksAt actor place result.0 state.value result.1.value }
    ensures named { IsNamed N.policy N.table result.1.value }
{
    let mut worker = Worker::<N>::with_name(state);
    let answer = worker.look(actor, place);
    (answer, worker.without_name())
}

fn list_by<N: ServiceName>(
    state: Box<WorkerState, Global>,
    alloc: Global,
    actor: Actor,
) -> (Result<Vec<Row>, AllocError>, Box<WorkerState, Global>)
    requires { IsNamed N.policy N.table state.value }
    ensures done { MatchResult result.0
        (λ rows. ListsAll actor rows.items state.value result.1.value)
        (λ refused. Stays state.value result.1.value) }
    ensures named { IsNamed N.policy N.table result.1.value }
{
    let mut worker = Worker::<N>::with_name(state);
    let rows = worker.list(alloc, actor);
    (rows, worker.without_name())
}

impl HostedWorker {
    /// Gives out a block of so many bytes, all words 0, of a segment of the arena that the worker
    /// holds, by one step at its place.
    pub fn alloc(&mut self, actor: Actor, arena: u8, bytes: u64) -> Answer
        ensures served { Serves (Allocates actor arena bytes result) self.old self.new }
        ensures alone { self.new.shared ≡ self.old.shared }
    {
        let Some(state) = self.state.take() else {
            unreachable!()
        };
        let (answer, state) = alloc_by::<Brand>(state, actor, arena, bytes);
        self.state = Some(state);
        answer
    }

    /// Takes the class from each page of the worker's that has no open place, and tells from how
    /// many.
    pub fn collect(&mut self) -> Answer
        ensures served { Serves (Collects result) self.old self.new }
        ensures alone { self.new.shared ≡ self.old.shared }
    {
        let Some(state) = self.state.take() else {
            unreachable!()
        };
        let (answer, state) = collect_by::<Brand>(state);
        self.state = Some(state);
        answer
    }

    /// Frees a block: `Done` where the worker holds its segment, and its place is home; else
    /// `Parted`, and its place is in the worker's hand.
    pub fn free(&mut self, actor: Actor, handle: Handle) -> Answer
        ensures served { Serves (Frees actor handle result) self.old self.new }
        ensures alone { self.new.shared ≡ self.old.shared }
    {
        let Some(state) = self.state.take() else {
            unreachable!()
        };
        let (answer, state) = free_by::<Brand>(state, actor, handle);
        self.state = Some(state);
        answer
    }

    /// Reads a word of a block: `Elsewhere` where the worker doesn't hold its segment.
    pub fn read(&mut self, actor: Actor, handle: Handle, index: u32) -> Answer
        ensures served { Serves (Reads actor handle index result) self.old self.new }
        ensures alone { self.new.shared ≡ self.old.shared }
    {
        let Some(state) = self.state.take() else {
            unreachable!()
        };
        let (answer, state) = read_by::<Brand>(state, actor, handle, index);
        self.state = Some(state);
        answer
    }

    /// Writes a word of a block. Its answers are those of `read`, by the right to write.
    pub fn write(&mut self, actor: Actor, handle: Handle, index: u32, value: u64) -> Answer
        ensures served { Serves (Writes actor handle index value result) self.old self.new }
        ensures alone { self.new.shared ≡ self.old.shared }
    {
        let Some(state) = self.state.take() else {
            unreachable!()
        };
        let (answer, state) = write_by::<Brand>(state, actor, handle, index, value);
        self.state = Some(state);
        answer
    }

    /// Shows the actor the block at a place.
    pub fn look(&mut self, actor: Actor, place: Place) -> Answer
        ensures served { Serves (LooksAt actor place result) self.old self.new }
        ensures alone { self.new.shared ≡ self.old.shared }
    {
        let Some(state) = self.state.take() else {
            unreachable!()
        };
        let (answer, state) = look_by::<Brand>(state, actor, place);
        self.state = Some(state);
        answer
    }

    /// Shows the actor the blocks that the worker holds: one look at each place that its segments
    /// record as open, rising. An error is want of memory, and then nothing was looked at.
    pub fn list(&mut self, alloc: Global, actor: Actor) -> Result<Vec<Row>, AllocError>
        ensures served { MatchResult result
            (λ rows. Serves (ListsAll actor rows.items) self.old self.new)
            (λ refused. Serves Stays self.old self.new) }
        ensures alone { self.new.shared ≡ self.old.shared }
    {
        let Some(state) = self.state.take() else {
            unreachable!()
        };
        let (rows, state) = list_by::<Brand>(state, alloc, actor);
        self.state = Some(state);
        rows
    }
}

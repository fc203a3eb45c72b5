//! The calls of the core, one for each event.

ghost use Rattle.std.specs.Prelude.{◌<◌};
ghost use Rattle.hg_heap.specs.Answers.{alloc_answer, read_answer, done_answer, look_answer};
ghost use Rattle.hg_machine.specs.declared.Answer.TheVariants as Answer;
ghost use Rattle.hg_machine.specs.declared.Event.TheVariants as Event;
ghost use Rattle.hg_machine.specs.Lists.{IsPartition};
ghost use Rattle.hg_machine.specs.Soundness.{IsSound};
ghost use Rattle.hg_machine.specs.Steps.{Step};
ghost use Rattle.hg_choice.specs.ChosenSteps.{ChosenStep};
ghost use Rattle.hg_core.specs.Answers.{free_answer, deliver_answer, take_answer};
ghost use Rattle.hg_core.specs.Answers.{abandon_answer, refill_answer};

use crate::refusals::{Freed, NoSegment, NotFreed, NotHeld, NothingInHand};
use crate::serving::Core;
use hg_heap::Refused;
use hg_machine::Row;
use hg_place::{Actor, Handle, Place};

impl Core {
    /// Gives out a block of so many bytes, in whole words of 8 and one word at least, all of them
    /// 0, of a segment of the arena that the worker holds: at the place of the order of choice. A
    /// refusal changes nothing. `Denied` names the first rule that refuses: `Stranger`,
    /// `ForeignArena`, `OverLimit` by what the actor has in the worker's heap; `TooLarge` is above
    /// 65,536 bytes; `NoRoom` where no place of those segments may have such a block.
    pub fn alloc(
        &mut self,
        worker: u8,
        actor: Actor,
        arena: u8,
        bytes: u64,
    ) -> Result<Handle, Refused>
        requires worker { worker < self.old.state.policy.workers }
        ensures step { Step self.old.state worker (Event.Alloc actor arena bytes)
            (alloc_answer result) self.new.state }
        ensures chosen { ChosenStep self.old worker (Event.Alloc actor arena bytes)
            (alloc_answer result) self.new }
        ensures kept { IsSound self.new.state × IsPartition self.new }
    {
        self.stores.alloc(worker, actor, arena, bytes)
    }

    /// Frees a block: its place goes home where the worker holds its segment, else into the
    /// worker's hand, where it stays until `deliver`. A refusal changes nothing. `Denied` names the
    /// first rule that refuses: `Stranger`, `Stale`, `AlreadyFreed`, `ForeignArena`, `Forbidden`,
    /// `NotGranted`; `Busy` is a block of a segment that the worker doesn't hold while its hand has
    /// a place.
    pub fn free(&mut self, worker: u8, actor: Actor, handle: Handle) -> Result<Freed, NotFreed>
        requires worker { worker < self.old.state.policy.workers }
        ensures step { Step self.old.state worker (Event.Free actor handle)
            (free_answer result) self.new.state }
        ensures chosen { ChosenStep self.old worker (Event.Free actor handle)
            (free_answer result) self.new }
        ensures kept { IsSound self.new.state × IsPartition self.new }
    {
        self.stores.free(worker, actor, handle)
    }

    /// Sends the place that the worker has in hand to the segment's remote list, from where its
    /// holder takes it. `NothingInHand` changes nothing.
    pub fn deliver(&mut self, worker: u8) -> Result<(), NothingInHand>
        requires worker { worker < self.old.state.policy.workers }
        ensures step { Step self.old.state worker Event.Deliver (deliver_answer result)
            self.new.state }
        ensures chosen { ChosenStep self.old worker Event.Deliver (deliver_answer result) self.new }
        ensures kept { IsSound self.new.state × IsPartition self.new }
    {
        self.stores.deliver(worker)
    }

    /// Takes in what was sent to a segment that the worker holds, and tells how many places came
    /// home. `NotHeld` changes nothing; nobody holds a segment that the policy lacks.
    pub fn take(&mut self, worker: u8, segment: u8) -> Result<u32, NotHeld>
        requires worker { worker < self.old.state.policy.workers }
        ensures step { Step self.old.state worker (Event.Take segment) (take_answer result)
            self.new.state }
        ensures chosen { ChosenStep self.old worker (Event.Take segment)
            (take_answer result) self.new }
        ensures kept { IsSound self.new.state × IsPartition self.new }
    {
        self.stores.take(worker, segment)
    }

    /// Takes the class from each page of the worker's that has no open place, and tells from how
    /// many. It is never refused.
    pub fn collect(&mut self, worker: u8) -> u32
        requires worker { worker < self.old.state.policy.workers }
        ensures step { Step self.old.state worker Event.Collect (Answer.Pages result)
            self.new.state }
        ensures chosen { ChosenStep self.old worker Event.Collect (Answer.Pages result) self.new }
        ensures kept { IsSound self.new.state × IsPartition self.new }
    {
        self.stores.collect(worker)
    }

    /// Reads a word of a block of a segment that the worker holds, counted from the block's first,
    /// which is 0. A refusal changes nothing. `Denied` names the first rule that refuses, as for
    /// `free`; `Elsewhere` is a block of a segment that the worker doesn't hold; `OutOfBlock` is an
    /// index from the block's number of words on.
    pub fn read(
        &mut self,
        worker: u8,
        actor: Actor,
        handle: Handle,
        index: u32,
    ) -> Result<u64, Refused>
        requires worker { worker < self.old.state.policy.workers }
        ensures step { Step self.old.state worker (Event.Read actor handle index)
            (read_answer result) self.new.state }
        ensures chosen { ChosenStep self.old worker (Event.Read actor handle index)
            (read_answer result) self.new }
        ensures kept { IsSound self.new.state × IsPartition self.new }
    {
        self.stores.read(worker, actor, handle, index)
    }

    /// Writes a word of a block of a segment that the worker holds. Its refusals are those of
    /// `read`, by the right to write, and change nothing.
    pub fn write(
        &mut self,
        worker: u8,
        actor: Actor,
        handle: Handle,
        index: u32,
        value: u64,
    ) -> Result<(), Refused>
        requires worker { worker < self.old.state.policy.workers }
        ensures step { Step self.old.state worker (Event.Write actor handle index value)
            (done_answer result) self.new.state }
        ensures chosen { ChosenStep self.old worker (Event.Write actor handle index value)
            (done_answer result) self.new }
        ensures kept { IsSound self.new.state × IsPartition self.new }
    {
        self.stores.write(worker, actor, handle, index, value)
    }

    /// Shows the actor the block at a place of a segment that the worker holds. A refusal changes
    /// nothing: `Denied` by the first rule that refuses, as for `free`, where no block lives there
    /// or the actor may not list it; `Elsewhere` where the worker doesn't hold the segment.
    pub fn look(&mut self, worker: u8, actor: Actor, place: Place) -> Result<Row, Refused>
        requires worker { worker < self.old.state.policy.workers }
        ensures step { Step self.old.state worker (Event.Look actor place)
            (look_answer result) self.new.state }
        ensures chosen { ChosenStep self.old worker (Event.Look actor place)
            (look_answer result) self.new }
        ensures kept { IsSound self.new.state × IsPartition self.new }
    {
        self.stores.look(worker, actor, place)
    }

    /// The worker gives up a segment that it holds, with its blocks: it is the last orphan then.
    /// `NotHeld` changes nothing.
    pub fn abandon(&mut self, worker: u8, segment: u8) -> Result<(), NotHeld>
        requires worker { worker < self.old.state.policy.workers }
        ensures step { Step self.old.state worker (Event.Abandon segment) (abandon_answer result)
            self.new.state }
        ensures chosen { ChosenStep self.old worker (Event.Abandon segment)
            (abandon_answer result) self.new }
        ensures kept { IsSound self.new.state × IsPartition self.new }
    {
        self.stores.abandon(worker, segment)
    }

    /// The worker takes the oldest orphan of the arena, or else its lowest fresh segment, and tells
    /// its number. `NoSegment`, where nobody gave one up and none is fresh, changes nothing.
    pub fn refill(&mut self, worker: u8, arena: u8) -> Result<u8, NoSegment>
        requires worker { worker < self.old.state.policy.workers }
        ensures step { Step self.old.state worker (Event.Refill arena) (refill_answer result)
            self.new.state }
        ensures chosen { ChosenStep self.old worker (Event.Refill arena)
            (refill_answer result) self.new }
        ensures kept { IsSound self.new.state × IsPartition self.new }
    {
        self.stores.refill(worker, arena)
    }
}

//! The calls that name their core.

ghost use Rattle.std.specs.Prelude.{Some};
ghost use Rattle.hg_machine.specs.declared.Event.TheVariants as event;
ghost use Rattle.hg_bank_service.specs.Named.{ServesIn};

use crate::worker::BankWorker;
use hg_bank::{BankHandle, BankSegment};
use hg_machine::{Answer, Event};
use hg_place::{Actor, Place};

impl BankWorker {
    /// Frees a block, as its core's worker does: `Done` where that holds its segment; else `Parted`,
    /// and its place is in the worker's hand in that core. A block of a core that isn't there is
    /// `Stale(0)` to a tenant.
    pub fn free(&mut self, actor: Actor, block: BankHandle) -> Answer
        ensures { ServesIn block.core (event.Free actor block.handle) (Some result) self.old
            self.new }
    {
        let handle = block.handle;
        let Some(answer) = self.counting(block.core, Event::Free { actor, handle }) else {
            unreachable!()
        };
        answer
    }

    /// Reads a word of a block, as its core's worker does. A block of a core that isn't there is
    /// `Stale(0)` to a tenant.
    pub fn read(&mut self, actor: Actor, block: BankHandle, index: u32) -> Answer
        ensures { ServesIn block.core (event.Read actor block.handle index) (Some result) self.old
            self.new }
    {
        let handle = block.handle;
        let asked = Event::Read {
            actor,
            handle,
            index,
        };
        let Some(answer) = self.calm(block.core, asked) else {
            unreachable!()
        };
        answer
    }

    /// Writes a word of a block, as its core's worker does. A block of a core that isn't there is
    /// `Stale(0)` to a tenant.
    pub fn write(&mut self, actor: Actor, block: BankHandle, index: u32, value: u64) -> Answer
        ensures { ServesIn block.core (event.Write actor block.handle index value) (Some result)
            self.old self.new }
    {
        let handle = block.handle;
        let asked = Event::Write {
            actor,
            handle,
            index,
            value,
        };
        let Some(answer) = self.calm(block.core, asked) else {
            unreachable!()
        };
        answer
    }

    /// Shows the actor the block at a place of a core. A place of a core that isn't there is
    /// `Stale(0)` to a tenant.
    pub fn look(&mut self, actor: Actor, core: u16, place: Place) -> Answer
        ensures { ServesIn core (event.Look actor place) (Some result) self.old self.new }
    {
        let Some(answer) = self.calm(core, Event::Look { actor, place }) else {
            unreachable!()
        };
        answer
    }

    /// Takes the class from each page of the worker's in a core that has no open place, and tells
    /// from how many: from none in a core that isn't there.
    pub fn collect(&mut self, core: u16) -> Answer
        ensures { ServesIn core event.Collect (Some result) self.old self.new }
    {
        let Some(answer) = self.counting(core, Event::Collect) else {
            unreachable!()
        };
        answer
    }

    /// Sends what is in hand in a core to the list of its segment there: `NothingInHand` where that
    /// is nothing, as in a core that isn't there; `Busy` where the list has it already. `None`, and
    /// nothing is done, where another call has the list.
    pub fn deliver(&mut self, core: u16) -> Option<Answer>
        ensures { ServesIn core event.Deliver result self.old self.new }
    {
        self.calm(core, Event::Deliver)
    }

    /// Takes in what was sent to a segment that the worker holds, else `NotHeld`. Nobody holds a
    /// segment of a core that isn't there. `None`, and nothing is done, where another call has the
    /// list.
    pub fn take(&mut self, segment: BankSegment) -> Option<Answer>
        ensures { ServesIn segment.core (event.Take segment.segment) result self.old self.new }
    {
        let taken = segment.segment;
        self.counting(segment.core, Event::Take { segment: taken })
    }

    /// Gives up a segment that the worker holds, with the blocks that live there, else `NotHeld`.
    /// Nobody holds a segment of a core that isn't there. `None`, and nothing is done, where another
    /// call has the core's segments.
    pub fn abandon(&mut self, segment: BankSegment) -> Option<Answer>
        ensures { ServesIn segment.core (event.Abandon segment.segment) result self.old
            self.new }
    {
        let given_up = segment.segment;
        self.counting(segment.core, Event::Abandon { segment: given_up })
    }
}

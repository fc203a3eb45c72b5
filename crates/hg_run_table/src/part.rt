use hg_machine::{Answer, Event};
use hg_table::View;
use std::collections::LinkedList;
use std::marker::Model;

/// Which part of a service it is, by the number of the worker or of the segment.
pub enum PartName {
    Worker(u8),
    Remote(u8),
    Pool,
    Segment(u8),
}

/// A state of the machine. No value of it is made: it takes no room in a run.
pub struct Witness {
    nothing: u8,
}

impl Model for Witness {
    ghost use Rattle.hg_machine.specs.State.{State};

    ghost Value = { State };

    ghost use Rattle.hg_run_table.specs.Unused.{unused_state};

    ghost view = { λ _. unused_state };
}

/// What a seat has of one part. No value of it is made either.
pub struct Part {
    pub name: PartName,
    /// The calls that were made in this name, with their answers, in their order.
    pub log: LinkedList<(Event, Answer)>,
    /// What a worker is asked: the events that the next answering step answers, behind these
    /// those of the one after it, and so on. Of another part it says nothing.
    pub asked: LinkedList<LinkedList<Event>>,
    /// A state that has of this part what the seat has of it.
    pub witness: Witness,
}

/// What a seat knows: of words and lives, and of the run of all calls, of which it has one part; or
/// more, where it took in others; or none, where it was taken in.
pub struct SeatView {
    pub lives: View,
    pub run: LinkedList<Part>,
}

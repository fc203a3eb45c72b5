//! What a trace says, line by line.

ghost use Rattle.std.specs.Prelude.{◌≡◌};
ghost use Rattle.hg_trace.specs.Labels.{gives_label};

use crate::name::Name;
use hg_place::{Handle, Place};

/// A block, as an operand names it.
#[derive(Clone, Copy, Debug, PartialEq, Eq)]
pub enum BlockName {
    Handle(Handle),
    /// What the allocation of this label was answered. Labels are numbered from 0, in the order in
    /// which lines give them.
    Label(usize),
}

/// A command of a worker, with its operands.
#[derive(Drop)]
pub enum Command<'a> {
    Alloc {
        actor: Name<'a>,
        arena: Name<'a>,
        bytes: u64,
        /// The label that the line gives.
        label: Option<Name<'a>>,
    },
    Free {
        actor: Name<'a>,
        block: BlockName,
    },
    Deliver,
    Take {
        segment: u8,
    },
    Collect,
    Read {
        actor: Name<'a>,
        block: BlockName,
        index: u32,
    },
    Write {
        actor: Name<'a>,
        block: BlockName,
        index: u32,
        value: u64,
    },
    Look {
        actor: Name<'a>,
        place: Place,
    },
    List {
        actor: Name<'a>,
    },
    Abandon {
        segment: u8,
    },
    Refill {
        arena: Name<'a>,
    },
}

impl Command<'_> {
    /// Whether its line gives a label.
    pub fn gives_label(&self) -> bool
        ensures { result ≡ gives_label self.now }
    {
        matches!(self, Command::Alloc { label: Some(_), .. })
    }
}

/// A line that has a command. Lines are numbered from 1.
#[derive(Drop)]
pub struct Line<'a> {
    pub number: u64,
    pub worker: u8,
    pub command: Command<'a>,
}

//! A trace: its lines, as they were read.

ghost use Rattle.std.specs.Prelude.{◌≡◌, ◌≢◌, ◌++◌, ◌∷◌, ◌+◌, ◌-◌, [], true, false, length};
ghost use Rattle.std.specs.Prelude.{OnOk, IfErr, slice_get, replicate};
ghost use Rattle.hg_labels.specs.Indexes.{texts};
ghost use Rattle.hg_trace.specs.Labels.{repeats, with_label, label_count};
ghost use Rattle.hg_trace.specs.Workers.{first_from};
ghost use Rattle.hg_trace.specs.Stored.{named, command_in, line_in, lines_in, AreNumbered};

use crate::fault::{LineFault, TraceFault};
use crate::labels::Labels;
use crate::line::{Command, Line};
use crate::name::Name;
use crate::numbering::Numbering;
use crate::stored::{StoredCommand, StoredLine, block_in, short};
use arrayvec::ArrayVec;
use std::alloc::Global;
use std::marker::Model;

/// The lines that have a command, in order, and the names and labels that stand in them.
#[derive(Drop)]
pub struct Trace<'a> {
    names: Numbering<'a>,
    labels: Labels<'a>,
    lines: Vec<StoredLine>,
    /// For each worker the number of the first line of a worker from that one on, as far as there
    /// is such a line.
    firsts: ArrayVec<u64, 256>,
}

impl<'a> Model for Trace<'a> {
    ghost use Rattle.hg_trace.specs.Stored.{Store, IsStore};

    ghost Value = { Store };

    ghost view = { λ trace. record {
      names = trace.names;
      labels = trace.labels;
      lines = trace.lines.items;
    } };

    ghost invariant = { λ trace. IsStore (record {
      names = trace.names;
      labels = trace.labels;
      lines = trace.lines.items;
    }) trace.firsts.items };
}

/// The name that a number stands for.
fn name_at<'a>(names: &[&'a str], number: u32) -> Name<'a>
    ensures { result ≡ named (texts names.now) number }
{
    match names.get(number as usize) {
        Some(text) => Name::known(*text),
        None => Name::known(""),
    }
}

/// What a stored command says, where these are the names and the labels.
fn command_in<'a>(names: &[&'a str], labels: &[&'a str], command: StoredCommand) -> Command<'a>
    ensures { result ≡ command_in (texts names.now) (texts labels.now) command }
{
    match command {
        StoredCommand::Alloc {
            actor,
            arena,
            bytes,
            label,
        } => Command::Alloc {
            actor: name_at(names, actor),
            arena: name_at(names, arena),
            bytes,
            label: match label {
                Some(label) => Some(name_at(labels, label)),
                None => None,
            },
        },
        StoredCommand::Free { actor, block } => Command::Free {
            actor: name_at(names, actor),
            block: block_in(block),
        },
        StoredCommand::Deliver => Command::Deliver,
        StoredCommand::Take { segment } => Command::Take { segment },
        StoredCommand::Collect => Command::Collect,
        StoredCommand::Read {
            actor,
            block,
            index,
        } => Command::Read {
            actor: name_at(names, actor),
            block: block_in(block),
            index,
        },
        StoredCommand::Write {
            actor,
            block,
            index,
            value,
        } => Command::Write {
            actor: name_at(names, actor),
            block: block_in(block),
            index,
            value,
        },
        StoredCommand::Look { actor, place } => Command::Look {
            actor: name_at(names, actor),
            place,
        },
        StoredCommand::List { actor } => Command::List {
            actor: name_at(names, actor),
        },
        StoredCommand::Abandon { segment } => Command::Abandon { segment },
        StoredCommand::Refill { arena } => Command::Refill {
            arena: name_at(names, arena),
        },
    }
}

/// What a stored line says.
fn line_in<'a>(names: &[&'a str], labels: &[&'a str], line: &StoredLine) -> Line<'a>
    ensures { result ≡ line_in (texts names.now) (texts labels.now) line.now }
{
    Line {
        number: u64::from(line.number),
        worker: line.worker,
        command: command_in(names, labels, line.command),
    }
}

/// Where a line's worker is above those of all lines before it: for each worker in between and for
/// its own it is the first line from that one on.
fn note_first(firsts: &mut ArrayVec<u64, 256>, worker: u8, number: u64)
    ensures { firsts.new.items ≡ firsts.old.items
        ++ replicate (worker + 1 - length firsts.old.items) number }
{
    while firsts.len() <= usize::from(worker) {
        firsts.push(number);
    }
}

impl<'a> Trace<'a> {
    pub(crate) fn new(alloc: Global) -> Trace<'a>
        ensures { result ≡ record { names = []; labels = []; lines = [] } }
    {
        Trace {
            names: Numbering::new(alloc),
            labels: Labels::new(alloc),
            lines: Vec::new(alloc),
            firsts: ArrayVec::new(),
        }
    }

    /// The labels that the lines gave.
    pub(crate) fn labels(&self) -> &Labels<'a>
        ensures { result.now ≡ self.now.labels }
    {
        &self.labels
    }

    /// The line goes behind the others, unless it gives a label again.
    pub(crate) fn push(&mut self, line: &Line<'a>) -> Result<(), TraceFault>
        ensures fresh { OnOk result (repeats self.old.labels line.now.command ≡ false) }
        ensures lines { OnOk result (lines_in self.new ≡ lines_in self.old ++ line.now ∷ []) }
        ensures labels { OnOk result
            (self.new.labels ≡ with_label self.old.labels line.now.command) }
        ensures err { IfErr result (λ fault. fault ≢ TraceFault.Memory
            → (repeats self.old.labels line.now.command ≡ true)
            × (fault ≡ TraceFault.Line line.now.number LineFault.RepeatedLabel)) }
    {
        let number = short(line.number)?;
        let command = self.names.stored(&line.command, self.labels.count())?;
        self.lines.reserve(1)?;
        if !self.labels.add(&line.command)? {
            return Err(LineFault::RepeatedLabel.at(line.number));
        }
        self.lines.push_reserved(StoredLine {
            number,
            worker: line.worker,
            command,
        });
        note_first(&mut self.firsts, line.worker, line.number);
        Ok(())
    }

    /// The lines that have a command, in order.
    pub fn stored(&self) -> &[StoredLine]
        ensures lines { result.now ≡ self.now.lines }
        ensures numbered { AreNumbered self.now }
    {
        &self.lines
    }

    /// The names that stand as actors and arenas, each once, at its number.
    pub fn names(&self) -> &[&'a str]
        ensures { texts result.now ≡ self.now.names }
    {
        self.names.names()
    }

    /// What a line says, by its place from 0, if there is one.
    pub fn line(&self, at: usize) -> Option<Line<'a>>
        ensures { result ≡ slice_get (lines_in self.now) at }
    {
        let line = self.lines.get(at)?;
        Some(line_in(self.names.names(), self.labels.names(), line))
    }

    /// How many labels the lines give.
    pub fn label_count(&self) -> usize
        ensures { result ≡ label_count (lines_in self.now) }
    {
        self.labels.count()
    }

    /// The number of the first line whose worker is this one or one above it, if there is one.
    pub fn first_from(&self, worker: u8) -> Option<u64>
        ensures { result ≡ first_from worker (lines_in self.now) }
    {
        self.firsts.get(usize::from(worker)).copied()
    }
}

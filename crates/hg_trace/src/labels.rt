//! The labels that lines gave.

ghost use Rattle.std.specs.Prelude.{◌≡◌, ◌∷◌, ◌++◌, [], true, false, not, position, length};
ghost use Rattle.std.specs.Prelude.{bytes_eq, IfOk, IfErr, OnErr};
ghost use Rattle.hg_labels.specs.Indexes.{texts};
ghost use Rattle.hg_policy.specs.Names.{is_among};
ghost use Rattle.hg_trace.specs.Labels.{repeats, with_label};

use crate::fault::TraceFault;
use crate::line::Command;
use hg_labels::Names;
use std::alloc::Global;
use std::marker::Model;

/// The labels that lines gave, in order, where they stand in the bytes of a trace. A label is found
/// in a few steps, whatever the labels are: a trace may give a label in each of its lines.
#[derive(Drop)]
pub(crate) struct Labels<'a> {
    names: Names<'a>,
}

impl<'a> Model for Labels<'a> {
    ghost use Rattle.std.specs.Prelude.{ℕ, List};

    ghost Value = { List (List ℕ) };

    ghost view = { λ labels. labels.names };
}

impl<'a> Labels<'a> {
    pub(crate) fn new(alloc: Global) -> Labels<'a>
        ensures { result ≡ [] }
    {
        Labels {
            names: Names::new(alloc),
        }
    }

    /// How many there are.
    pub(crate) fn count(&self) -> usize
        ensures { result ≡ length self.now }
    {
        self.names.names().len()
    }

    /// The labels, each at its number.
    pub(crate) fn names(&self) -> &[&'a str]
        ensures { texts result.now ≡ self.now }
    {
        self.names.names()
    }

    /// The number of a label, from 0.
    pub(crate) fn position_of(&self, name: &str) -> Option<usize>
        ensures { result ≡ position (λ label. bytes_eq name.now label) self.now }
    {
        self.names.position_of(name)
    }

    /// A label goes behind the others, unless it is one of them. Tells whether it wasn't.
    fn push(&mut self, name: &'a str) -> Result<bool, TraceFault>
        ensures added { IfOk result (λ added. added ≡ not (is_among name.now self.old)) }
        ensures ok { IfOk result
            (λ added. added ≡ true → self.new ≡ self.old ++ name.now ∷ []) }
        ensures known { IfOk result (λ added. added ≡ false → self.new ≡ self.old) }
        ensures err { IfErr result (λ fault. fault ≡ TraceFault.Memory) }
        ensures kept { OnErr result (self.new ≡ self.old) }
    {
        let added = self.names.push(name)?;
        Ok(added)
    }

    /// The label that a command gives, if it gives one, goes behind the others, unless it is one of
    /// them. Tells whether it wasn't.
    pub(crate) fn add(&mut self, command: &Command<'a>) -> Result<bool, TraceFault>
        ensures added { IfOk result (λ added. added ≡ not (repeats self.old command.now)) }
        ensures ok { IfOk result
            (λ added. added ≡ true → self.new ≡ with_label self.old command.now) }
        ensures known { IfOk result (λ added. added ≡ false → self.new ≡ self.old) }
        ensures err { IfErr result (λ fault. fault ≡ TraceFault.Memory) }
        ensures kept { OnErr result (self.new ≡ self.old) }
    {
        match command {
            Command::Alloc {
                label: Some(label),
                ..
            } => self.push(label.as_str()),
            _ => Ok(true),
        }
    }
}

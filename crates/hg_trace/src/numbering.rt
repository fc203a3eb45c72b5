//! Names by their numbers.

ghost use Rattle.std.specs.Prelude.{◌≡◌, ◌++◌, ◌<◌, ℕ, List, [], Some, IfOk, IfErr};
ghost use Rattle.std.specs.Prelude.{slice_get, option_map};
ghost use Rattle.hg_labels.specs.Indexes.{texts};
ghost use Rattle.hg_trace.specs.Stored.{Says};

use crate::fault::TraceFault;
use crate::line::Command;
use crate::name::Name;
use crate::stored::{StoredCommand, short, stored_block};
use hg_labels::Names;
use std::alloc::Global;
use std::marker::Model;

/// How many names are found without a hash.
const SLOTS: usize = 256;

/// The names of tenants and arenas, numbered from 0 in the order in which they first came. A name
/// has one slot, which may keep the number of another: then it is looked for among all.
#[derive(Drop)]
pub(crate) struct Numbering<'a> {
    names: Names<'a>,
    slots: [u32; SLOTS],
}

impl<'a> Model for Numbering<'a> {
    ghost use Rattle.std.specs.Prelude.{ℕ, List};

    ghost Value = { List (List ℕ) };

    ghost view = { λ numbering. numbering.names };
}

/// Where a name's number is kept. Names that differ mostly do so in their ends or their lengths.
fn slot_of(name: &str) -> usize
    ensures { result < 256 }
{
    let ends = match name.as_bytes() {
        [] => 0,
        [only] => usize::from(*only),
        [first, .., last] => usize::from(*first) + 5 * usize::from(*last),
    };
    (ends + 31 * (name.len() % SLOTS)) % SLOTS
}

impl<'a> Numbering<'a> {
    pub(crate) fn new(alloc: Global) -> Numbering<'a>
        ensures { result ≡ [] }
    {
        Numbering {
            names: Names::new(alloc),
            slots: [0; SLOTS],
        }
    }

    /// The names, each at its number.
    pub(crate) fn names(&self) -> &[&'a str]
        ensures { texts result.now ≡ self.now }
    {
        self.names.names()
    }

    /// The number of a name that no slot keeps. It isn't built into its caller, which seldom comes
    /// here.
    #[inline(never)]
    fn find_or_push(&mut self, name: &'a str) -> Result<u32, TraceFault>
        ensures stands { IfOk result (λ number. slice_get self.new number ≡ Some name.now) }
        ensures grows { (more : List (List ℕ)) × (self.new ≡ self.old ++ more) }
        ensures err { IfErr result (λ fault. fault ≡ TraceFault.Memory) }
    {
        match self.names.position_of(name) {
            Some(number) => short(number as u64),
            None => {
                let number = self.names.names().len();
                self.names.push(name)?;
                short(number as u64)
            }
        }
    }

    /// The number of a name, which goes behind the others where it isn't one of them.
    pub(crate) fn number_of(&mut self, name: &Name<'a>) -> Result<u32, TraceFault>
        ensures stands { IfOk result (λ number. slice_get self.new number ≡ Some name.now) }
        ensures grows { (more : List (List ℕ)) × (self.new ≡ self.old ++ more) }
        ensures err { IfErr result (λ fault. fault ≡ TraceFault.Memory) }
    {
        let name = name.as_str();
        let slot = slot_of(name);
        let kept = self.slots[slot];
        if self.names.is_at(kept as usize, name) {
            return Ok(kept);
        }
        let number = self.find_or_push(name)?;
        self.slots[slot] = number;
        Ok(number)
    }

    /// A command by the numbers of its names, where the label that it gives, if it gives one, gets
    /// this number.
    pub(crate) fn stored(
        &mut self,
        command: &Command<'a>,
        label: usize,
    ) -> Result<StoredCommand, TraceFault>
        ensures says { IfOk result (λ stored. Says self.new label command.now stored) }
        ensures grows { (more : List (List ℕ)) × (self.new ≡ self.old ++ more) }
        ensures err { IfErr result (λ fault. fault ≡ TraceFault.Memory) }
    {
        match command {
            Command::Alloc {
                actor,
                arena,
                bytes,
                label: given,
            } => {
                let actor = self.number_of(actor)?;
                let arena = self.number_of(arena)?;
                let label = label_number(given, label)?;
                Ok(StoredCommand::Alloc {
                    actor,
                    arena,
                    bytes: *bytes,
                    label,
                })
            }
            Command::Free { actor, block } => {
                let actor = self.number_of(actor)?;
                let block = stored_block(*block)?;
                Ok(StoredCommand::Free { actor, block })
            }
            Command::Deliver => Ok(StoredCommand::Deliver),
            Command::Take { segment } => Ok(StoredCommand::Take { segment: *segment }),
            Command::Collect => Ok(StoredCommand::Collect),
            Command::Read {
                actor,
                block,
                index,
            } => {
                let actor = self.number_of(actor)?;
                let block = stored_block(*block)?;
                Ok(StoredCommand::Read {
                    actor,
                    block,
                    index: *index,
                })
            }
            Command::Write {
                actor,
                block,
                index,
                value,
            } => {
                let actor = self.number_of(actor)?;
                let block = stored_block(*block)?;
                Ok(StoredCommand::Write {
                    actor,
                    block,
                    index: *index,
                    value: *value,
                })
            }
            Command::Look { actor, place } => {
                let actor = self.number_of(actor)?;
                Ok(StoredCommand::Look {
                    actor,
                    place: *place,
                })
            }
            Command::List { actor } => {
                let actor = self.number_of(actor)?;
                Ok(StoredCommand::List { actor })
            }
            Command::Abandon { segment } => Ok(StoredCommand::Abandon { segment: *segment }),
            Command::Refill { arena } => {
                let arena = self.number_of(arena)?;
                Ok(StoredCommand::Refill { arena })
            }
        }
    }
}

/// The number of the label that a line gives, if it gives one.
fn label_number(given: &Option<Name>, number: usize) -> Result<Option<u32>, TraceFault>
    ensures ok { IfOk result (λ label. label ≡ option_map (λ name. number) given.now) }
    ensures err { IfErr result (λ fault. fault ≡ TraceFault.Memory) }
{
    if given.is_none() {
        return Ok(None);
    }
    let label = short(number as u64)?;
    Ok(Some(label))
}

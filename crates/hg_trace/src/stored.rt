//! Lines as a trace keeps them: with numbers in place of names, in 40 bytes each.

ghost use Rattle.std.specs.Prelude.{◌≡◌, IfOk, IfErr, Some, None};
ghost use Rattle.hg_trace.specs.Stored.{block_in};

use crate::fault::TraceFault;
use crate::line::BlockName;
use hg_place::{Handle, Place};

/// A block, as a command names it.
#[derive(Clone, Copy, Debug, PartialEq, Eq)]
pub enum StoredBlock {
    Handle(Handle),
    /// The number of a label, from 0, in the order in which lines give them.
    Label(u32),
}

/// A command of a worker. An actor and an arena are numbers of names, from 0, in the order in which
/// these first stand in the lines, tenants and arenas alike.
#[derive(Clone, Copy, Debug, PartialEq, Eq)]
pub enum StoredCommand {
    Alloc {
        actor: u32,
        arena: u32,
        bytes: u64,
        /// The number of the label that the line gives.
        label: Option<u32>,
    },
    Free {
        actor: u32,
        block: StoredBlock,
    },
    Deliver,
    Take {
        segment: u8,
    },
    Collect,
    Read {
        actor: u32,
        block: StoredBlock,
        index: u32,
    },
    Write {
        actor: u32,
        block: StoredBlock,
        index: u32,
        value: u64,
    },
    Look {
        actor: u32,
        place: Place,
    },
    List {
        actor: u32,
    },
    Abandon {
        segment: u8,
    },
    Refill {
        arena: u32,
    },
}

/// A line that has a command. Lines are numbered from 1.
#[derive(Clone, Copy, Debug, PartialEq, Eq)]
pub struct StoredLine {
    pub number: u32,
    pub worker: u8,
    pub command: StoredCommand,
}

const _: () = prove!(size_of::<StoredLine>() == 40);

/// A number that is kept in 32 bits. One with more is want of memory.
pub(crate) fn short(number: u64) -> Result<u32, TraceFault>
    ensures ok { IfOk result (λ short. short ≡ number) }
    ensures err { IfErr result (λ fault. fault ≡ TraceFault.Memory) }
{
    match u32::try_from(number) {
        Ok(short) => Ok(short),
        Err(_) => Err(TraceFault::Memory),
    }
}

/// The block that a name of one names.
pub(crate) fn stored_block(block: BlockName) -> Result<StoredBlock, TraceFault>
    ensures ok { IfOk result (λ stored. block_in stored ≡ block) }
    ensures err { IfErr result (λ fault. fault ≡ TraceFault.Memory) }
{
    match block {
        BlockName::Handle(handle) => Ok(StoredBlock::Handle(handle)),
        BlockName::Label(label) => {
            let label = short(label as u64)?;
            Ok(StoredBlock::Label(label))
        }
    }
}

/// What a stored block names.
pub(crate) fn block_in(block: StoredBlock) -> BlockName
    ensures { result ≡ block_in block }
{
    match block {
        StoredBlock::Handle(handle) => BlockName::Handle(handle),
        StoredBlock::Label(label) => BlockName::Label(label as usize),
    }
}

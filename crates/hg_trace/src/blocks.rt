//! Blocks, as a word names them: by handle or by label.

ghost use Rattle.std.specs.Prelude.{◌≡◌};
ghost use Rattle.hg_trace.specs.Blocks.{label_of, block_of};

use crate::fault::LineFault;
use crate::handles::handle_of;
use crate::labels::Labels;
use crate::line::BlockName;
use crate::name::Name;

/// The number of the label that a word is, if an earlier line gave it.
fn label_of(labels: &Labels, word: &[u8]) -> Result<Option<usize>, LineFault>
    ensures { result ≡ label_of labels.now word.now }
{
    let name = Name::of(word).ok_or(LineFault::Operand)?;
    Ok(labels.position_of(name.as_str()))
}

/// The block that a word means, or none where the word is a label that no earlier line gave.
#[tactic(auto, unfolding(crate::specs::Blocks::block_of))]
pub(crate) fn block_of(labels: &Labels, word: &[u8]) -> Result<Option<BlockName>, LineFault>
    ensures { result ≡ block_of labels.now word.now }
{
    match word {
        [b'@', text @ ..] => {
            let handle = handle_of(text)?;
            Ok(Some(BlockName::Handle(handle)))
        }
        _ => match label_of(labels, word)? {
            Some(label) => Ok(Some(BlockName::Label(label))),
            None => Ok(None),
        },
    }
}

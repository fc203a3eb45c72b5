use hg_machine::Rule;

/// Why a heap doesn't serve.
#[derive(Clone, Copy, Debug, PartialEq, Eq)]
pub enum Refused {
    /// By this rule of the policy.
    Denied(Rule),
    /// No class of blocks holds so many bytes.
    TooLarge,
    /// No place of the heap is left for such a block.
    NoRoom,
    /// The heap doesn't hold the segment; nothing was looked at.
    Elsewhere,
    /// The word is none of the block's.
    OutOfBlock,
}

//! The operands of commands, and those of a line.

ghost use Rattle.std.specs.Prelude.{◌≡◌, ◌∷◌, option_map, position, slice_index_or};
ghost use Rattle.hg_trace.specs.Lines.{split_words};
ghost use Rattle.hg_trace.specs.Forms.{operands_of, operands_in, is_block, is_label};

use crate::commands::is;
use crate::wanted::Wanted;
use crate::words::Words;

/// The operands of a command, in their order.
pub(crate) fn operands_of(command: &[u8]) -> Option<&'static [Wanted]>
    ensures { option_map (λ operands. operands.now) result ≡ operands_of command.now }
{
    match command {
        name if is(name, "alloc") => Some(&[
            Wanted::Actor,
            Wanted::Arena,
            Wanted::Bytes,
            Wanted::As,
            Wanted::Label,
        ]),
        name if is(name, "free") => Some(&[Wanted::Actor, Wanted::Block]),
        name if is(name, "deliver") => Some(&[]),
        name if is(name, "take") => Some(&[Wanted::Segment]),
        name if is(name, "collect") => Some(&[]),
        name if is(name, "read") => Some(&[Wanted::Actor, Wanted::Block, Wanted::Index]),
        name if is(name, "write") => Some(&[
            Wanted::Actor,
            Wanted::Block,
            Wanted::Index,
            Wanted::Value,
        ]),
        name if is(name, "look") => Some(&[Wanted::Actor, Wanted::Place]),
        name if is(name, "list") => Some(&[Wanted::Actor]),
        name if is(name, "abandon") => Some(&[Wanted::Segment]),
        name if is(name, "refill") => Some(&[Wanted::Arena]),
        _ => None,
    }
}

/// The operands of a line's command, and none where it has no command.
pub(crate) fn operands_in(text: &[u8]) -> &'static [Wanted]
    ensures { result.now ≡ operands_in (split_words text.now) }
{
    let mut words = Words::new(text);
    let _worker = words.next_word();
    match words.next_word() {
        Some(command) => operands_of(command).unwrap_or(&[]),
        None => &[],
    }
}

/// What is wanted as the word of a number, behind a worker and a command with these operands.
pub(crate) fn wanted_at(operands: &[Wanted], number: usize) -> Wanted
    ensures { result ≡ slice_index_or (Wanted.Worker ∷ Wanted.Command ∷ operands.now) number
        Wanted.Nothing }
{
    match number {
        0 => Wanted::Worker,
        1 => Wanted::Command,
        _ => operands.get(number - 2).copied().unwrap_or(Wanted::Nothing),
    }
}

/// Which operand is a block.
pub(crate) fn block_among(operands: &[Wanted]) -> Option<usize>
    ensures { result ≡ position is_block operands.now }
{
    operands
        .iter()
        .position(|operand| matches!(operand, Wanted::Block))
}

/// Which operand is a label that the line gives.
pub(crate) fn label_among(operands: &[Wanted]) -> Option<usize>
    ensures { result ≡ position is_label operands.now }
{
    operands
        .iter()
        .position(|operand| matches!(operand, Wanted::Label))
}

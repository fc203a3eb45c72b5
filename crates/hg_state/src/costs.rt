//! What classes cost: the bytes that blocks were asked for, beside those that they have.

ghost use Rattle.std.specs.Prelude.{◌≡◌, ◌++◌, IfErr, IfOk, OnOk, filter};
ghost use Rattle.std.specs.List.{flat_map};
ghost use Rattle.hg_machine.specs.Request.{size_of};
ghost use Rattle.hg_state.specs.Costs.{asked_for, blocks_of, bytes_in, class_line, class_text};
ghost use Rattle.hg_state.specs.Costs.{classes_text, costs_text, given, granted_by, granted_in};
ghost use Rattle.hg_state.specs.Costs.{has_block, is_of, is_standing};

use crate::form::{Form, Word, push_counted, push_word};
use crate::sent::bit;
use hg_core::{Core, PlaceLife};
use hg_machine::{Answer, Event};
use hg_place::{Handle, WORD_BYTES};
use hg_replay::Told;
use hg_size::{CLASSES, block_words, class_of, words_of};
use std::alloc::{AllocError, Global};

/// The classes, by the words of their blocks: all sizes of hg_size, which hands out none by its
/// number.
static SIZES: [u16; CLASSES] = [
    1, 2, 3, 4, 5, 6, 7, 8, 10, 12, 14, 16, 20, 24, 28, 32, 40, 48, 56, 64, 80, 96, 112, 128, 160,
    192, 224, 256, 320, 384, 448, 512, 1024, 2048, 4096, 8192,
];

/// A block that an allocation was answered with, and the bytes that it asked for.
#[derive(Clone, Copy, Debug, PartialEq, Eq)]
pub struct Granted {
    pub handle: Handle,
    pub bytes: u64,
}

/// Notes the block that this answer gives for so many bytes.
fn note_given(blocks: &mut Vec<Granted>, bytes: u64, answer: Answer) -> Result<(), AllocError>
    ensures ok { OnOk result (blocks.new.items ≡ blocks.old.items ++ given bytes answer) }
    ensures err { IfErr result (λ _. blocks.new.items ≡ blocks.old.items) }
{
    if let Answer::Block(handle) = answer {
        blocks.push(Granted { handle, bytes })?;
    }
    Ok(())
}

/// Notes the block that an event was answered with, if it is an allocation that was. Its one error is
/// want of memory, which leaves what was noted as it was.
pub fn note_granted(
    blocks: &mut Vec<Granted>,
    event: Event,
    answer: Answer,
) -> Result<(), AllocError>
    ensures ok { OnOk result (blocks.new.items ≡ blocks.old.items ++ granted_by event answer) }
    ensures err { IfErr result (λ _. blocks.new.items ≡ blocks.old.items) }
{
    match event {
        Event::Alloc { bytes, .. } => note_given(blocks, bytes, answer),
        _ => Ok(()),
    }
}

/// Notes the block that a line came to.
pub(crate) fn note_told(blocks: &mut Vec<Granted>, told: Told) -> Result<(), AllocError>
    ensures { OnOk result (blocks.new.items ≡ blocks.old.items ++ granted_in told) }
{
    match told {
        Told::One(event, answer) => note_granted(blocks, event, answer),
        _ => Ok(()),
    }
}

/// Whether a place that is known so has a block.
fn has_block(life: PlaceLife) -> bool
    ensures { result ≡ has_block life }
{
    match life {
        PlaceLife::Home => false,
        PlaceLife::Live(_) | PlaceLife::Parted(_) => true,
    }
}

/// Whether a block that was given out stands still.
fn is_standing(core: &Core, block: Granted) -> bool
    ensures { result ≡ is_standing core.now.state block }
{
    let known = core.record(block.handle.place);
    known.generation == block.handle.generation && has_block(known.life)
}

/// Those of the blocks that stand still.
fn standing(alloc: Global, core: &Core, blocks: &[Granted]) -> Result<Vec<Granted>, AllocError>
    ensures { IfOk result
        (λ standing. standing.items ≡ filter (is_standing core.now.state) blocks.now) }
{
    let mut standing = Vec::new(alloc);
    for block in blocks {
        if is_standing(core, *block) {
            standing.push(*block)?;
        }
    }
    Ok(standing)
}

/// How many words a block for so many bytes has; 0 where no block has so many.
fn size_of(bytes: u64) -> u16
    ensures { result ≡ size_of bytes }
{
    match class_of(words_of(bytes)) {
        Some(class) => block_words(class),
        None => 0,
    }
}

/// Whether a block is of the class of so many words.
fn is_of(class: u16, block: Granted) -> bool
    ensures { result ≡ is_of class block }
{
    size_of(block.bytes) == class
}

/// The bytes that a block was asked for, where it is of the class.
fn bytes_in(class: u16, block: Granted) -> u64
    ensures { result ≡ bytes_in class block }
{
    if is_of(class, block) { block.bytes } else { 0 }
}

/// How many blocks are of the class.
fn blocks_of(class: u16, blocks: &[Granted]) -> usize
    ensures { result ≡ blocks_of class blocks.now }
{
    let mut count = 0;
    for block in blocks {
        count += bit(is_of(class, *block));
    }
    count
}

/// The bytes that they were asked for.
fn asked_for(class: u16, blocks: &[Granted]) -> u64
    ensures { result ≡ asked_for class blocks.now }
{
    let mut asked: u64 = 0;
    for block in blocks {
        asked = asked.saturating_add(bytes_in(class, *block));
    }
    asked
}

/// Appends a class.
#[tactic(auto, unfolding(crate::specs::Costs::class_line))]
fn push_class(
    out: &mut Vec<u8>,
    form: Form,
    word: Word,
    blocks: &[Granted],
    class: u16,
) -> Result<(), AllocError>
    ensures { OnOk result (out.new.items ≡ out.old.items ++ class_line form word blocks.now class) }
{
    let bytes = WORD_BYTES as u64 * u64::from(class);
    let count = blocks_of(class, blocks) as u64;
    push_counted(out, form, Word::Class, bytes)?;
    push_counted(out, form, word, count)?;
    push_counted(out, form, Word::Asked, asked_for(class, blocks))?;
    push_counted(out, form, Word::Given, bytes.saturating_mul(count))?;
    push_word(out, form, Word::End)
}

/// Appends a class, where it has such a block.
#[tactic(auto, unfolding(crate::specs::Costs::class_text))]
fn push_class_text(
    out: &mut Vec<u8>,
    form: Form,
    word: Word,
    blocks: &[Granted],
    class: u16,
) -> Result<(), AllocError>
    ensures { OnOk result (out.new.items ≡ out.old.items ++ class_text form word blocks.now class) }
{
    if blocks_of(class, blocks) == 0 {
        return Ok(());
    }
    push_class(out, form, word, blocks, class)
}

/// Appends these classes.
fn push_these(
    out: &mut Vec<u8>,
    form: Form,
    word: Word,
    blocks: &[Granted],
    classes: &[u16],
) -> Result<(), AllocError>
    ensures { OnOk result (out.new.items
        ≡ out.old.items ++ flat_map (class_text form word blocks.now) classes.now) }
{
    for class in classes {
        push_class_text(out, form, word, blocks, *class)?;
    }
    Ok(())
}

/// Appends the classes.
#[tactic(auto, unfolding(crate::specs::Costs::classes_text))]
fn push_classes(
    out: &mut Vec<u8>,
    form: Form,
    word: Word,
    blocks: &[Granted],
) -> Result<(), AllocError>
    ensures { OnOk result (out.new.items ≡ out.old.items ++ classes_text form word blocks.now) }
{
    push_these(out, form, word, blocks, &SIZES)
}

/// Appends the classes of the blocks that stand still, and those of all.
#[tactic(auto, unfolding(crate::specs::Costs::costs_text))]
pub(crate) fn push_costs(
    alloc: Global,
    out: &mut Vec<u8>,
    form: Form,
    core: &Core,
    blocks: &[Granted],
) -> Result<(), AllocError>
    ensures { OnOk result (out.new.items
        ≡ out.old.items ++ costs_text form core.now.state blocks.now) }
{
    let standing = standing(alloc, core, blocks)?;
    push_classes(out, form, Word::Blocks, &standing)?;
    push_classes(out, form, Word::Allocs, blocks)
}

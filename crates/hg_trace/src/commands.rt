//! The eleven commands: each reads its operands, in their order.

ghost use Rattle.std.specs.Prelude.{◌≡◌, bytes_eq};
ghost use Rattle.hg_trace.specs.Commands.{command_at};
ghost use Rattle.hg_trace.specs.Commands.{alloc_command, free_command, deliver_command};
ghost use Rattle.hg_trace.specs.Commands.{take_command, collect_command, read_command};
ghost use Rattle.hg_trace.specs.Commands.{write_command, look_command, list_command};
ghost use Rattle.hg_trace.specs.Commands.{abandon_command, refill_command};

use crate::fault::LineFault;
use crate::labels::Labels;
use crate::line::Command;
use crate::words::Words;

#[tactic(auto, unfolding(crate::specs::Commands::alloc_command))]
fn alloc_of<'a>(words: &mut Words<'a>) -> Result<Command<'a>, LineFault>
    ensures { result ≡ alloc_command words.old }
{
    let actor = words.next_name()?;
    let arena = words.next_name()?;
    let bytes = words.next_number()?;
    let label = words.last_label()?;
    Ok(Command::Alloc {
        actor,
        arena,
        bytes,
        label,
    })
}

#[tactic(auto, unfolding(crate::specs::Commands::free_command))]
fn free_of<'a>(labels: &Labels, words: &mut Words<'a>) -> Result<Command<'a>, LineFault>
    ensures { result ≡ free_command labels.now words.old }
{
    let actor = words.next_name()?;
    let block = words.next_block(labels)?;
    words.ends()?;
    let block = block.ok_or(LineFault::UnknownLabel)?;
    Ok(Command::Free { actor, block })
}

#[tactic(auto, unfolding(crate::specs::Commands::deliver_command))]
fn deliver_of<'a>(words: &mut Words<'a>) -> Result<Command<'a>, LineFault>
    ensures { result ≡ deliver_command words.old }
{
    words.ends()?;
    Ok(Command::Deliver)
}

#[tactic(auto, unfolding(crate::specs::Commands::take_command))]
fn take_of<'a>(words: &mut Words<'a>) -> Result<Command<'a>, LineFault>
    ensures { result ≡ take_command words.old }
{
    let segment = words.next_segment()?;
    words.ends()?;
    Ok(Command::Take { segment })
}

#[tactic(auto, unfolding(crate::specs::Commands::collect_command))]
fn collect_of<'a>(words: &mut Words<'a>) -> Result<Command<'a>, LineFault>
    ensures { result ≡ collect_command words.old }
{
    words.ends()?;
    Ok(Command::Collect)
}

#[tactic(auto, unfolding(crate::specs::Commands::read_command))]
fn read_of<'a>(labels: &Labels, words: &mut Words<'a>) -> Result<Command<'a>, LineFault>
    ensures { result ≡ read_command labels.now words.old }
{
    let actor = words.next_name()?;
    let block = words.next_block(labels)?;
    let index = words.next_index()?;
    words.ends()?;
    let block = block.ok_or(LineFault::UnknownLabel)?;
    Ok(Command::Read {
        actor,
        block,
        index,
    })
}

#[tactic(auto, unfolding(crate::specs::Commands::write_command))]
fn write_of<'a>(labels: &Labels, words: &mut Words<'a>) -> Result<Command<'a>, LineFault>
    ensures { result ≡ write_command labels.now words.old }
{
    let actor = words.next_name()?;
    let block = words.next_block(labels)?;
    let index = words.next_index()?;
    let value = words.next_number()?;
    words.ends()?;
    let block = block.ok_or(LineFault::UnknownLabel)?;
    Ok(Command::Write {
        actor,
        block,
        index,
        value,
    })
}

#[tactic(auto, unfolding(crate::specs::Commands::look_command))]
fn look_of<'a>(words: &mut Words<'a>) -> Result<Command<'a>, LineFault>
    ensures { result ≡ look_command words.old }
{
    let actor = words.next_name()?;
    let place = words.next_place()?;
    words.ends()?;
    Ok(Command::Look { actor, place })
}

#[tactic(auto, unfolding(crate::specs::Commands::list_command))]
fn list_of<'a>(words: &mut Words<'a>) -> Result<Command<'a>, LineFault>
    ensures { result ≡ list_command words.old }
{
    let actor = words.next_name()?;
    words.ends()?;
    Ok(Command::List { actor })
}

#[tactic(auto, unfolding(crate::specs::Commands::abandon_command))]
fn abandon_of<'a>(words: &mut Words<'a>) -> Result<Command<'a>, LineFault>
    ensures { result ≡ abandon_command words.old }
{
    let segment = words.next_segment()?;
    words.ends()?;
    Ok(Command::Abandon { segment })
}

#[tactic(auto, unfolding(crate::specs::Commands::refill_command))]
fn refill_of<'a>(words: &mut Words<'a>) -> Result<Command<'a>, LineFault>
    ensures { result ≡ refill_command words.old }
{
    let arena = words.next_name()?;
    words.ends()?;
    Ok(Command::Refill { arena })
}

/// Whether a word is the name of a command.
pub(crate) fn is(word: &[u8], name: &str) -> bool
    ensures { result ≡ bytes_eq word.now name.now }
{
    word == name.as_bytes()
}

/// The command that the words of a line mean, behind its worker.
#[tactic(auto, unfolding(crate::specs::Commands::command_at))]
pub(crate) fn command_of<'a>(
    labels: &Labels,
    words: &mut Words<'a>,
) -> Result<Command<'a>, LineFault>
    ensures { result ≡ command_at labels.now words.old }
{
    match words.next_word() {
        Some(word) if is(word, "alloc") => alloc_of(words),
        Some(word) if is(word, "free") => free_of(labels, words),
        Some(word) if is(word, "deliver") => deliver_of(words),
        Some(word) if is(word, "take") => take_of(words),
        Some(word) if is(word, "collect") => collect_of(words),
        Some(word) if is(word, "read") => read_of(labels, words),
        Some(word) if is(word, "write") => write_of(labels, words),
        Some(word) if is(word, "look") => look_of(words),
        Some(word) if is(word, "list") => list_of(words),
        Some(word) if is(word, "abandon") => abandon_of(words),
        Some(word) if is(word, "refill") => refill_of(words),
        _ => Err(LineFault::Command),
    }
}

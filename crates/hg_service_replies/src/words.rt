//! Many words of a block, for a worker.

ghost use Rattle.std.specs.Prelude.{◌≡◌, ◌<◌, Some, length, slice_get};
ghost use Rattle.hg_hosted.specs.Serving.{Serves};
ghost use Rattle.hg_service_replies.specs.Words.{PartReads, PartWrites, ReadsAll, WritesAll};
ghost use Rattle.hg_service_replies.specs.Words.{stopped, word_index};

use crate::part::HostedPart;
use hg_hosted::HostedWorker;
use hg_machine::Answer;
use hg_place::{Actor, Handle};
use hg_reply::status::{CLOSED, DONE};
use hg_reply::{Reply, reply_of};

/// Reads as many words of a block as the room has, from the word of an index on: they are a
/// worker's Reads of these words, one after another, and the first that is refused ends them.
/// `DONE`, or the reply to that one, with how many were read; what stands in the room behind those
/// is as it was. Any other part is answered `CLOSED`, and the room stays.
pub fn read_words(
    part: &mut HostedPart,
    actor: Actor,
    handle: Handle,
    first: u32,
    room: &mut [u64],
) -> Reply
    ensures { PartReads part.old actor handle first room.old result part.new room.new }
{
    match part {
        HostedPart::Worker(worker) => read_all(worker, actor, handle, first, room),
        _ => Reply::plain(CLOSED),
    }
}

/// Writes words into a block, from the word of an index on: they are a worker's Writes of these
/// words, one after another, and the first that is refused ends them. `DONE`, or the reply to that
/// one, with how many were written. Any other part is answered `CLOSED`.
pub fn write_words(
    part: &mut HostedPart,
    actor: Actor,
    handle: Handle,
    first: u32,
    words: &[u64],
) -> Reply
    ensures { PartWrites part.old actor handle first words.now result part.new }
{
    match part {
        HostedPart::Worker(worker) => write_all(worker, actor, handle, first, words),
        _ => Reply::plain(CLOSED),
    }
}

fn read_all(
    worker: &mut HostedWorker,
    actor: Actor,
    handle: Handle,
    first: u32,
    room: &mut [u64],
) -> Reply
    ensures read { Serves (ReadsAll actor handle first room.old result room.new) worker.old
        worker.new }
    ensures alone { worker.new.shared ≡ worker.old.shared }
{
    for at in 0..room.len() {
        match worker.read(actor, handle, word_index(first, at)) {
            Answer::Value(word) => room[at] = word,
            answer => return stopped(answer, at),
        }
    }
    Reply::valued(DONE, room.len() as u64)
}

fn write_all(
    worker: &mut HostedWorker,
    actor: Actor,
    handle: Handle,
    first: u32,
    words: &[u64],
) -> Reply
    ensures written { Serves (WritesAll actor handle first words.now result) worker.old worker.new }
    ensures alone { worker.new.shared ≡ worker.old.shared }
{
    for at in 0..words.len() {
        let word = word_at(words, at);
        match worker.write(actor, handle, word_index(first, at), word) {
            Answer::Done => {}
            answer => return stopped(answer, at),
        }
    }
    Reply::valued(DONE, words.len() as u64)
}

/// The word at a place.
fn word_at(words: &[u64], at: usize) -> u64
    requires { at < length words.now }
    ensures { slice_get words.now at ≡ Some result }
{
    words[at]
}

/// The index of the word that is so many behind the first.
fn word_index(first: u32, many: usize) -> u32
    ensures { result ≡ word_index first many }
{
    match u32::try_from(many) {
        Ok(many) => first.saturating_add(many),
        Err(_) => u32::MAX,
    }
}

/// The reply to what was refused, with how many words were done before.
fn stopped(answer: Answer, done: usize) -> Reply
    ensures { result ≡ stopped done answer }
{
    let told = reply_of(answer);
    Reply {
        status: told.status,
        owner: told.owner,
        detail: told.detail,
        value: done as u64,
    }
}

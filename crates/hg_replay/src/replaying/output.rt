//! What is to be written: gathered in a buffer, and written where that is full.

ghost use Rattle.std.specs.Prelude.{◌≡◌, ℕ, List, [], ◌∷◌, ◌++◌, true, false, unwrap_or, OnOk};
ghost use Rattle.std.specs.Prelude.{OnErr, codes, decimal};
ghost use Rattle.hg_trace.specs.Printed.{handle_text};
ghost use Rattle.hg_policy.specs.Names.{tenant_name};
ghost use Rattle.hg_machine.specs.declared.Answer.TheVariants as answer;
ghost use Rattle.hg_replay.specs.Text.{answer_line, listing_end};
ghost use Rattle.hg_replay.specs.Sinks.{Seen};
ghost use Rattle.hg_replay.specs.Writes.{Wrote, StopsIn, IsGiven, Emits};

use crate::replaying::put::{WriteStopped, put};
use crate::replaying::sink::Sink;
use crate::replaying::text::{
    Text, block_line, listing_end, push_line, ready_line, row_back, row_front, value_line,
};
use arrayvec::ArrayVec;
use hg_machine::{Answer, Row};
use hg_place::Handle;
use hg_policy::Policy;

/// How many bytes wait at most.
const ROOM: usize = 65_536;

/// Bytes that wait to be written, and whether a write has stopped: from then on nothing more is
/// written.
#[derive(Drop)]
pub(crate) struct Output {
    waiting: ArrayVec<u8, ROOM>,
    stopped: bool,
}

impl Output {
    pub(crate) fn new() -> Output
        ensures given { (start : Seen) → IsGiven start start result [] }
        ensures going { result.stopped ≡ false }
    {
        Output {
            waiting: ArrayVec::new(),
            stopped: false,
        }
    }

    /// Whether a write has stopped.
    pub(crate) fn has_stopped(&self) -> bool
        ensures { result ≡ self.now.stopped }
    {
        self.stopped
    }

    /// Writes what waits.
    fn flush<W: Sink>(&mut self, out: &mut W)
        ensures given { Emits (W.seen out.old) self.old (W.seen out.new) self.new [] }
        ensures empty { self.new.waiting.items ≡ [] }
    {
        if !self.stopped && put(out, self.waiting.as_slice()).is_err() {
            self.stopped = true;
        }
        self.waiting.clear();
    }

    /// Lets bytes wait where there is room for them, and tells whether there was.
    fn keep(&mut self, bytes: &[u8]) -> bool
        ensures kept { result ≡ true
            → (seen : Seen) → Emits seen self.old seen self.new bytes.now }
        ensures unchanged { result ≡ false → self.new ≡ self.old }
    {
        self.waiting.try_extend_from_slice(bytes).is_ok()
    }

    /// Writes bytes at once, where none wait.
    fn write_through<W: Sink>(&mut self, out: &mut W, bytes: &[u8])
        requires { self.old.waiting.items ≡ [] }
        ensures { Emits (W.seen out.old) self.old (W.seen out.new) self.new bytes.now }
    {
        if !self.stopped && put(out, bytes).is_err() {
            self.stopped = true;
        }
    }

    /// Emits bytes to be written. Those that don't fit beside what waits come after it was written,
    /// and more than there is room for are written at once.
    pub(crate) fn put<W: Sink>(&mut self, out: &mut W, bytes: &[u8])
        ensures { Emits (W.seen out.old) self.old (W.seen out.new) self.new bytes.now }
    {
        if self.keep(bytes) {
            return;
        }
        self.flush(out);
        if !self.keep(bytes) {
            self.write_through(out, bytes);
        }
    }

    /// Writes what waits, as the last.
    pub(crate) fn finish<W: Sink>(&mut self, out: &mut W) -> Result<(), WriteStopped>
        ensures ok { OnOk result ((start : Seen) (text : List ℕ)
            → IsGiven start (W.seen out.old) self.old text → Wrote start (W.seen out.new) text) }
        ensures stopped { OnErr result ((start : Seen) (text : List ℕ)
            → IsGiven start (W.seen out.old) self.old text
            → StopsIn start (W.seen out.new) text) }
    {
        self.flush(out);
        if self.stopped {
            return Err(WriteStopped);
        }
        Ok(())
    }

    /// Emits the line of a row to be written. The owner's name comes from the policy.
    fn put_row<W: Sink>(&mut self, out: &mut W, policy: &Policy, row: Row)
        ensures { Emits (W.seen out.old) self.old (W.seen out.new) self.new
            (answer_line policy.now (answer.Listed row)) }
    {
        let name = name_of(policy, row.owner);
        self.put(out, row_front(row.handle).as_str().as_bytes());
        self.put(out, name.as_bytes());
        self.put(out, row_back(name.len(), row.bytes).as_str().as_bytes());
    }

    /// Emits the line of a block that was given out.
    pub(crate) fn put_block<W: Sink>(&mut self, out: &mut W, handle: Handle)
        ensures { Emits (W.seen out.old) self.old (W.seen out.new) self.new
            ((codes "ok " ++ handle_text handle) ++ 10 ∷ []) }
    {
        self.put(out, block_line(handle).as_str().as_bytes());
    }

    /// Emits the line of a word that was read.
    pub(crate) fn put_value<W: Sink>(&mut self, out: &mut W, value: u64)
        ensures { Emits (W.seen out.old) self.old (W.seen out.new) self.new
            ((codes "word " ++ decimal value) ++ 10 ∷ []) }
    {
        self.put(out, value_line(value).as_str().as_bytes());
    }

    /// Emits the line of an answer to be written.
    pub(crate) fn put_answer<W: Sink>(&mut self, out: &mut W, policy: &Policy, answer: Answer)
        ensures { Emits (W.seen out.old) self.old (W.seen out.new) self.new
            (answer_line policy.now answer) }
    {
        match answer {
            Answer::Listed(row) => self.put_row(out, policy, row),
            _ => match ready_line(answer) {
                Some(line) => self.put(out, line.as_bytes()),
                None => {
                    let mut text = Text::new();
                    push_line(&mut text, answer);
                    self.put(out, text.as_str().as_bytes());
                }
            },
        }
    }

    /// Emits the last line of a listing to be written.
    pub(crate) fn put_listing_end<W: Sink>(&mut self, out: &mut W, rows: u32)
        ensures { Emits (W.seen out.old) self.old (W.seen out.new) self.new
            (listing_end rows) }
    {
        self.put(out, listing_end(rows).as_str().as_bytes());
    }
}

/// The name of a tenant, empty where the policy has none of this number.
fn name_of(policy: &Policy, tenant: u8) -> &str
    ensures { result.now ≡ unwrap_or (tenant_name policy.now tenant) [] }
{
    match policy.tenant_name(tenant) {
        Some(name) => name,
        None => "",
    }
}

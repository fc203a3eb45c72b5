//! A replay line by line.

ghost use Rattle.std.specs.Prelude.{◌≡◌, ◌+◌, ◌<◌, ℕ, List, true, OnOk, IfOk, vec_len, vec_capacity};
ghost use Rattle.std.specs.Prelude.{if◌then◌else◌};
ghost use Rattle.hg_trace.specs.Stored.{line_in, IsNumbered};
ghost use Rattle.hg_replay.specs.KnownNames.{meanings};
ghost use Rattle.hg_replay.specs.Replays.{Answered};
ghost use Rattle.hg_replay.specs.StoredLabels.{binds};
ghost use Rattle.hg_replay.specs.Tellings.{IsTold};
ghost use Rattle.hg_replay.specs.Writes.{Wrote};

use crate::replaying::output::Output;
use crate::replaying::put::WriteStopped;
use crate::replaying::sink::Sink;
use crate::replaying::told::Told;
use crate::replaying::{Ready, replay_line, replay_other};
use hg_trace::StoredLine;

impl Ready {
    /// Answers the next line of the trace that this was made for, and writes all that it is
    /// answered.
    pub fn answer<W: Sink>(&mut self, line: &StoredLine, out: &mut W) -> Result<(), WriteStopped>
        requires worker { line.now.worker < self.old.core.state.policy.workers }
        requires room { binds line.now.command ≡ true
            → vec_len self.old.handles < vec_capacity self.old.handles }
        ensures answered { OnOk result ((names labels : List (List ℕ))
            → self.old.meant.items ≡ meanings self.old.core.state.policy names
            → IsNumbered names labels line.now.command
            → (text : List ℕ)
            × Answered (record { kept = self.old.core; handles = self.old.handles.items })
            (line_in names labels line.now)
            (record { kept = self.new.core; handles = self.new.handles.items }) text
            × Wrote (W.seen out.old) (W.seen out.new) text) }
        ensures meant { self.new.meant ≡ self.old.meant }
        ensures count { vec_len self.new.handles
            ≡ vec_len self.old.handles + (if binds line.now.command then 1 else 0) }
        ensures room { vec_capacity self.new.handles ≡ vec_capacity self.old.handles }
    {
        let mut output = Output::new();
        replay_line(
            &mut self.core,
            self.meant.as_slice(),
            &mut self.handles,
            line,
            &mut output,
            out,
        );
        output.finish(out)
    }
    /// The same, and tells what the line came to.
    pub fn tell<W: Sink>(&mut self, line: &StoredLine, out: &mut W) -> Result<Told, WriteStopped>
        requires worker { line.now.worker < self.old.core.state.policy.workers }
        requires room { binds line.now.command ≡ true
            → vec_len self.old.handles < vec_capacity self.old.handles }
        ensures told { IfOk result (λ told. (names labels : List (List ℕ))
            → self.old.meant.items ≡ meanings self.old.core.state.policy names
            → IsNumbered names labels line.now.command
            → (text : List ℕ)
            × Answered (record { kept = self.old.core; handles = self.old.handles.items })
            (line_in names labels line.now)
            (record { kept = self.new.core; handles = self.new.handles.items }) text
            × IsTold (record { kept = self.old.core; handles = self.old.handles.items })
            (line_in names labels line.now) told self.new.core
            × Wrote (W.seen out.old) (W.seen out.new) text) }
        ensures meant { self.new.meant ≡ self.old.meant }
        ensures count { vec_len self.new.handles
            ≡ vec_len self.old.handles + (if binds line.now.command then 1 else 0) }
        ensures room { vec_capacity self.new.handles ≡ vec_capacity self.old.handles }
    {
        let mut output = Output::new();
        let told = replay_other(
            &mut self.core,
            self.meant.as_slice(),
            &mut self.handles,
            line,
            &mut output,
            out,
        );
        match output.finish(out) {
            Ok(()) => Ok(told),
            Err(stopped) => Err(stopped),
        }
    }
}

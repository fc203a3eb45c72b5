//! Writing bytes.

ghost use Rattle.std.specs.Prelude.{OnOk, OnErr};
ghost use Rattle.hg_replay.specs.Writes.{Wrote, StopsIn};

use crate::replaying::sink::Sink;

/// A write failed, or took nothing.
#[derive(Clone, Copy, Debug, PartialEq, Eq, Drop)]
pub struct WriteStopped;

/// Writes all the bytes, and tries nothing again. It stops only where a write failed or took
/// nothing.
pub fn put<W: Sink>(out: &mut W, bytes: &[u8]) -> Result<(), WriteStopped>
    ensures ok { OnOk result (Wrote (W.seen out.old) (W.seen out.new) bytes.now) }
    ensures stopped { OnErr result (StopsIn (W.seen out.old) (W.seen out.new) bytes.now) }
{
    let mut rest = bytes;
    while !rest.is_empty() {
        match out.write_some(rest) {
            Ok(0) => return Err(WriteStopped),
            Ok(n) => rest = &rest[n..],
            Err(_) => return Err(WriteStopped),
        }
    }
    Ok(())
}

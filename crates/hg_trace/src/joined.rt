//! A policy and a trace in one text.

ghost use Rattle.std.specs.Prelude.{◌≡◌};
ghost use Rattle.hg_trace.specs.Joined.{is_mark, policy_in, trace_in};

use crate::lines::{Lines, without_end};

/// Whether a line ends the policy.
fn is_mark(line: &[u8]) -> bool
    ensures { result ≡ is_mark line.now }
{
    matches!(without_end(line), b"---" | b"---\r")
}

/// The policy's bytes, and the trace's: the lines before the first mark, and the lines after it. A
/// mark is a line of three dashes, which a byte 0D may follow; it is in neither part. Without one
/// the policy is all bytes, and the trace is empty.
pub fn split_joined(bytes: &[u8]) -> (&[u8], &[u8])
    ensures policy { result.0.now ≡ policy_in bytes.now }
    ensures trace { result.1.now ≡ trace_in bytes.now }
{
    let mut lines = Lines::new(bytes);
    let mut at = 0;
    while let Some(line) = lines.next_line() {
        if is_mark(line) {
            return (&bytes[..at], lines.rest());
        }
        at += line.len();
    }
    (bytes, &[])
}

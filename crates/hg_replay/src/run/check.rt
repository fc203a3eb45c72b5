//! A check of a policy's bytes.

ghost use Rattle.std.specs.Prelude.{◌≡◌, ◌+◌, ◌≤◌, ◌++◌, decimal, length};
ghost use Rattle.arrayvec.specs.ArrayString.{array_string_len};
ghost use Rattle.hg_replay.specs.RunFaults.{status_after};
ghost use Rattle.hg_replay.specs.Checks.{counts_line, EndsCheck};

use crate::replaying::fault::ReplayFault;
use crate::replaying::put::put;
use crate::replaying::sink::Sink;
use crate::run::fault::RunFault;
use crate::run::status::Status;
use crate::run::told;
use arrayvec::ArrayString;
use hg_policy::Policy;
use hg_policy_text::read_policy;
use std::alloc::Global;
use std::io::Write;

/// Appends a word and a number behind it.
fn push_count(text: &mut ArrayString<128>, word: &str, n: u8)
    requires { array_string_len text.old + length word.now + 10 ≤ 128 }
    ensures bytes { text.new.bytes ≡ text.old.bytes ++ word.now ++ decimal n }
    ensures len { array_string_len text.new ≤ array_string_len text.old + length word.now + 10 }
{
    let mut digits = itoa::Buffer::new();
    text.push_str(word);
    text.push_str(digits.format(n));
}

/// How much a policy names.
#[tactic(auto, unfolding(crate::specs::Checks::counts_line))]
fn counts_of(policy: &Policy) -> ArrayString<128>
    ensures { result.bytes ≡ counts_line policy.now }
{
    let mut text = ArrayString::new();
    push_count(&mut text, "ok workers ", policy.workers());
    push_count(&mut text, " tenants ", policy.tenants());
    push_count(&mut text, " arenas ", policy.arenas());
    push_count(&mut text, " segments ", policy.segments());
    text.push_str("\n");
    text
}

fn check<W: Sink>(alloc: Global, policy: &[u8], out: &mut W) -> Result<(), RunFault>
    ensures { EndsCheck (status_after result) policy.now (W.seen out.old) (W.seen out.new) }
{
    let policy = read_policy(alloc, policy)?;
    match put(out, counts_of(&policy).as_str().as_bytes()) {
        Ok(()) => Ok(()),
        Err(_) => Err(RunFault::Replay(ReplayFault::Write)),
    }
}

/// Reads a policy, and writes the line `ok workers N tenants N arenas N segments N`. What is wrong
/// is one line on `err`, whose own faults are ignored; where nothing is, `err` isn't touched.
pub fn run_check<W: Sink, E: Write>(
    alloc: Global,
    policy: &[u8],
    out: &mut W,
    err: &mut E,
) -> Status
    ensures ends { EndsCheck result policy.now (W.seen out.old) (W.seen out.new) }
    ensures quiet { result ≡ Status.Done → err.new ≡ err.old }
{
    told(check(alloc, policy, out), err)
}

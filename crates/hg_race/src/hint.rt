//! What is told of a policy under which no race can be run.

ghost use Rattle.std.specs.Prelude.{◌≡◌, IfOk, option_map};
ghost use Rattle.hg_policy_text.specs.Document.{document_of};
ghost use Rattle.hg_race.specs.Races.{hint_of, told_of};

use crate::fit::lack;
use hg_policy_text::{PolicyFault, read_policy};
use std::alloc::{AllocError, Global};

/// The line that tells what is lacked, if something is.
fn hint(alloc: Global, lack: Option<&str>) -> Result<Vec<u8>, AllocError>
    ensures { IfOk result (λ hint. hint.items
        ≡ hint_of (option_map (λ text. text.now) lack.entry)) }
{
    let mut out = Vec::new(alloc);
    if let Some(lack) = lack {
        out.extend_from_slice(b"  ")?;
        out.extend_from_slice(lack.as_bytes())?;
        out.push(b'\n')?;
    }
    Ok(out)
}

/// What a user is told behind `race unfit`, as a line of its own behind two blanks: what the policy of
/// these bytes lacks for a race, of several the first. No text where a race can be run under it, or
/// where the bytes mean no policy. Its one error is want of memory.
pub fn race_hint(alloc: Global, policy: &[u8]) -> Result<Vec<u8>, AllocError>
    ensures { IfOk result (λ hint. hint.items ≡ told_of (document_of policy.now)) }
{
    match read_policy(alloc, policy) {
        Ok(policy) => hint(alloc, lack(&policy)),
        Err(PolicyFault::Memory) => Err(AllocError),
        Err(_) => Ok(Vec::new(alloc)),
    }
}

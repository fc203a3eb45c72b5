//! A bank of a policy's text.

ghost use Rattle.std.specs.Prelude.{◌≡◌, ◌≤◌, MatchResult};
ghost use Rattle.hg_policy_text.specs.Document.{document_of};
ghost use Rattle.hg_policy_text.specs.Faults.{FailsAs, fault_of};
ghost use Rattle.hg_ffi.specs.BankOpening.{IsOpening, Opens};

use crate::host_bank::HostBank;
use crate::opening::{status_of, tell_fault};
use hg_bank::{Bank, MAX_CORES};
use hg_policy_text::{PolicyFault, read_policy};
use hg_reply::Reply;
use hg_reply::status::{DONE, HELD, NO_COUNT};
use std::alloc::Global;
use std::mem;

/// A bank of the policy that a text is, with room for so many cores.
fn bank_of_text(alloc: Global, text: &[u8], cores: u16) -> Result<Box<Bank, Global>, PolicyFault>
    requires some { 1 ≤ cores }
    requires most { cores ≤ MAX_CORES }
    ensures { MatchResult result (λ bank. IsOpening text.now cores bank.value)
        (λ fault. FailsAs (fault_of fault) (document_of text.now)) }
{
    let policy = read_policy(alloc, text)?;
    let bank = Bank::open(alloc, policy, cores)?;
    let boxed = Box::new(alloc, bank)?;
    Ok(boxed)
}

/// Opens what isn't open, with room for so many cores.
pub fn open_bank(
    alloc: Global,
    text: &[u8],
    cores: u32,
    host: &mut HostBank,
    room: &mut [u8],
) -> Reply
    ensures { Opens host.old text.now cores room.old result host.new room.new }
{
    match mem::replace(host, HostBank::closed()).into_bank(alloc) {
        Ok(bank) => {
            *host = HostBank::of(bank);
            Reply::plain(HELD)
        }
        Err(closed) => {
            if cores < 1 {
                *host = closed;
                return Reply::plain(NO_COUNT);
            }
            if cores > u32::from(MAX_CORES) {
                *host = closed;
                return Reply::plain(NO_COUNT);
            }
            match bank_of_text(alloc, text, cores as u16) {
                Ok(bank) => {
                    *host = HostBank::of(bank);
                    Reply::plain(DONE)
                }
                Err(fault) => {
                    *host = closed;
                    let count = tell_fault(alloc, &fault, room);
                    Reply::valued(status_of(&fault), count as u64)
                }
            }
        }
    }
}

//! A core of a policy's text.

ghost use Rattle.std.specs.Prelude.{◌≡◌, ◌≢◌, MatchResult};
ghost use Rattle.hg_policy_text.specs.Document.{document_of};
ghost use Rattle.hg_policy_text.specs.Faults.{FailsAs, fault_of};
ghost use Rattle.hg_policy_text.specs.FaultLines.{fault_line};
ghost use Rattle.hg_ffi.specs.Opening.{IsOpening, Opens, fault_status};
ghost use Rattle.hg_reply.specs.Telling.{IsToldOrNot};

use crate::host_core::HostCore;
use hg_core::Core;
use hg_policy_text::{PolicyFault, read_policy};
use hg_reply::status::{DONE, HELD};
use hg_reply::{Reply, tell};
use std::alloc::Global;
use std::mem;

/// A core of the policy that a text is.
fn open_core(alloc: Global, text: &[u8]) -> Result<Box<Core, Global>, PolicyFault>
    ensures { MatchResult result (λ core. IsOpening text.now core.value)
        (λ fault. FailsAs (fault_of fault) (document_of text.now)) }
{
    let policy = read_policy(alloc, text)?;
    let core = Core::open(alloc, policy)?;
    let boxed = Box::new(alloc, core)?;
    Ok(boxed)
}

/// The status that tells a fault.
pub fn status_of(fault: &PolicyFault) -> u16
    ensures status { result ≡ fault_status fault.now }
    ensures refused { result ≢ 2 }
{
    match fault {
        PolicyFault::NotToml => 49,
        PolicyFault::Missing(_) => 50,
        PolicyFault::Kind(_) => 51,
        PolicyFault::Unknown(_) => 52,
        PolicyFault::Repeated(_) => 53,
        PolicyFault::NoSuchName(_) => 54,
        PolicyFault::TooMany(_) => 55,
        PolicyFault::Version => 56,
        PolicyFault::Memory => 57,
    }
}

/// Writes a fault's line, as far as there is room for it, and answers how many bytes of it were
/// written: none where there is no memory for it.
pub fn tell_fault(alloc: Global, fault: &PolicyFault, room: &mut [u8]) -> usize
    ensures { IsToldOrNot (fault_line fault.now) room.old result room.new }
{
    match format!(in alloc; "{fault}") {
        Ok(line) => tell(line.as_bytes(), room),
        Err(_) => 0,
    }
}

/// Opens what isn't open.
pub fn open(alloc: Global, text: &[u8], host: &mut HostCore, room: &mut [u8]) -> Reply
    ensures { Opens host.old text.now room.old result host.new room.new }
{
    match mem::replace(host, HostCore::closed()).into_core(alloc) {
        Ok(core) => {
            *host = HostCore::of(core);
            Reply::plain(HELD)
        }
        Err(closed) => match open_core(alloc, text) {
            Ok(core) => {
                *host = HostCore::of(core);
                Reply::plain(DONE)
            }
            Err(fault) => {
                *host = closed;
                let count = tell_fault(alloc, &fault, room);
                Reply::valued(status_of(&fault), count as u64)
            }
        },
    }
}

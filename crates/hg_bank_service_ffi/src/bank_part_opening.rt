//! A bank of services opens, gives its workers, and becomes a bank.

ghost use Rattle.std.specs.Prelude.{◌≡◌, ◌≢◌, ◌≤◌, IfOk, IfErr, MatchResult};
ghost use Rattle.hg_bank.specs.declared.bank.TheConstants.{MAX_CORES};
ghost use Rattle.hg_policy_text.specs.Document.{document_of};
ghost use Rattle.hg_policy_text.specs.Faults.{FailsAs, fault_of};
ghost use Rattle.hg_bank_service_replies.specs.declared.part.BankPart.TheVariants as part;
ghost use Rattle.hg_bank_service_replies.specs.Opening.{IsOpening};
ghost use Rattle.hg_bank_service_ffi.specs.BankPartOpening.{Becomes, Gives, GivesNone, HandsOut};
ghost use Rattle.hg_bank_service_ffi.specs.BankPartOpening.{Makes, MakesNone, Opens};

use crate::bank_part_serving::{kept, taken_part};
use crate::host_bank_part::HostBankPart;
use hg_bank::{Bank, MAX_CORES};
use hg_bank_service_replies::{BankPart, close, open, take_worker};
use hg_ffi::host_bank::HostBank;
use hg_ffi::opening::{status_of, tell_fault};
use hg_policy_text::PolicyFault;
use hg_reply::Reply;
use hg_reply::status::{CLOSED, DONE, HELD, NO_COUNT, NO_MEMORY};
use std::alloc::Global;
use std::mem;

/// A bank of services of the policy that a text is, with so many cores.
fn open_part(alloc: Global, text: &[u8], cores: u16) -> Result<Box<BankPart, Global>, PolicyFault>
    requires some { 1 ≤ cores }
    requires most { cores ≤ MAX_CORES }
    ensures { MatchResult result (λ part. IsOpening text.now cores part.value)
        (λ fault. FailsAs (fault_of fault) (document_of text.now)) }
{
    let part = open(alloc, text, cores)?;
    let boxed = Box::new(alloc, part)?;
    Ok(boxed)
}

/// Opens what isn't open, with so many cores.
pub fn open_bank_service(
    alloc: Global,
    text: &[u8],
    cores: u32,
    host: &mut HostBankPart,
    room: &mut [u8],
) -> Reply
    ensures { Opens host.old text.now cores room.old result host.new room.new }
{
    match mem::replace(host, HostBankPart::closed()).into_part(alloc) {
        Ok(part) => {
            *host = HostBankPart::of(part);
            Reply::plain(HELD)
        }
        Err(closed) => {
            if cores < 1 || cores > u32::from(MAX_CORES) {
                *host = closed;
                return Reply::plain(NO_COUNT);
            }
            match open_part(alloc, text, cores as u16) {
                Ok(part) => {
                    *host = HostBankPart::of(part);
                    Reply::plain(DONE)
                }
                Err(fault) => {
                    *host = closed;
                    let count = tell_fault(alloc, &fault, room);
                    Reply::valued(status_of(&fault), count as u64)
                }
            }
        }
    }
}

/// The worker of this number, once there is memory for it.
fn worker_for(
    alloc: Global,
    service: &mut HostBankPart,
    number: u32,
) -> Result<Box<BankPart, Global>, Reply>
    ensures given { IfOk result (λ room. (worker : _) × (room.value ≡ part.Worker worker)
        × Gives service.old number worker service.new) }
    ensures none { IfErr result (λ why. GivesNone service.old number why service.new) }
    ensures refused { IfErr result (λ why. why.status ≢ 2) }
{
    let Some(mut part) = taken_part(alloc, service) else {
        return Err(Reply::plain(CLOSED));
    };
    let Ok(mut room) = Box::new(alloc, BankPart::Gone) else {
        *service = HostBankPart::of(part);
        return Err(Reply::plain(NO_MEMORY));
    };
    let given = take_worker(&mut part, number);
    *service = kept(part);
    *room = BankPart::Worker(given?);
    Ok(room)
}

/// Gives a worker of a bank of services, where none stands yet.
pub fn hand_bank_worker(
    alloc: Global,
    service: &mut HostBankPart,
    number: u32,
    worker: &mut HostBankPart,
) -> Reply
    ensures { HandsOut service.old number worker.old result service.new worker.new }
{
    match mem::replace(worker, HostBankPart::closed()).into_part(alloc) {
        Ok(part) => {
            *worker = HostBankPart::of(part);
            Reply::plain(HELD)
        }
        Err(closed) => match worker_for(alloc, service, number) {
            Ok(part) => {
                *worker = HostBankPart::of(part);
                Reply::plain(DONE)
            }
            Err(why) => {
                *worker = closed;
                why
            }
        },
    }
}

/// The bank that a bank of services becomes. Where there is no memory for it, it waits there.
fn bank_of(alloc: Global, service: &mut HostBankPart) -> Result<Box<Bank, Global>, Reply>
    ensures made { IfOk result (λ bank. Makes service.old bank.value service.new) }
    ensures none { IfErr result (λ why. MakesNone service.old why service.new) }
    ensures refused { IfErr result (λ why. why.status ≢ 2) }
{
    let Some(mut part) = taken_part(alloc, service) else {
        return Err(Reply::plain(CLOSED));
    };
    let made = close(alloc, &mut part);
    match made {
        Ok(bank) => match Box::new(alloc, bank) {
            Ok(boxed) => {
                *service = kept(part);
                Ok(boxed)
            }
            Err(failed) => {
                *part = BankPart::Bank(failed.value);
                *service = kept(part);
                Err(Reply::plain(NO_MEMORY))
            }
        },
        Err(why) => {
            *service = kept(part);
            Err(why)
        }
    }
}

/// A bank of services becomes a bank, where none stands yet.
pub fn close_bank_service(alloc: Global, service: &mut HostBankPart, bank: &mut HostBank) -> Reply
    ensures { Becomes service.old bank.old result service.new bank.new }
{
    match mem::replace(bank, HostBank::closed()).into_bank(alloc) {
        Ok(there) => {
            *bank = HostBank::of(there);
            Reply::plain(HELD)
        }
        Err(closed) => match bank_of(alloc, service) {
            Ok(made) => {
                *bank = HostBank::of(made);
                Reply::plain(DONE)
            }
            Err(why) => {
                *bank = closed;
                why
            }
        },
    }
}

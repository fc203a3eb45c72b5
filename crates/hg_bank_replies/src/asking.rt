//! What a host asks a bank.

ghost use Rattle.std.specs.Prelude.{◌≡◌};
ghost use Rattle.hg_bank_replies.specs.Asking.{answer_to, charged, holder_told, shut_to};

use crate::serving::worker_of;
use hg_bank::Bank;
use hg_reply::status::{CLOSED, NO_NAME, NO_WORKER, VALUE};
use hg_reply::{NOBODY, Reply, holding};

/// A question that changes nothing.
#[derive(Clone, Copy)]
pub enum BankQuestion {
    /// How many cores are open.
    Cores,
    /// How many workers there are.
    Workers,
    /// How many segments each core has.
    Segments,
    /// Whether the worker holds the segment, as 1 or 0.
    Holds { core: u16, worker: u8, segment: u8 },
    /// The worker that holds the segment, if one does.
    Holder { core: u16, segment: u8 },
    /// What counts against the tenant's limit with the worker, over all cores, in bytes.
    Charge { worker: u32, tenant: u8 },
}

fn holder(bank: &Bank, core: u16, segment: u8) -> Reply
    ensures { result ≡ holder_told bank.now core segment }
{
    match bank.core(core) {
        Some(core) => holding(core.holder(segment)),
        None => holding(None),
    }
}

fn charge(bank: &Bank, worker: u32, tenant: u8) -> Reply
    ensures { result ≡ charged bank.now worker tenant }
{
    let Some(worker) = worker_of(bank, worker) else {
        return Reply::plain(NO_WORKER);
    };
    match bank.charge(worker, tenant) {
        Some(bytes) => Reply::valued(VALUE, bytes),
        None => Reply::plain(NO_NAME),
    }
}

/// Answers a question.
pub fn answer(bank: &Bank, question: BankQuestion) -> Reply
    ensures { result ≡ answer_to question bank.now }
{
    match question {
        BankQuestion::Cores => Reply::valued(VALUE, u64::from(bank.cores())),
        BankQuestion::Workers => Reply::valued(VALUE, u64::from(bank.policy().workers())),
        BankQuestion::Segments => Reply::valued(VALUE, u64::from(bank.policy().segments())),
        BankQuestion::Holds {
            core,
            worker,
            segment,
        } => match bank.core(core) {
            Some(core) => Reply::valued(VALUE, u64::from(core.holds(worker, segment))),
            None => Reply::valued(VALUE, 0),
        },
        BankQuestion::Holder { core, segment } => holder(bank, core, segment),
        BankQuestion::Charge { worker, tenant } => charge(bank, worker, tenant),
    }
}

/// What a question is answered where the bank is closed.
pub fn shut(question: BankQuestion) -> Reply
    ensures { result ≡ shut_to question }
{
    match question {
        BankQuestion::Cores => Reply::plain(CLOSED),
        BankQuestion::Workers => Reply::plain(CLOSED),
        BankQuestion::Segments => Reply::plain(CLOSED),
        BankQuestion::Holds { .. } => Reply::plain(CLOSED),
        BankQuestion::Holder { .. } => Reply::valued(CLOSED, NOBODY),
        BankQuestion::Charge { .. } => Reply::plain(CLOSED),
    }
}

//! A part is given up.

ghost use Rattle.hg_bank_service_replies.specs.Dropping.{DropsService, DropsWorker};

use crate::part::BankPart;
use hg_reply::Reply;
use hg_reply::status::{CLOSED, DONE};
use std::mem;

/// Gives up a worker, also one that is leaving, with all that it holds: `DONE`, and the part is gone.
/// Any other part is answered `CLOSED`, and stays.
pub fn drop_worker(part: &mut BankPart) -> Reply
    ensures { DropsWorker part.old result part.new }
{
    match mem::replace(part, BankPart::Gone) {
        BankPart::Worker(_worker) => Reply::plain(DONE),
        BankPart::Leaving(_left) => Reply::plain(DONE),
        other => {
            *part = other;
            Reply::plain(CLOSED)
        }
    }
}

/// Gives up a bank of services, whose workers go on, or the bank that it became: `DONE`, and the part
/// is gone. Any other part is answered `CLOSED`, and stays.
pub fn drop_service(part: &mut BankPart) -> Reply
    ensures { DropsService part.old result part.new }
{
    match mem::replace(part, BankPart::Gone) {
        BankPart::Service(_opened) => Reply::plain(DONE),
        BankPart::Bank(_bank) => Reply::plain(DONE),
        other => {
            *part = other;
            Reply::plain(CLOSED)
        }
    }
}

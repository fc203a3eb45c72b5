//! What a host asks a core.

ghost use Rattle.std.specs.Prelude.{◌≡◌};
ghost use Rattle.hg_ffi.specs.Asking.{Tells, answer_to};

use crate::lent_core::LentCore;
use hg_core::Core;
use hg_reply::Reply;
use hg_reply::status::{CLOSED, VALUE};

/// A question that changes nothing.
#[derive(Clone, Copy)]
pub enum Question {
    Workers,
    Segments,
    Holds { worker: u8, segment: u8 },
}

fn answer(core: &Core, question: Question) -> Reply
    ensures { result ≡ answer_to question core.now }
{
    match question {
        Question::Workers => Reply::valued(VALUE, u64::from(core.policy().workers())),
        Question::Segments => Reply::valued(VALUE, u64::from(core.policy().segments())),
        Question::Holds { worker, segment } => {
            Reply::valued(VALUE, u64::from(core.holds(worker, segment)))
        }
    }
}

/// Asks a core.
pub fn ask(host: &LentCore, question: Question) -> Reply
    ensures { Tells host.now (answer_to question) result }
{
    match host.core() {
        Some(core) => answer(core, question),
        None => Reply::plain(CLOSED),
    }
}

//! How far a call for many words came.

ghost use Rattle.std.specs.Prelude.{◌≡◌};
ghost use Rattle.hg_reply.specs.Counts.{count_reply};

use crate::reply::{Reply, reply_of};
use crate::status::DONE;
use hg_bulk::Progress;
use hg_heap::refused_answer;

/// How many were done, and why no more were, if any was refused.
pub fn count_reply(made: Progress) -> Reply
    ensures { result ≡ count_reply made.done made.refused }
{
    let value = made.done as u64;
    match made.refused {
        None => Reply::valued(DONE, value),
        Some(why) => {
            let told = reply_of(refused_answer(why));
            Reply {
                status: told.status,
                owner: told.owner,
                detail: told.detail,
                value,
            }
        }
    }
}

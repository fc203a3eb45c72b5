//! Who holds a segment.

ghost use Rattle.std.specs.Prelude.{◌≡◌};
ghost use Rattle.hg_reply.specs.Holding.{holding};

use crate::naming::NOBODY;
use crate::reply::Reply;
use crate::status::{NOT_HELD, VALUE};

/// The worker that holds a segment; where nobody does, the value is nobody's number.
pub fn holding(worker: Option<u8>) -> Reply
    ensures { result ≡ holding worker }
{
    match worker {
        Some(worker) => Reply::valued(VALUE, u64::from(worker)),
        None => Reply::valued(NOT_HELD, NOBODY),
    }
}

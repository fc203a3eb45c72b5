ghost use Rattle.std.specs.Prelude.{◌≡◌, length};

use crate::kept_list::KeptList;
use crate::left::Left;
use hg_worker::{KeptPool, ServiceName};
use std::sync::Mutex;

/// What the workers of the service N share, each part behind a lock of its own. A worker's call holds
/// one of these at a time, and takes no other under it; closing takes the others under the pool's.
#[derive(Drop)]
pub(crate) struct Shared<N: ServiceName> {
    /// By segment, what was sent to it.
    pub(crate) lists: Vec<Mutex<KeptList<N>>>,
    /// The segments that nobody holds.
    pub(crate) pool: Mutex<KeptPool<N>>,
    /// The workers that have left.
    pub(crate) left: Mutex<Left<N>>,
    ghost all: { length lists.items ≡ length N.policy.segments },
}

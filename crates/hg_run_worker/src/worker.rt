//! What a worker has.

ghost use Rattle.std.specs.Prelude.{◌<◌};

use hg_heap::Heap;
use hg_place::Handle;
use hg_policy::Policy;
use hg_run_table::{RunSeat, RunSegment, RunTable};
use std::alloc::Global;
use std::sync::Arc;

/// A worker of a service whose table keeps one run of all calls: the segments that it holds, its part of
/// the run, and the life that it has freed and not delivered yet. Dropped, its part and its segments are
/// lost, and the table can be closed as one run no more.
#[derive(Drop)]
pub struct RunWorker {
    pub(crate) table: Arc<RunTable, Global>,
    pub(crate) policy: Policy,
    pub(crate) number: u8,
    pub(crate) heap: Heap<RunSegment>,
    pub(crate) call: RunSeat,
    /// What it knows of words and lives elsewhere; none while a Free has it in `call`.
    pub(crate) own: Option<RunSeat>,
    pub(crate) hand: Option<Handle>,
    ghost below: { number < policy.workers },
}

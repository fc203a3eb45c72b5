//! What the workers of a service share.

use crate::of_service::OfService;
use hg_pool::Pool;
use hg_remote::RemoteList;
use hg_table::UnnamedSegment;
use hg_worker::WorkerState;
use std::alloc::Global;

/// The segments of a service that nobody holds.
#[derive(Drop)]
pub(crate) struct Segments {
    pub(crate) pool: Pool<UnnamedSegment>,
}

impl OfService for Segments {
    ghost use Rattle.hg_hosted.specs.Parts.{HasSegments};

    ghost of_service = { HasSegments };
}

/// What was sent to a segment.
#[derive(Drop)]
pub(crate) struct Sent {
    pub(crate) list: RemoteList,
}

impl OfService for Sent {
    ghost use Rattle.std.specs.Prelude.{⊤};

    ghost of_service = { λ of sent. ⊤ };
}

/// A worker that has left. One without a worker stands where they go from the first.
#[derive(Drop)]
pub(crate) struct Left {
    pub(crate) state: Option<Box<WorkerState, Global>>,
}

impl OfService for Left {
    ghost use Rattle.hg_hosted.specs.Parts.{HasLeft};

    ghost of_service = { HasLeft };
}

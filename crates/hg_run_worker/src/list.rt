//! Remote lists.

ghost use Rattle.std.specs.Prelude.{◌≡◌, [], IfOk};
ghost use Rattle.atomic_table.specs.Seated.{TableId};
ghost use Rattle.hg_remote.specs.Remote.{nothing_sent};
ghost use Rattle.hg_roles.specs.Roles.{of_remote};
ghost use Rattle.hg_run_table.specs.NewSeats.{IsNewOther};
ghost use Rattle.hg_run_worker.specs.Lists.{IsListOf};

use hg_remote::RemoteList;
use hg_run_table::RunSeat;
use std::alloc::{AllocError, Global};

/// The remote list of a segment: the places of freed blocks that workers sent to it which don't hold it, and
/// its part of the run of all calls. Dropped, its part is lost, and the table can be closed as one run no
/// more.
#[derive(Drop)]
pub struct RunList {
    pub(crate) list: RemoteList,
    pub(crate) call: RunSeat,
    pub(crate) segment: u8,
}

impl RunList {
    /// The list of the segment of a number, by its seat of a new table: nothing was sent to it. Where memory
    /// was refused the seat is given up.
    pub fn new(alloc: Global, segment: u8, seat: RunSeat) -> Result<RunList, AllocError>
        ensures list { IfOk result (λ list. (id : TableId)
            → IsNewOther id (of_remote segment []) seat → IsListOf id list) }
        ensures segment { IfOk result (λ list. list.segment ≡ segment) }
        ensures empty { IfOk result (λ list. list.list ≡ nothing_sent) }
        ensures seat { IfOk result (λ list. list.call ≡ seat) }
    {
        let list = RemoteList::new(alloc)?;
        Ok(RunList {
            list,
            call: seat,
            segment,
        })
    }

    /// The list's seat, to end the service by. Its places stay sent in the run, and no list that is made of the
    /// seat has them.
    pub fn into_seat(self) -> RunSeat
        ensures { result ≡ self.call }
    {
        self.call
    }

    /// The number of its segment.
    pub fn segment(&self) -> u8
        ensures { result ≡ self.now.segment }
    {
        self.segment
    }
}

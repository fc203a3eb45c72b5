/// What a worker, or all of them, did.
#[derive(Clone, Copy)]
pub struct Counts {
    pub events: u64,
    pub allocated: u64,
    /// By the worker that held the segment.
    pub freed: u64,
    /// By another.
    pub parted: u64,
    /// Places that came home by a take.
    pub taken: u64,
    pub busy: u64,
    /// Frees of a block that the call before had shown to be live.
    pub seen: u64,
    /// Of these, those that found a word newer than seen: the block was freed meanwhile.
    pub newer: u64,
    /// Of these, those by the worker that holds the segment: there a free makes its exchange at
    /// once, so that is what failed.
    pub lost: u64,
    /// Segments that came to a worker.
    pub refilled: u64,
    /// Of these, those that another had given up.
    pub orphans: u64,
    /// Lives that weren't the next of their place, when they were begun or ended.
    pub broken: u64,
}

impl Counts {
    pub fn none() -> Counts {
        Counts {
            events: 0,
            allocated: 0,
            freed: 0,
            parted: 0,
            taken: 0,
            busy: 0,
            seen: 0,
            newer: 0,
            lost: 0,
            refilled: 0,
            orphans: 0,
            broken: 0,
        }
    }

    /// These and the others.
    pub fn and(self, other: Counts) -> Counts {
        Counts {
            events: self.events.wrapping_add(other.events),
            allocated: self.allocated.wrapping_add(other.allocated),
            freed: self.freed.wrapping_add(other.freed),
            parted: self.parted.wrapping_add(other.parted),
            taken: self.taken.wrapping_add(other.taken),
            busy: self.busy.wrapping_add(other.busy),
            seen: self.seen.wrapping_add(other.seen),
            newer: self.newer.wrapping_add(other.newer),
            lost: self.lost.wrapping_add(other.lost),
            refilled: self.refilled.wrapping_add(other.refilled),
            orphans: self.orphans.wrapping_add(other.orphans),
            broken: self.broken.wrapping_add(other.broken),
        }
    }
}

/// One more.
pub fn more(count: &mut u64) {
    *count = count.wrapping_add(1);
}

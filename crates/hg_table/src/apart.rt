//! Two seats of segments are of different ones.

ghost use Rattle.std.specs.Prelude.{◌≡◌, ◌≢◌};

use crate::name::TableName;
use crate::plays::{Both, Meet};
use crate::segment::{SegmentSeat, UnnamedSegment};

impl UnnamedSegment {
    /// That two seats of one table are of different segments: the one takes in the other, and looks
    /// at the spare word. Both seats are used up.
    pub fn apart(self, other: UnnamedSegment)
        requires { self.seat.table_id ≡ other.seat.table_id }
        ensures { self.segment ≢ other.segment }
    {
        let UnnamedSegment {
            table,
            mut seat,
            segment: _,
            records: _,
        } = self;
        let UnnamedSegment {
            table: _,
            seat: theirs,
            segment: _,
            records: _,
        } = other;
        let shared = &table.shared;
        shared.join_seat::<Both>(&mut seat, theirs);
        shared.load::<Meet>(&mut seat, 0);
    }
}

impl<N: TableName> SegmentSeat<N> {
    /// That two seats of the table are of different segments. Both are used up.
    pub fn apart(self, other: SegmentSeat<N>)
        ensures { self.inner.segment ≢ other.inner.segment }
    {
        self.without_name().apart(other.without_name());
    }
}

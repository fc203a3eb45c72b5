//! Calls are decided by the worker's part of the run, alone or with the pool's.

ghost use Rattle.std.specs.Prelude.{◌≡◌, [], ◌∷◌, ◌++◌, None};
ghost use Rattle.std.specs.Arc.{arc_value};
ghost use Rattle.hg_machine.specs.State.{State};
ghost use Rattle.hg_agreement.specs.Agreement.{Agrees};
ghost use Rattle.hg_roles.specs.Roles.{RoleAgrees};
ghost use Rattle.hg_run_table.specs.Calls.{IsRefused, IsTiedAlone, IsWorkers, log_in};
ghost use Rattle.hg_run_table.specs.JoinedCalls.{IsOthers, IsTiedTogether};
ghost use Rattle.hg_run_worker.specs.AtWork.{KeepsRest, number_in};

use crate::RunWorker;
use hg_place::Place;
use hg_run_table::{OtherPart, OwnCall, RunSeat, RunSegment, RunTable};
use hg_segment::Segment;
use std::alloc::Global;
use std::marker::Brand;
use std::mem;
use std::sync::Arc;

impl RunWorker {
    /// A call that rests on no word is decided, by the worker's part of the run. Segments stay.
    pub(crate) fn call_alone<W: OwnCall>(&mut self)
        requires same { self.old.call.seat.table_id
            ≡ (arc_value self.old.table).table.shared.table_id }
        requires worker { IsWorkers self.old.call W.before }
        requires tied { IsTiedAlone (arc_value self.old.table).table.shared.key W.before W.call
            W.after }
        ensures same { self.new.call.seat.table_id ≡ self.old.call.seat.table_id }
        ensures lives { self.new.call.seat.me.0.lives ≡ self.old.call.seat.me.0.lives }
        ensures log { log_in self.new.call ≡ log_in self.old.call ++ W.call ∷ [] }
        ensures worker { IsWorkers self.new.call W.after }
        ensures agreed { (m : State) × Agrees m W.before None }
        ensures heap { self.new.heap ≡ self.old.heap }
        ensures rest { KeepsRest self.old self.new }
    {
        let table = &self.table;
        table.call_alone::<W>(&mut self.call);
    }

    /// So is one that what the worker has refuses.
    pub(crate) fn refuse<W: OwnCall>(&mut self)
        requires same { self.old.call.seat.table_id
            ≡ (arc_value self.old.table).table.shared.table_id }
        requires worker { IsWorkers self.old.call W.before }
        requires refused { IsRefused (arc_value self.old.table).table.shared.key W.before W.call }
        ensures same { self.new.call.seat.table_id ≡ self.old.call.seat.table_id }
        ensures lives { self.new.call.seat.me.0.lives ≡ self.old.call.seat.me.0.lives }
        ensures log { log_in self.new.call ≡ log_in self.old.call ++ W.call ∷ [] }
        ensures worker { IsWorkers self.new.call W.before }
        ensures agreed { (m : State) × Agrees m W.before None }
        ensures heap { self.new.heap ≡ self.old.heap }
        ensures rest { KeepsRest self.old self.new }
    {
        let table = &self.table;
        table.refuse::<W>(&mut self.call);
    }

    /// A call of the worker and the pool, or a remote list, is decided, by their parts of the run. Segments
    /// stay. Before it some state agreed with both.
    pub(crate) fn call_with<W: OwnCall, P: OtherPart>(&mut self, other: &mut RunSeat)
        requires same { self.old.call.seat.table_id
            ≡ (arc_value self.old.table).table.shared.table_id }
        requires of_it { other.old.seat.table_id
            ≡ (arc_value self.old.table).table.shared.table_id }
        requires bare { self.old.call.seat.me.0.lives ≡ [] }
        requires bare_other { other.old.seat.me.0.lives ≡ [] }
        requires worker { IsWorkers self.old.call W.before }
        requires other { IsOthers other.old P.role }
        requires tied { IsTiedTogether (arc_value self.old.table).table.shared.key W.before
            (log_in self.old.call) W.call W.after P.role P.left }
        ensures same { self.new.call.seat.table_id ≡ self.old.call.seat.table_id }
        ensures of_it { other.new.seat.table_id ≡ self.old.call.seat.table_id }
        ensures bare { self.new.call.seat.me.0.lives ≡ [] }
        ensures bare_other { other.new.seat.me.0.lives ≡ [] }
        ensures log { log_in self.new.call ≡ log_in self.old.call ++ W.call ∷ [] }
        ensures worker { IsWorkers self.new.call W.after }
        ensures other { IsOthers other.new P.left }
        ensures agreed { (m : State) × Agrees m W.before None × RoleAgrees P.role m }
        ensures heap { self.new.heap ≡ self.old.heap }
        ensures rest { KeepsRest self.old self.new }
    {
        let table = &self.table;
        let blank = table.split::<Brand>(&mut self.call);
        let seat = mem::replace(other, blank);
        *other = table.call_together::<W, P>(&mut self.call, seat);
    }
}

/// Two segments of one table are never of one number.
pub(crate) fn never_twice(
    table: &Arc<RunTable, Global>,
    one: Segment<RunSegment>,
    other: Segment<RunSegment>,
)
    requires number { number_in one.slots ≡ number_in other.slots }
    requires same { one.slots.seat.seat.table_id ≡ (arc_value table.now).table.shared.table_id }
    requires of_it { other.slots.seat.seat.table_id
        ≡ (arc_value table.now).table.shared.table_id }
    ensures { ⊥ }
{
    let place = Place {
        segment: one.number(),
        page: 0,
        index: 0,
    };
    let mut seat = one.into_slots().into_seat();
    table.join(&mut seat, other.into_slots().into_seat());
    table.look(&mut seat, place);
}

//! Calls that concern a worker and a remote list, or a worker and the pool: one event of two seats
//! that are joined for it.

ghost use Rattle.std.specs.Prelude.{◌≡◌, [], ◌∷◌, ◌++◌, None};
ghost use Rattle.hg_machine.specs.State.{State};
ghost use Rattle.hg_agreement.specs.Agreement.{Agrees};
ghost use Rattle.hg_roles.specs.Roles.{RoleAgrees};
ghost use Rattle.hg_run_table.specs.Calls.{IsWorkers, log_in};
ghost use Rattle.hg_run_table.specs.JoinedCalls.{IsOthers, IsTiedTogether};

use crate::call::{OtherPart, OwnCall};
use crate::table::{RunSeat, RunTable};
use std::marker::Brand;

impl RunTable {
    /// A call of a worker and another part is decided at one load of the spare word, by their seats
    /// joined; the other's comes back. Before it some state agreed with both.
    pub fn call_together<W: OwnCall, P: OtherPart>(
        &self,
        seat: &mut RunSeat,
        other: RunSeat,
    ) -> RunSeat
        requires same { seat.old.seat.table_id ≡ self.now.table.shared.table_id }
        requires of_it { other.seat.table_id ≡ self.now.table.shared.table_id }
        requires worker { IsWorkers seat.old W.before }
        requires other { IsOthers other P.role }
        requires bare { other.seat.me.0.lives ≡ [] }
        requires tied { IsTiedTogether self.now.table.shared.key W.before (log_in seat.old) W.call
            W.after P.role P.left }
        ensures same { seat.new.seat.table_id ≡ seat.old.seat.table_id }
        ensures of_it { result.seat.table_id ≡ seat.old.seat.table_id }
        ensures lives { seat.new.seat.me.0.lives ≡ seat.old.seat.me.0.lives }
        ensures bare { result.seat.me.0.lives ≡ [] }
        ensures log { log_in seat.new ≡ log_in seat.old ++ W.call ∷ [] }
        ensures worker { IsWorkers seat.new W.after }
        ensures other { IsOthers result P.left }
        ensures agreed { (m : State) × Agrees m W.before None × RoleAgrees P.role m }
    {
        self.join(seat, other);
        self.decide::<Brand>(seat);
        self.split::<Brand>(seat)
    }
}

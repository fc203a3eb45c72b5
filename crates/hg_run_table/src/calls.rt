//! Calls of workers: each says which call is logged.

ghost use Rattle.std.specs.Prelude.{◌≡◌, ℕ, ◌+◌, ◌<◌, [], ◌∷◌, ◌++◌, map};
ghost use Rattle.hg_place.specs.Places.{number_of};
ghost use Rattle.hg_roles.specs.Served.{places_of_policy};
ghost use Rattle.hg_table.specs.Steps.{look, open_as, close_from, part_from, MayMakeBy};
ghost use Rattle.hg_table.specs.Steps.{known_after, view_after, left_by};
ghost use Rattle.hg_table.specs.Told.{IsShownTo};
ghost use Rattle.hg_run_table.specs.Found.{IsAgreed, IsFound};
ghost use Rattle.hg_run_table.specs.Calls.{IsWorkers, log_in, with_call, view_by, MayCall};
ghost use Rattle.hg_run_table.specs.Calls.{IsTiedAlone, IsRefused};

use crate::call::{OwnCall, WorkerCall};
use crate::decision::StepsBy;
use crate::table::{RunSeat, RunTable};
use hg_place::Place;
use std::marker::Brand;

impl RunTable {
    /// The word of a place, by one load, at which a call is decided where the word says so, as one
    /// that it refuses.
    pub fn call_at_look<W: WorkerCall>(&self, seat: &mut RunSeat, place: Place) -> u64
        requires same { seat.old.seat.table_id ≡ self.now.table.shared.table_id }
        requires place { number_of place < places_of_policy self.now.table.shared.key }
        requires worker { IsWorkers seat.old W.before }
        requires tied { (word : ℕ) → IsShownTo (number_of place + 1) word seat.old.seat.me.0.lives
            → MayCall self.now.table.shared.key (number_of place) word word
            W.before (W.call word) (W.after word) }
        ensures same { seat.new.seat.table_id ≡ seat.old.seat.table_id }
        ensures shown { IsShownTo (number_of place + 1) result seat.old.seat.me.0.lives }
        ensures lives { seat.new.seat.me.0.lives
            ≡ map (known_after look (number_of place + 1) result) seat.old.seat.me.0.lives }
        ensures log { log_in seat.new ≡ with_call (log_in seat.old) (W.call result) }
        ensures worker { IsWorkers seat.new (view_by W.before (W.call result) (W.after result)) }
        ensures found { IsFound (number_of place) result seat.old.seat.me.0.run }
    {
        self.look_deciding::<Brand>(seat, place)
    }

    /// Gives a place out that is home, by one store of its live word, at which a call is decided.
    pub fn call_at_open<W: WorkerCall, P: StepsBy>(
        &self,
        seat: &mut RunSeat,
        place: Place,
        live: u64,
    )
        requires same { seat.old.seat.table_id ≡ self.now.table.shared.table_id }
        requires place { number_of place < places_of_policy self.now.table.shared.key }
        requires may { MayMakeBy P.by (open_as live) (number_of place + 1)
            seat.old.seat.me.0.lives }
        requires worker { IsWorkers seat.old W.before }
        requires tied { (word : ℕ) → IsShownTo (number_of place + 1) word seat.old.seat.me.0.lives
            → MayCall self.now.table.shared.key (number_of place) word live
            W.before (W.call live) (W.after live) }
        ensures same { seat.new.seat.table_id ≡ seat.old.seat.table_id }
        ensures lives { seat.new.seat.me.0.lives
            ≡ view_after P.by (open_as live) (number_of place + 1) live seat.old.seat.me.0.lives }
        ensures log { log_in seat.new ≡ with_call (log_in seat.old) (W.call live) }
        ensures worker { IsWorkers seat.new (view_by W.before (W.call live) (W.after live)) }
    {
        self.open_deciding::<Brand, P>(seat, place, live);
    }

    /// Ends the life of the live word that is expected, where it stands, and takes its place home,
    /// by one exchange, at which a call is decided by the word that it finds, which it gives.
    pub fn call_at_close<W: WorkerCall, P: StepsBy>(
        &self,
        seat: &mut RunSeat,
        place: Place,
        expected: u64,
    ) -> u64
        requires same { seat.old.seat.table_id ≡ self.now.table.shared.table_id }
        requires place { number_of place < places_of_policy self.now.table.shared.key }
        requires may { MayMakeBy P.by (close_from expected) (number_of place + 1)
            seat.old.seat.me.0.lives }
        requires worker { IsWorkers seat.old W.before }
        requires tied { (word : ℕ) → IsShownTo (number_of place + 1) word seat.old.seat.me.0.lives
            → MayCall self.now.table.shared.key (number_of place) word (left_by (close_from expected) word)
            W.before (W.call word) (W.after word) }
        ensures same { seat.new.seat.table_id ≡ seat.old.seat.table_id }
        ensures shown { IsShownTo (number_of place + 1) result seat.old.seat.me.0.lives }
        ensures lives { seat.new.seat.me.0.lives
            ≡ view_after P.by (close_from expected) (number_of place + 1) result
            seat.old.seat.me.0.lives }
        ensures log { log_in seat.new ≡ with_call (log_in seat.old) (W.call result) }
        ensures worker { IsWorkers seat.new (view_by W.before (W.call result) (W.after result)) }
        ensures found { IsFound (number_of place) result seat.old.seat.me.0.run }
    {
        self.close_deciding::<Brand, P>(seat, place, expected)
    }

    /// The same, and its place stays open.
    pub fn call_at_part<W: WorkerCall, P: StepsBy>(
        &self,
        seat: &mut RunSeat,
        place: Place,
        expected: u64,
    ) -> u64
        requires same { seat.old.seat.table_id ≡ self.now.table.shared.table_id }
        requires place { number_of place < places_of_policy self.now.table.shared.key }
        requires may { MayMakeBy P.by (part_from expected) (number_of place + 1)
            seat.old.seat.me.0.lives }
        requires worker { IsWorkers seat.old W.before }
        requires tied { (word : ℕ) → IsShownTo (number_of place + 1) word seat.old.seat.me.0.lives
            → MayCall self.now.table.shared.key (number_of place) word (left_by (part_from expected) word)
            W.before (W.call word) (W.after word) }
        ensures same { seat.new.seat.table_id ≡ seat.old.seat.table_id }
        ensures shown { IsShownTo (number_of place + 1) result seat.old.seat.me.0.lives }
        ensures lives { seat.new.seat.me.0.lives
            ≡ view_after P.by (part_from expected) (number_of place + 1) result
            seat.old.seat.me.0.lives }
        ensures log { log_in seat.new ≡ with_call (log_in seat.old) (W.call result) }
        ensures worker { IsWorkers seat.new (view_by W.before (W.call result) (W.after result)) }
        ensures found { IsFound (number_of place) result seat.old.seat.me.0.run }
    {
        self.part_deciding::<Brand, P>(seat, place, expected)
    }

    /// A call that is tied without a word is decided at one load of the spare one.
    pub fn call_alone<W: OwnCall>(&self, seat: &mut RunSeat)
        requires same { seat.old.seat.table_id ≡ self.now.table.shared.table_id }
        requires worker { IsWorkers seat.old W.before }
        requires tied { IsTiedAlone self.now.table.shared.key W.before W.call W.after }
        ensures same { seat.new.seat.table_id ≡ seat.old.seat.table_id }
        ensures lives { seat.new.seat.me.0.lives ≡ seat.old.seat.me.0.lives }
        ensures log { log_in seat.new ≡ log_in seat.old ++ W.call ∷ [] }
        ensures worker { IsWorkers seat.new W.after }
        ensures agreed { IsAgreed seat.old.seat.me.0.run }
    {
        self.decide::<Brand>(seat);
    }

    /// So is one that what the worker has refuses.
    pub fn refuse<W: OwnCall>(&self, seat: &mut RunSeat)
        requires same { seat.old.seat.table_id ≡ self.now.table.shared.table_id }
        requires worker { IsWorkers seat.old W.before }
        requires refused { IsRefused self.now.table.shared.key W.before W.call }
        ensures same { seat.new.seat.table_id ≡ seat.old.seat.table_id }
        ensures lives { seat.new.seat.me.0.lives ≡ seat.old.seat.me.0.lives }
        ensures log { log_in seat.new ≡ log_in seat.old ++ W.call ∷ [] }
        ensures worker { IsWorkers seat.new W.before }
        ensures agreed { IsAgreed seat.old.seat.me.0.run }
    {
        self.decide::<Brand>(&mut *seat);
    }
}

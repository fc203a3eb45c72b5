//! Steps at the word of a place that answer what a worker of the seat is asked, if one is.

ghost use Rattle.std.specs.Prelude.{◌≡◌, ℕ, ◌+◌, ◌<◌, List, map};
ghost use Rattle.hg_place.specs.Places.{number_of};
ghost use Rattle.hg_roles.specs.Roles.{Role};
ghost use Rattle.hg_roles.specs.Served.{places_of_policy};
ghost use Rattle.hg_table.specs.Steps.{look, open_as, close_from, part_from, MayMakeBy};
ghost use Rattle.hg_table.specs.Steps.{known_after, view_after, left_by};
ghost use Rattle.hg_table.specs.Told.{IsShownTo};
ghost use Rattle.hg_run_table.specs.Asked.{MayLeave, HasLeft, IsWorkerAsked, asking};
ghost use Rattle.hg_run_table.specs.Found.{IsFound};
ghost use Rattle.hg_run_table.specs.Seated.{HaveRoles};

use crate::decision::{Asks, StepsBy};
use crate::plays::{Asking, CloseAnswering, LookAnswering, OpenAnswering, PartAnswering};
use crate::table::{RunSeat, RunTable};
use hg_place::Place;

impl RunTable {
    /// The parts of the seat are asked what the caller picks, from this load of the spare word on.
    pub fn ask<E: Asks>(&self, seat: &mut RunSeat)
        requires same { seat.old.seat.table_id ≡ self.now.table.shared.table_id }
        ensures same { seat.new.seat.table_id ≡ seat.old.seat.table_id }
        ensures lives { seat.new.seat.me.0.lives ≡ seat.old.seat.me.0.lives }
        ensures run { seat.new.seat.me.0.run ≡ map (asking E.asked) seat.old.seat.me.0.run }
        ensures asked { (worker : ℕ) → IsWorkerAsked worker E.asked seat.new.seat.me.0.run }
        ensures roles { (roles : List Role) → HaveRoles seat.old.seat.me.0.run roles
            → HaveRoles seat.new.seat.me.0.run roles }
    {
        let shared = &self.table.shared;
        shared.load::<Asking<E>>(&mut seat.seat, 0);
    }

    /// The word of a place, by one load, which answers what a worker of the seat is asked next by what
    /// it finds; where none is asked anything, nothing is decided.
    pub fn look_asked(&self, seat: &mut RunSeat, place: Place) -> u64
        requires same { seat.old.seat.table_id ≡ self.now.table.shared.table_id }
        requires place { number_of place < places_of_policy self.now.table.shared.key }
        requires answers { (word : ℕ)
            → IsShownTo (number_of place + 1) word seat.old.seat.me.0.lives
            → MayLeave self.now.table.shared.key (number_of place) word word
            seat.old.seat.me.0.run }
        ensures same { seat.new.seat.table_id ≡ seat.old.seat.table_id }
        ensures shown { IsShownTo (number_of place + 1) result seat.old.seat.me.0.lives }
        ensures lives { seat.new.seat.me.0.lives
            ≡ map (known_after look (number_of place + 1) result) seat.old.seat.me.0.lives }
        ensures left { HasLeft (number_of place) result result seat.old.seat.me.0.run
            seat.new.seat.me.0.run }
        ensures found { IsFound (number_of place) result seat.old.seat.me.0.run }
    {
        let shared = &self.table.shared;
        shared.load::<LookAnswering>(&mut seat.seat, place.number() + 1)
    }

    /// Gives a place out that is home, by one store of its live word, which answers what a worker of
    /// the seat is asked next, whatever word stood there.
    pub fn open_asked<P: StepsBy>(&self, seat: &mut RunSeat, place: Place, live: u64)
        requires same { seat.old.seat.table_id ≡ self.now.table.shared.table_id }
        requires place { number_of place < places_of_policy self.now.table.shared.key }
        requires may { MayMakeBy P.by (open_as live) (number_of place + 1)
            seat.old.seat.me.0.lives }
        requires answers { (word : ℕ)
            → IsShownTo (number_of place + 1) word seat.old.seat.me.0.lives
            → MayLeave self.now.table.shared.key (number_of place) word live
            seat.old.seat.me.0.run }
        ensures same { seat.new.seat.table_id ≡ seat.old.seat.table_id }
        ensures lives { seat.new.seat.me.0.lives ≡ view_after P.by (open_as live)
            (number_of place + 1) live seat.old.seat.me.0.lives }
        ensures left { (word : ℕ)
            × IsShownTo (number_of place + 1) word seat.old.seat.me.0.lives
            × HasLeft (number_of place) word live seat.old.seat.me.0.run
            seat.new.seat.me.0.run
            × IsFound (number_of place) word seat.old.seat.me.0.run }
    {
        let shared = &self.table.shared;
        shared.store::<OpenAnswering<P>>(&mut seat.seat, place.number() + 1, live);
    }

    /// Ends the life of the live word that is expected, where it stands, by one exchange, and takes
    /// its place home; answers what a worker of the seat is asked next by the word that it finds,
    /// which it gives.
    pub fn close_asked<P: StepsBy>(&self, seat: &mut RunSeat, place: Place, expected: u64) -> u64
        requires same { seat.old.seat.table_id ≡ self.now.table.shared.table_id }
        requires place { number_of place < places_of_policy self.now.table.shared.key }
        requires may { MayMakeBy P.by (close_from expected) (number_of place + 1)
            seat.old.seat.me.0.lives }
        requires answers { (word : ℕ)
            → IsShownTo (number_of place + 1) word seat.old.seat.me.0.lives
            → MayLeave self.now.table.shared.key (number_of place) word
            (left_by (close_from expected) word) seat.old.seat.me.0.run }
        ensures same { seat.new.seat.table_id ≡ seat.old.seat.table_id }
        ensures shown { IsShownTo (number_of place + 1) result seat.old.seat.me.0.lives }
        ensures lives { seat.new.seat.me.0.lives
            ≡ view_after P.by (close_from expected) (number_of place + 1) result
            seat.old.seat.me.0.lives }
        ensures left { HasLeft (number_of place) result
            (left_by (close_from expected) result) seat.old.seat.me.0.run seat.new.seat.me.0.run }
        ensures found { IsFound (number_of place) result seat.old.seat.me.0.run }
    {
        let shared = &self.table.shared;
        let at = place.number() + 1;
        shared.compare_exchange::<CloseAnswering<P>>(&mut seat.seat, at, expected, expected - 1)
    }

    /// The same, and its place stays open, until the seat of its segment takes it home.
    pub fn part_asked<P: StepsBy>(&self, seat: &mut RunSeat, place: Place, expected: u64) -> u64
        requires same { seat.old.seat.table_id ≡ self.now.table.shared.table_id }
        requires place { number_of place < places_of_policy self.now.table.shared.key }
        requires may { MayMakeBy P.by (part_from expected) (number_of place + 1)
            seat.old.seat.me.0.lives }
        requires answers { (word : ℕ)
            → IsShownTo (number_of place + 1) word seat.old.seat.me.0.lives
            → MayLeave self.now.table.shared.key (number_of place) word
            (left_by (part_from expected) word) seat.old.seat.me.0.run }
        ensures same { seat.new.seat.table_id ≡ seat.old.seat.table_id }
        ensures shown { IsShownTo (number_of place + 1) result seat.old.seat.me.0.lives }
        ensures lives { seat.new.seat.me.0.lives
            ≡ view_after P.by (part_from expected) (number_of place + 1) result
            seat.old.seat.me.0.lives }
        ensures left { HasLeft (number_of place) result
            (left_by (part_from expected) result) seat.old.seat.me.0.run seat.new.seat.me.0.run }
        ensures found { IsFound (number_of place) result seat.old.seat.me.0.run }
    {
        let shared = &self.table.shared;
        let at = place.number() + 1;
        shared.compare_exchange::<PartAnswering<P>>(&mut seat.seat, at, expected, expected - 1)
    }
}

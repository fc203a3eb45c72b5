//! Steps of seats: at a word, where they join, and where one is cut.

ghost use Rattle.std.specs.Prelude.{◌≡◌, ℕ, ◌+◌, ◌-◌, ◌<◌, List, ◌++◌, length, map, take, drop};
ghost use Rattle.hg_place.specs.Places.{number_of};
ghost use Rattle.hg_roles.specs.Roles.{Role};
ghost use Rattle.hg_roles.specs.Served.{places_of_policy};
ghost use Rattle.hg_table.specs.Steps.{look, open_as, close_from, part_from, take_home, MayMakeBy};
ghost use Rattle.hg_table.specs.Steps.{known_after, view_after, left_by};
ghost use Rattle.hg_table.specs.Told.{IsShownTo};
ghost use Rattle.hg_run_table.specs.Found.{IsAgreed, IsFound};
ghost use Rattle.hg_run_table.specs.Owing.{DecidesAt, DecidesAlone};
ghost use Rattle.hg_run_table.specs.Reshaping.{lives_kept, lives_given, MayCutLives};
ghost use Rattle.hg_run_table.specs.Seated.{HaveRoles};
ghost use Rattle.hg_run_table.specs.Told.{ArePartsApart};

use crate::decision::{CutAt, Decision, StepsBy};
use crate::plays::{Both, Closing, Cuts, Deciding, Look, Looking, Opening, Parting, Take};
use crate::table::{RunSeat, RunTable};
use hg_place::Place;

impl RunTable {
    /// The word of a place, by one load, which decides no call. No two parts of the seat have ended one
    /// life, or record one place.
    pub fn look(&self, seat: &mut RunSeat, place: Place) -> u64
        requires same { seat.old.seat.table_id ≡ self.now.table.shared.table_id }
        requires place { number_of place < places_of_policy self.now.table.shared.key }
        ensures same { seat.new.seat.table_id ≡ seat.old.seat.table_id }
        ensures shown { IsShownTo (number_of place + 1) result seat.old.seat.me.0.lives }
        ensures lives { seat.new.seat.me.0.lives
            ≡ map (known_after look (number_of place + 1) result) seat.old.seat.me.0.lives }
        ensures apart { ArePartsApart seat.old.seat.me.0.lives }
        ensures run { seat.new.seat.me.0.run ≡ seat.old.seat.me.0.run }
    {
        let shared = &self.table.shared;
        shared.load::<Look>(&mut seat.seat, place.number() + 1)
    }

    /// The same, and the place goes home in the seat's records where its word is freed.
    pub fn take<P: StepsBy>(&self, seat: &mut RunSeat, place: Place) -> u64
        requires same { seat.old.seat.table_id ≡ self.now.table.shared.table_id }
        requires place { number_of place < places_of_policy self.now.table.shared.key }
        requires may { MayMakeBy P.by take_home (number_of place + 1) seat.old.seat.me.0.lives }
        ensures same { seat.new.seat.table_id ≡ seat.old.seat.table_id }
        ensures shown { IsShownTo (number_of place + 1) result seat.old.seat.me.0.lives }
        ensures lives { seat.new.seat.me.0.lives
            ≡ view_after P.by take_home (number_of place + 1) result seat.old.seat.me.0.lives }
        ensures run { seat.new.seat.me.0.run ≡ seat.old.seat.me.0.run }
        ensures found { IsFound (number_of place) result seat.old.seat.me.0.run }
    {
        let shared = &self.table.shared;
        shared.load::<Take<P>>(&mut seat.seat, place.number() + 1)
    }

    /// The word of a place, by one load, which decides calls by what it finds.
    pub fn look_deciding<D: Decision>(&self, seat: &mut RunSeat, place: Place) -> u64
        requires same { seat.old.seat.table_id ≡ self.now.table.shared.table_id }
        requires place { number_of place < places_of_policy self.now.table.shared.key }
        requires roles { HaveRoles seat.old.seat.me.0.run D.roles }
        requires decides { DecidesAt self.now.table.shared.key (number_of place + 1)
            seat.old.seat.me.0.lives (λ word. word) D.roles D.made D.change }
        ensures same { seat.new.seat.table_id ≡ seat.old.seat.table_id }
        ensures shown { IsShownTo (number_of place + 1) result seat.old.seat.me.0.lives }
        ensures lives { seat.new.seat.me.0.lives
            ≡ map (known_after look (number_of place + 1) result) seat.old.seat.me.0.lives }
        ensures roles { HaveRoles seat.new.seat.me.0.run (map (D.change result) D.roles) }
        ensures found { IsFound (number_of place) result seat.old.seat.me.0.run }
    {
        let shared = &self.table.shared;
        shared.load::<Looking<D>>(&mut seat.seat, place.number() + 1)
    }

    /// Gives a place out that is home, by one store of its live word, and decides calls, which rest
    /// on no word that it finds.
    pub fn open_deciding<D: Decision, P: StepsBy>(
        &self,
        seat: &mut RunSeat,
        place: Place,
        live: u64,
    )
        requires same { seat.old.seat.table_id ≡ self.now.table.shared.table_id }
        requires place { number_of place < places_of_policy self.now.table.shared.key }
        requires may { MayMakeBy P.by (open_as live) (number_of place + 1)
            seat.old.seat.me.0.lives }
        requires roles { HaveRoles seat.old.seat.me.0.run D.roles }
        requires decides { DecidesAt self.now.table.shared.key (number_of place + 1)
            seat.old.seat.me.0.lives (λ _. live) D.roles (λ _. D.made live) (λ _. D.change live) }
        ensures same { seat.new.seat.table_id ≡ seat.old.seat.table_id }
        ensures shown { (word : ℕ) × IsShownTo (number_of place + 1) word seat.old.seat.me.0.lives }
        ensures lives { seat.new.seat.me.0.lives ≡ view_after P.by (open_as live)
            (number_of place + 1) live seat.old.seat.me.0.lives }
        ensures roles { HaveRoles seat.new.seat.me.0.run (map (D.change live) D.roles) }
    {
        let shared = &self.table.shared;
        shared.store::<Opening<D, P>>(&mut seat.seat, place.number() + 1, live);
    }

    /// Ends the life of the live word that is expected, where it stands, by one exchange, and takes
    /// its place home; decides calls by the word that it finds, which it gives.
    pub fn close_deciding<D: Decision, P: StepsBy>(
        &self,
        seat: &mut RunSeat,
        place: Place,
        expected: u64,
    ) -> u64
        requires same { seat.old.seat.table_id ≡ self.now.table.shared.table_id }
        requires place { number_of place < places_of_policy self.now.table.shared.key }
        requires may { MayMakeBy P.by (close_from expected) (number_of place + 1)
            seat.old.seat.me.0.lives }
        requires roles { HaveRoles seat.old.seat.me.0.run D.roles }
        requires decides { DecidesAt self.now.table.shared.key (number_of place + 1)
            seat.old.seat.me.0.lives (left_by (close_from expected)) D.roles D.made D.change }
        ensures same { seat.new.seat.table_id ≡ seat.old.seat.table_id }
        ensures shown { IsShownTo (number_of place + 1) result seat.old.seat.me.0.lives }
        ensures lives { seat.new.seat.me.0.lives
            ≡ view_after P.by (close_from expected) (number_of place + 1) result
            seat.old.seat.me.0.lives }
        ensures roles { HaveRoles seat.new.seat.me.0.run (map (D.change result) D.roles) }
        ensures found { IsFound (number_of place) result seat.old.seat.me.0.run }
    {
        let shared = &self.table.shared;
        let at = place.number() + 1;
        shared.compare_exchange::<Closing<D, P>>(&mut seat.seat, at, expected, expected - 1)
    }

    /// The same, and its place stays open, until the seat of its segment takes it home.
    pub fn part_deciding<D: Decision, P: StepsBy>(
        &self,
        seat: &mut RunSeat,
        place: Place,
        expected: u64,
    ) -> u64
        requires same { seat.old.seat.table_id ≡ self.now.table.shared.table_id }
        requires place { number_of place < places_of_policy self.now.table.shared.key }
        requires may { MayMakeBy P.by (part_from expected) (number_of place + 1)
            seat.old.seat.me.0.lives }
        requires roles { HaveRoles seat.old.seat.me.0.run D.roles }
        requires decides { DecidesAt self.now.table.shared.key (number_of place + 1)
            seat.old.seat.me.0.lives (left_by (part_from expected)) D.roles D.made D.change }
        ensures same { seat.new.seat.table_id ≡ seat.old.seat.table_id }
        ensures shown { IsShownTo (number_of place + 1) result seat.old.seat.me.0.lives }
        ensures lives { seat.new.seat.me.0.lives
            ≡ view_after P.by (part_from expected) (number_of place + 1) result
            seat.old.seat.me.0.lives }
        ensures roles { HaveRoles seat.new.seat.me.0.run (map (D.change result) D.roles) }
        ensures found { IsFound (number_of place) result seat.old.seat.me.0.run }
    {
        let shared = &self.table.shared;
        let at = place.number() + 1;
        shared.compare_exchange::<Parting<D, P>>(&mut seat.seat, at, expected, expected - 1)
    }

    /// Decides calls that rest on no word, at one load of the spare word.
    pub fn decide<D: Decision>(&self, seat: &mut RunSeat)
        requires same { seat.old.seat.table_id ≡ self.now.table.shared.table_id }
        requires roles { HaveRoles seat.old.seat.me.0.run D.roles }
        requires decides { (word : ℕ)
            → DecidesAlone self.now.table.shared.key D.roles (D.made word) (D.change word) }
        ensures same { seat.new.seat.table_id ≡ seat.old.seat.table_id }
        ensures lives { seat.new.seat.me.0.lives ≡ seat.old.seat.me.0.lives }
        ensures roles { (word : ℕ)
            × HaveRoles seat.new.seat.me.0.run (map (D.change word) D.roles) }
        ensures agreed { IsAgreed seat.old.seat.me.0.run }
    {
        let shared = &self.table.shared;
        shared.load::<Deciding<D>>(&mut seat.seat, 0);
    }

    /// The seat takes in the parts of another, behind its own.
    pub fn join(&self, seat: &mut RunSeat, other: RunSeat)
        requires same { seat.old.seat.table_id ≡ self.now.table.shared.table_id }
        requires of_it { other.seat.table_id ≡ self.now.table.shared.table_id }
        ensures same { seat.new.seat.table_id ≡ seat.old.seat.table_id }
        ensures lives { seat.new.seat.me.0.lives
            ≡ seat.old.seat.me.0.lives ++ other.seat.me.0.lives }
        ensures run { seat.new.seat.me.0.run ≡ seat.old.seat.me.0.run ++ other.seat.me.0.run }
        ensures roles { (roles theirs : List Role) → HaveRoles seat.old.seat.me.0.run roles
            → HaveRoles other.seat.me.0.run theirs
            → HaveRoles seat.new.seat.me.0.run (roles ++ theirs) }
    {
        let shared = &self.table.shared;
        shared.join_seat::<Both>(&mut seat.seat, other.seat);
    }

    /// So many first parts of the run stay with the seat, and the others go to a new one; what it knows
    /// of words and lives is cut as the caller picks.
    pub fn split<C: CutAt>(&self, seat: &mut RunSeat) -> RunSeat
        requires same { seat.old.seat.table_id ≡ self.now.table.shared.table_id }
        requires lives { MayCutLives C.lives seat.old.seat.me.0.lives }
        ensures same { seat.new.seat.table_id ≡ seat.old.seat.table_id }
        ensures of_it { result.seat.table_id ≡ seat.old.seat.table_id }
        ensures lives { seat.new.seat.me.0.lives ≡ lives_kept C.lives seat.old.seat.me.0.lives }
        ensures lives_given { result.seat.me.0.lives
            ≡ lives_given C.lives seat.old.seat.me.0.lives }
        ensures run { seat.new.seat.me.0.run ≡ take C.stay seat.old.seat.me.0.run }
        ensures run_given { result.seat.me.0.run ≡ drop C.stay seat.old.seat.me.0.run }
        ensures roles { (roles theirs : List Role) → length roles ≡ C.stay
            → HaveRoles seat.old.seat.me.0.run (roles ++ theirs)
            → HaveRoles seat.new.seat.me.0.run roles × HaveRoles result.seat.me.0.run theirs }
    {
        let shared = &self.table.shared;
        let seat = shared.split_seat::<Cuts<C>>(&mut seat.seat);
        RunSeat { seat }
    }
}

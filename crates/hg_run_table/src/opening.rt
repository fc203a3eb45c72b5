//! A seat for each part of the service.

ghost use Rattle.std.specs.Prelude.{◌≡◌, ℕ, ◌+◌, ◌*◌, ◌<◌, ◌≤◌, List, [], ◌∷◌, ◌++◌, length, map, IfOk};
ghost use Rattle.std.specs.Prelude.{slice_get, Some};
ghost use Rattle.std.specs.List.{range_with_len};
ghost use Rattle.hg_place.specs.declared.geometry.TheConstants.{MAX_SEGMENTS, SEGMENT_PLACES};
ghost use Rattle.hg_roles.specs.FirstParts.{full};
ghost use Rattle.hg_roles.specs.Roles.{Role, of_remote, of_pool, of_segment};
ghost use Rattle.hg_table.specs.Seats.{IsInitial};
ghost use Rattle.hg_table.specs.View.{part_of};
ghost use Rattle.hg_run_table.specs.NewSeats.{IsNewWorker, IsNewOther, IsNewSegment, new_worker};
ghost use Rattle.hg_run_table.specs.Reshaping.{lives_kept, lives_given, MayCutLives};
ghost use Rattle.hg_run_table.specs.Seated.{HaveRoles};

use crate::decision::CutAt;
use crate::table::{RunSeat, RunTable};
use hg_policy::Policy;
use std::alloc::{AllocError, Global};
use std::marker::Brand;
use std::mem;

/// The seats of a new table, each of one part, in the order of the numbers of workers and segments.
#[derive(Drop)]
pub struct RunSeats {
    pub workers: Vec<RunSeat>,
    /// Of the remote list of each segment.
    pub lists: Vec<RunSeat>,
    pub pool: RunSeat,
    pub segments: Vec<RunSeat>,
}

/// All parts of the run go, and what is known of words and lives stays.
pub(crate) struct AllParts;

impl CutAt for AllParts {
    ghost use Rattle.hg_run_table.specs.Reshaping.{front};

    ghost stay = { 0 };

    ghost lives = { front 1 };
}

/// No part goes with what the seat of the next segment knows of words and lives.
pub(crate) struct NextSegment;

impl CutAt for NextSegment {
    ghost use Rattle.hg_table.specs.Steps.{first_segment};
    ghost use Rattle.hg_run_table.specs.Reshaping.{one_part};

    ghost stay = { 0 };

    ghost lives = { one_part first_segment };
}

/// The same of a worker, which knows nothing.
pub(crate) struct NextWorker;

impl CutAt for NextWorker {
    ghost use Rattle.hg_table.specs.Steps.{nothing};
    ghost use Rattle.hg_run_table.specs.Reshaping.{one_part};

    ghost stay = { 0 };

    ghost lives = { one_part nothing };
}

impl RunTable {
    /// A table for the policy, with a seat for each of its workers, for the remote list of each
    /// segment, for the pool, and for each segment. Asks for 8 bytes a word twice, keeps one of the
    /// two, and keeps three lists of seats. Where memory was refused the table is given up.
    pub fn open(alloc: Global, policy: &Policy) -> Result<(RunTable, RunSeats), AllocError>
        ensures policy { IfOk result (λ t. t.0.table.shared.key ≡ policy.now) }
        ensures workers { IfOk result (λ t. length t.1.workers.items ≡ policy.now.workers) }
        ensures each_worker { IfOk result (λ t. (k : ℕ) (seat : _) → slice_get t.1.workers.items k ≡ Some seat
            → IsNewWorker policy.now t.0.table.shared.table_id k
            seat) }
        ensures lists { IfOk result (λ t. length t.1.lists.items ≡ length policy.now.segments) }
        ensures each_list { IfOk result (λ t. (k : ℕ) (seat : _) → slice_get t.1.lists.items k ≡ Some seat
            → IsNewOther t.0.table.shared.table_id (of_remote k [])
            seat) }
        ensures pool { IfOk result (λ t.
            IsNewOther t.0.table.shared.table_id (of_pool full) t.1.pool) }
        ensures segments { IfOk result (λ t.
            length t.1.segments.items ≡ length policy.now.segments) }
        ensures each_segment { IfOk result (λ t. (k : ℕ) (seat : _) → slice_get t.1.segments.items k ≡ Some seat
            → IsNewSegment t.0.table.shared.table_id k seat) }
    {
        let segment_count = policy.segments();
        let worker_count = policy.workers();
        let (table, mut lives) = RunTable::new(alloc, policy)?;
        // The parts leave the first seat, whose records are cut for one segment after another.
        let mut parts = table.split::<AllParts>(&mut lives);
        let mut segment_parts = table.split::<Brand>(&mut parts);
        let segments = table.segment_seats(alloc, segment_count, &mut lives, &mut segment_parts)?;
        let workers = table.worker_seats(alloc, worker_count, &mut lives, &mut parts)?;
        let lists = table.list_seats(alloc, segment_count, &mut parts)?;
        let pool = table.next_part(&mut parts);
        Ok((
            table,
            RunSeats {
                workers,
                lists,
                pool,
                segments,
            },
        ))
    }

    /// A seat of the first of these parts; the others stay.
    fn next_part(&self, parts: &mut RunSeat) -> RunSeat
        requires same { parts.old.seat.table_id ≡ self.now.table.shared.table_id }
        requires bare { parts.old.seat.me.0.lives ≡ [] }
        ensures same { parts.new.seat.table_id ≡ parts.old.seat.table_id }
        ensures of_it { result.seat.table_id ≡ parts.old.seat.table_id }
        ensures bare { parts.new.seat.me.0.lives ≡ [] }
        ensures bare_one { result.seat.me.0.lives ≡ [] }
        ensures roles { (role : Role) (rest : List Role)
            → HaveRoles parts.old.seat.me.0.run (role ∷ rest)
            → HaveRoles result.seat.me.0.run (role ∷ [])
            × HaveRoles parts.new.seat.me.0.run rest }
    {
        let rest = self.split::<Brand>(parts);
        mem::replace(parts, rest)
    }

    /// A seat of the first of these parts, with what the cut gives of words and lives.
    fn part_seat<C: CutAt>(&self, lives: &mut RunSeat, parts: &mut RunSeat) -> RunSeat
        requires same { lives.old.seat.table_id ≡ self.now.table.shared.table_id }
        requires same_parts { parts.old.seat.table_id ≡ self.now.table.shared.table_id }
        requires none { HaveRoles lives.old.seat.me.0.run [] }
        requires bare { parts.old.seat.me.0.lives ≡ [] }
        requires no_part { C.stay ≡ 0 }
        requires cut { MayCutLives C.lives lives.old.seat.me.0.lives }
        ensures same { lives.new.seat.table_id ≡ lives.old.seat.table_id }
        ensures same_parts { parts.new.seat.table_id ≡ parts.old.seat.table_id }
        ensures of_it { result.seat.table_id ≡ lives.old.seat.table_id }
        ensures none { HaveRoles lives.new.seat.me.0.run [] }
        ensures bare { parts.new.seat.me.0.lives ≡ [] }
        ensures kept { lives.new.seat.me.0.lives ≡ lives_kept C.lives lives.old.seat.me.0.lives }
        ensures given { result.seat.me.0.lives ≡ lives_given C.lives lives.old.seat.me.0.lives }
        ensures roles { (role : Role) (rest : List Role)
            → HaveRoles parts.old.seat.me.0.run (role ∷ rest)
            → HaveRoles result.seat.me.0.run (role ∷ [])
            × HaveRoles parts.new.seat.me.0.run rest }
    {
        let mut seat = self.split::<C>(lives);
        let part = self.next_part(parts);
        self.join(&mut seat, part);
        seat
    }

    /// The seats of so many segments, of which these are the parts.
    fn segment_seats(
        &self,
        alloc: Global,
        count: u8,
        lives: &mut RunSeat,
        parts: &mut RunSeat,
    ) -> Result<Vec<RunSeat>, AllocError>
        requires same { lives.old.seat.table_id ≡ self.now.table.shared.table_id }
        requires same_parts { parts.old.seat.table_id ≡ self.now.table.shared.table_id }
        requires none { HaveRoles lives.old.seat.me.0.run [] }
        requires bare { parts.old.seat.me.0.lives ≡ [] }
        requires few { count ≤ MAX_SEGMENTS }
        requires initial { IsInitial 0 (count * SEGMENT_PLACES) lives.old.seat.me.0.lives }
        requires roles { HaveRoles parts.old.seat.me.0.run
            (map of_segment (range_with_len 0 count)) }
        ensures same { IfOk result (λ _. lives.new.seat.table_id ≡ lives.old.seat.table_id) }
        ensures none { IfOk result (λ _. HaveRoles lives.new.seat.me.0.run []) }
        ensures initial { IfOk result (λ _. IsInitial count 0 lives.new.seat.me.0.lives) }
        ensures many { IfOk result (λ seats. length seats.items ≡ count) }
        ensures each { IfOk result (λ seats. (k : ℕ) (seat : _) → slice_get seats.items k ≡ Some seat
            → IsNewSegment self.now.table.shared.table_id k seat) }
    {
        let mut seats = Vec::with_capacity(alloc, usize::from(count))?;
        for _ in 0..count {
            let seat = self.part_seat::<NextSegment>(lives, parts);
            seats.push(seat)?;
        }
        Ok(seats)
    }

    /// The seats of so many workers, of which these are the first parts.
    fn worker_seats(
        &self,
        alloc: Global,
        count: u8,
        lives: &mut RunSeat,
        parts: &mut RunSeat,
    ) -> Result<Vec<RunSeat>, AllocError>
        requires same { lives.old.seat.table_id ≡ self.now.table.shared.table_id }
        requires same_parts { parts.old.seat.table_id ≡ self.now.table.shared.table_id }
        requires none { HaveRoles lives.old.seat.me.0.run [] }
        requires bare { parts.old.seat.me.0.lives ≡ [] }
        requires one { lives.old.seat.me.0.lives ≡ part_of lives.old.seat.me.0.lives ∷ [] }
        requires left { count ≤ (part_of lives.old.seat.me.0.lives).may_give }
        ensures same { IfOk result (λ _. parts.new.seat.table_id ≡ parts.old.seat.table_id) }
        ensures bare { IfOk result (λ _. parts.new.seat.me.0.lives ≡ []) }
        ensures many { IfOk result (λ seats. length seats.items ≡ count) }
        ensures roles { (rest : List Role) → HaveRoles parts.old.seat.me.0.run
            (map (new_worker self.now.table.shared.key) (range_with_len 0 count) ++ rest)
            → IfOk result (λ seats. HaveRoles parts.new.seat.me.0.run rest
            × ((k : ℕ) (seat : _) → slice_get seats.items k ≡ Some seat
            → IsNewWorker self.now.table.shared.key self.now.table.shared.table_id k seat)) }
    {
        let mut seats = Vec::with_capacity(alloc, usize::from(count))?;
        for _ in 0..count {
            let seat = self.part_seat::<NextWorker>(lives, parts);
            seats.push(seat)?;
        }
        Ok(seats)
    }

    /// The seats of so many remote lists, of which these are the first parts.
    fn list_seats(
        &self,
        alloc: Global,
        count: u8,
        parts: &mut RunSeat,
    ) -> Result<Vec<RunSeat>, AllocError>
        requires same { parts.old.seat.table_id ≡ self.now.table.shared.table_id }
        requires bare { parts.old.seat.me.0.lives ≡ [] }
        ensures same { IfOk result (λ _. parts.new.seat.table_id ≡ parts.old.seat.table_id) }
        ensures bare { IfOk result (λ _. parts.new.seat.me.0.lives ≡ []) }
        ensures many { IfOk result (λ seats. length seats.items ≡ count) }
        ensures roles { (rest : List Role) → HaveRoles parts.old.seat.me.0.run
            (map (λ segment. of_remote segment []) (range_with_len 0 count) ++ rest)
            → IfOk result (λ seats. HaveRoles parts.new.seat.me.0.run rest
            × ((k : ℕ) (seat : _) → slice_get seats.items k ≡ Some seat
            → IsNewOther self.now.table.shared.table_id (of_remote k [])
            seat)) }
    {
        let mut seats = Vec::with_capacity(alloc, usize::from(count))?;
        for _ in 0..count {
            let seat = self.next_part(parts);
            seats.push(seat)?;
        }
        Ok(seats)
    }
}

//! Where parts of a service stand parked between two calls.

ghost use Rattle.std.specs.Prelude.{◌≡◌, ◌<◌, [], None, true, false, is_some, is_none};
ghost use Rattle.std.specs.Prelude.{IfNone, IfOk, IfSome};
ghost use Rattle.std.specs.Arc.{arc_value};
ghost use Rattle.crossbeam_queue.specs.Passes.{view, IsPassOf};
ghost use Rattle.hg_worker.specs.States.{IsNamed};
ghost use Rattle.hg_hosted.specs.Parking.{FitsKept, FitsKnown, HasTaken, IsHome, KnowsName};
ghost use Rattle.hg_hosted.specs.Parking.{came_to, has_parked};

use crate::of_service::{Comes, Founds, Goes, OfService, OneService, Twins, Way};
use crossbeam_queue::{Pass, RuledArrayQueue};
use hg_worker::ServiceName;
use std::alloc::{AllocError, Global};
use std::sync::Arc;

/// A way to parts of one service that several callers share, each of which has a way of its own. A
/// part is with one of them at a time, or stands parked.
#[derive(Drop)]
pub(crate) struct Parked<T: OfService> {
    pub(crate) place: Arc<RuledArrayQueue<T, Way<T>, OneService>, Global>,
    pub(crate) pass: Pass<T, Way<T>>,
    /// A part that found no room when it was put back, and is kept here until it is taken again.
    pub(crate) kept: Option<T>,
    ghost at: { IsPassOf (arc_value place) pass },
    ghost known: { is_some (view pass).known ≡ true },
}

impl<T: OfService + Drop> Parked<T> {
    /// A place with room for so many parts of the service N, where this one stands.
    pub(crate) fn new<N: ServiceName>(
        alloc: Global,
        room: usize,
        first: T,
    ) -> Result<Parked<T>, AllocError>
        requires room { 0 < room }
        requires of { (of : _) × IsNamed N.policy N.table of × T.of_service of first }
        ensures known { IfOk result (λ parked. KnowsName N.policy N.table (view parked.pass).known) }
        ensures home { IfOk result (λ parked. ((view parked.pass).out ≡ false)
            × (parked.kept ≡ None)) }
        ensures taken { IfOk result (λ parked. (view parked.pass).taken ≡ []) }
    {
        let (place, mut pass) = RuledArrayQueue::ruled(alloc, room)?;
        if place.try_push_as::<Founds<N>>(&mut pass, first).is_err() {
            return Err(AllocError);
        }
        Ok(Parked {
            place: Arc::new(alloc, place)?,
            pass,
            kept: None,
        })
    }

    /// One way more to the same place.
    pub(crate) fn share(&mut self) -> Result<Parked<T>, AllocError>
        ensures own { view self.new.pass ≡ view self.old.pass }
        ensures own_kept { self.new.kept ≡ self.old.kept }
        ensures own_place { self.new.pass.table_id ≡ self.old.pass.table_id }
        ensures other { IfOk result (λ other. view other.pass
            ≡ came_to (view self.old.pass).known) }
        ensures other_kept { IfOk result (λ other. other.kept ≡ None) }
        ensures other_place { IfOk result (λ other. other.pass.table_id
            ≡ self.old.pass.table_id) }
    {
        let place = Arc::try_clone(&self.place)?;
        let pass = self.place.another::<Twins>(&mut self.pass);
        Ok(Parked {
            place,
            pass,
            kept: None,
        })
    }

    /// One of the parts that stand there. `None` where none does, or another call was quicker.
    pub(crate) fn take(&mut self) -> Option<T>
        requires { FitsKept T.of_service (view self.old.pass).known self.old.kept }
        ensures known { (view self.new.pass).known ≡ (view self.old.pass).known }
        ensures kept { self.new.kept ≡ None }
        ensures part { IfSome result (FitsKnown T.of_service (view self.old.pass).known) }
        ensures out { IsHome (view self.old.pass) self.old.kept → IsHome (view self.new.pass) result }
        ensures taken { HasTaken result self.old.kept (view self.old.pass).taken
            (view self.new.pass).taken }
        ensures place { self.new.pass.table_id ≡ self.old.pass.table_id }
    {
        if let Some(part) = self.kept.take() {
            return Some(part);
        }
        self.place.try_pop_as::<Goes>(&mut self.pass)
    }

    /// A part stands there again. Where it finds no room it stays with this caller, who takes it
    /// first the next time.
    pub(crate) fn put(&mut self, part: T)
        requires kept { self.old.kept ≡ None }
        requires part { FitsKnown T.of_service (view self.old.pass).known part }
        ensures known { (view self.new.pass).known ≡ (view self.old.pass).known }
        ensures kept { IfSome self.new.kept (λ kept. (kept ≡ part)
            × ((view self.new.pass).out ≡ (view self.old.pass).out)) }
        ensures home { IfNone self.new.kept ((view self.new.pass).out ≡ false) }
        ensures parked { IfNone self.new.kept (view self.new.pass
            ≡ has_parked (view self.old.pass).known (view self.old.pass).taken
            (view self.old.pass).parked part) }
        ensures taken { (view self.new.pass).taken ≡ (view self.old.pass).taken }
        ensures place { self.new.pass.table_id ≡ self.old.pass.table_id }
    {
        if let Err(part) = self.place.try_push_as::<Comes>(&mut self.pass, part) {
            self.kept = Some(part);
        }
    }

    /// Puts back what found no room before. Whether nothing is kept here any more.
    pub(crate) fn settle(&mut self) -> bool
        requires { FitsKept T.of_service (view self.old.pass).known self.old.kept }
        ensures known { (view self.new.pass).known ≡ (view self.old.pass).known }
        ensures kept { FitsKept T.of_service (view self.new.pass).known self.new.kept }
        ensures home { IsHome (view self.old.pass) self.old.kept
            → IsHome (view self.new.pass) self.new.kept }
        ensures settled { result ≡ is_none self.new.kept }
        ensures alone { self.old.kept ≡ None → view self.new.pass ≡ view self.old.pass }
        ensures taken { (view self.new.pass).taken ≡ (view self.old.pass).taken }
        ensures place { self.new.pass.table_id ≡ self.old.pass.table_id }
    {
        if let Some(part) = self.kept.take() {
            self.put(part);
        }
        self.kept.is_none()
    }
}

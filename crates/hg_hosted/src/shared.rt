//! What the workers of a service share.

ghost use Rattle.std.specs.Prelude.{◌≡◌, None, length, map, IfOk, IsFalse, IsTrue};
ghost use Rattle.atomic_table.specs.Seated.{TableId};
ghost use Rattle.crossbeam_queue.specs.Passes.{view};
ghost use Rattle.hg_machine.specs.Policy.{Policy};
ghost use Rattle.hg_hosted.specs.Places.{HaveSamePlaces, list_place};
ghost use Rattle.hg_hosted.specs.Shared.{AreHome, AreListsHome, AreListsSettled, AreOfService};
ghost use Rattle.hg_hosted.specs.Shared.{AreParked, IsSettled};

use crate::parked::Parked;
use crate::parts::{Left, Segments, Sent};
use std::alloc::{AllocError, Global};

/// The ways of one caller to what a service shares.
#[derive(Drop)]
pub(crate) struct Shared {
    /// The segments that nobody holds.
    pub(crate) segments: Parked<Segments>,
    /// By segment, what was sent to it.
    pub(crate) lists: Vec<Parked<Sent>>,
    /// The workers that have left.
    pub(crate) left: Parked<Left>,
}

impl Shared {
    /// The ways of one caller more. Where memory is refused, those that there are stay.
    pub(crate) fn share(&mut self, alloc: Global) -> Result<Shared, AllocError>
        ensures own { (policy : Policy) (table : TableId) → AreOfService policy table self.old
            → AreOfService policy table self.new }
        ensures other { IfOk result (λ other. (policy : Policy) (table : TableId)
            → AreOfService policy table self.old → AreOfService policy table other) }
        ensures own_home { AreParked self.old → AreParked self.new }
        ensures own_taken { (view self.new.left.pass).taken ≡ (view self.old.left.pass).taken }
        ensures home { IfOk result AreHome }
        ensures own_places { HaveSamePlaces self.old self.new }
        ensures places { IfOk result (HaveSamePlaces self.old) }
    {
        let lists = shared_lists(alloc, &mut self.lists)?;
        let segments = self.segments.share()?;
        let left = self.left.share()?;
        Ok(Shared {
            segments,
            lists,
            left,
        })
    }

    /// Puts back what found no room before. Whether this caller keeps nothing any more.
    pub(crate) fn settle(&mut self) -> bool
        requires { (policy : Policy) × (table : TableId) × AreOfService policy table self.old }
        ensures of { (policy : Policy) (table : TableId) → AreOfService policy table self.old
            → AreOfService policy table self.new }
        ensures home { AreHome self.old → AreHome self.new }
        ensures settled { IsTrue result → IsSettled self.new }
        ensures unsettled { IsFalse result → ¬ (IsSettled self.new) }
        ensures left { self.old.left.kept ≡ None
            → view self.new.left.pass ≡ view self.old.left.pass }
        ensures taken { (view self.new.left.pass).taken ≡ (view self.old.left.pass).taken }
        ensures places { HaveSamePlaces self.old self.new }
    {
        let segments = self.segments.settle();
        let left = self.left.settle();
        settle_lists(&mut self.lists) && segments && left
    }
}

/// Puts back the lists that found no room before. Whether this caller keeps none any more.
fn settle_lists(lists: &mut Vec<Parked<Sent>>) -> bool
    ensures all { length lists.new.items ≡ length lists.old.items }
    ensures home { AreListsHome lists.old.items → AreListsHome lists.new.items }
    ensures settled { IsTrue result → AreListsSettled lists.new.items }
    ensures unsettled { IsFalse result → ¬ (AreListsSettled lists.new.items) }
    ensures places { map list_place lists.new.items ≡ map list_place lists.old.items }
{
    for at in 0..lists.len() {
        let _ = lists[at].settle();
    }
    are_settled(lists)
}

/// Whether this caller keeps none of the lists.
fn are_settled(lists: &[Parked<Sent>]) -> bool
    ensures settled { IsTrue result → AreListsSettled lists.now }
    ensures unsettled { IsFalse result → ¬ (AreListsSettled lists.now) }
{
    for list in lists {
        if list.kept.is_some() {
            return false;
        }
    }
    true
}

fn shared_lists(
    alloc: Global,
    lists: &mut Vec<Parked<Sent>>,
) -> Result<Vec<Parked<Sent>>, AllocError>
    ensures own { length lists.new.items ≡ length lists.old.items }
    ensures own_home { AreListsHome lists.old.items → AreListsHome lists.new.items }
    ensures other { IfOk result (λ others. length others.items ≡ length lists.old.items) }
    ensures home { IfOk result (λ others. AreListsHome others.items) }
    ensures own_places { map list_place lists.new.items ≡ map list_place lists.old.items }
    ensures places { IfOk result (λ others. map list_place others.items
        ≡ map list_place lists.old.items) }
{
    let mut others = Vec::with_capacity(alloc, lists.len())?;
    for at in 0..lists.len() {
        others.push(lists[at].share()?)?;
    }
    Ok(others)
}

//! What a worker holds is listed.

ghost use Rattle.std.specs.Prelude.{◌≡◌, ◌<◌, ◌≤◌, ◌+◌, ◌*◌, ◌++◌, true, IfOk, OnOk, OnErr};
ghost use Rattle.std.specs.Prelude.{[], ◌∷◌, vec_len, vec_capacity};
ghost use Rattle.hg_place.specs.declared.geometry.TheConstants.{MAX_SEGMENTS, SEGMENT_PLACES};
ghost use Rattle.hg_place.specs.Places.{segment_of};
ghost use Rattle.hg_machine.specs.declared.Answer.{Answer};
ghost use Rattle.hg_heap.specs.Held.{is_held};
ghost use Rattle.hg_heap.specs.Keeping.{KeepsAll};
ghost use Rattle.hg_worker.specs.Answers.{rows_in};
ghost use Rattle.hg_worker.specs.Listing.{open_among, open_places, places_in};
ghost use Rattle.hg_worker.specs.Seats.{number_in, records_in};
ghost use Rattle.hg_worker.specs.Workers.{Keeps, Lists, LooksAt, SendsNoneHome};

use crate::{ServiceName, Worker};
use hg_heap::Heap;
use hg_machine::{Answer, Row};
use hg_place::{Actor, MAX_SEGMENTS, Place, SEGMENT_PLACES, SlotWords, Standing, place_at};
use std::alloc::{AllocError, Global};

impl<N: ServiceName> Worker<N> {
    /// Shows the actor the blocks that the worker holds: one look at each place that its segments
    /// record as open, rising. An error is want of memory, and then nothing was looked at.
    pub fn list(&mut self, alloc: Global, actor: Actor) -> Result<Vec<Row>, AllocError>
        ensures listed { IfOk result (λ rows. Lists actor
            (open_places number_in records_in self.old.inner.value.heap.segments) rows.items
            self.old self.new) }
        ensures err { OnErr result (self.new ≡ self.old) }
        ensures kept { KeepsAll number_in records_in self.old.inner.value.heap.segments
            self.new.inner.value.heap.segments }
        ensures queues { self.new.inner.value.heap.queues ≡ self.old.inner.value.heap.queues }
        ensures home { SendsNoneHome self.old self.new }
        ensures rest { Keeps self.old self.new }
    {
        let places = open_places(alloc, &self.inner.heap)?;
        let mut rows = Vec::with_capacity(alloc, places.len())?;
        for place in &places {
            self.look_into(actor, *place, &mut rows);
        }
        Ok(rows)
    }

    /// Looks at a place, and puts the row that it shows behind the others.
    fn look_into(&mut self, actor: Actor, place: Place, rows: &mut Vec<Row>)
        requires room { vec_len rows.old < vec_capacity rows.old }
        requires held { is_held number_in self.old.inner.value.heap.segments place.segment ≡ true }
        ensures look { (answer : Answer) × LooksAt actor place answer self.old self.new
            × (rows.new.items ≡ rows.old.items ++ rows_in answer) }
        ensures room { vec_capacity rows.new ≡ vec_capacity rows.old }
        ensures few { vec_len rows.new ≤ vec_len rows.old + 1 }
        ensures queues { self.new.inner.value.heap.queues ≡ self.old.inner.value.heap.queues }
        ensures rest { Keeps self.old self.new }
    {
        let Answer::Listed(row) = self.look(actor, place) else {
            return;
        };
        rows.push_reserved(row);
    }
}

/// The places that the segments of a heap record as open, rising. An error is want of memory.
fn open_places<S: SlotWords>(alloc: Global, heap: &Heap<S>) -> Result<Vec<Place>, AllocError>
    ensures { IfOk result (λ places.
        places.items ≡ open_places S.number S.records heap.now.segments) }
{
    let mut places = Vec::new(alloc);
    for segment in 0..MAX_SEGMENTS as u8 {
        note_segment(heap, segment, &mut places)?;
    }
    Ok(places)
}

/// Puts the places that a segment records as open, where it is held, behind the others, rising.
fn note_segment<S: SlotWords>(
    heap: &Heap<S>,
    segment: u8,
    places: &mut Vec<Place>,
) -> Result<(), AllocError>
    requires { segment < MAX_SEGMENTS }
    ensures { OnOk result (places.new.items ≡ places.old.items
        ++ open_among S.number S.records heap.now.segments (places_in segment)) }
{
    if !heap.holds(segment) {
        return Ok(());
    }
    for number in 0..SEGMENT_PLACES {
        note_open(heap, usize::from(segment) * SEGMENT_PLACES + number, places)?;
    }
    Ok(())
}

/// Puts a place of a held segment, if that records it as open, behind the others.
fn note_open<S: SlotWords>(
    heap: &Heap<S>,
    number: usize,
    places: &mut Vec<Place>,
) -> Result<(), AllocError>
    requires number { number < MAX_SEGMENTS * SEGMENT_PLACES }
    requires held { is_held S.number heap.now.segments (segment_of number) ≡ true }
    ensures { OnOk result (places.new.items ≡ places.old.items
        ++ open_among S.number S.records heap.now.segments (number ∷ [])) }
{
    let place = place_at(number);
    match heap.standing(place) {
        Standing::Home(_) => Ok(()),
        Standing::Open(_, _) => Ok(places.push(place)?),
    }
}

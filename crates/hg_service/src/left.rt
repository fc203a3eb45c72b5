ghost use Rattle.std.specs.Prelude.{◌≡◌, ◌≢◌, ◌<◌, [], None, Some, length, is_some};
ghost use Rattle.std.specs.Prelude.{slice_index_or, slice_set, IfOk};
ghost use Rattle.std.specs.Box.{boxed_slice_items};
ghost use Rattle.hg_machine.specs.declared.Answer.TheVariants as Answer;
ghost use Rattle.hg_service.specs.Places.{AreTheirs, HoldNothing};

use hg_machine::Answer;
use hg_worker::{ServiceName, Worker};
use std::alloc::{AllocError, Global};
use std::boxed::BoxedSlice;

/// A worker that leaves: it holds nothing, and has nothing in hand unless it found the list busy to
/// which that was to go. It isn't let go before it stands with those that have left.
pub(crate) struct Leaver<N: ServiceName> {
    own: Worker<N>,
    /// What its last delivery was answered.
    delivery: Answer,
    ghost nothing: { own.inner.value.heap.segments ≡ [] },
    ghost given: { delivery ≢ Answer.Busy → own.inner.value.hand ≡ None },
}

impl<N: ServiceName> Leaver<N> {
    /// This worker, once it has given up what it can.
    pub(crate) fn new(own: Worker<N>, delivery: Answer) -> Leaver<N>
        requires nothing { own.inner.value.heap.segments ≡ [] }
        requires given { delivery ≢ Answer.Busy → own.inner.value.hand ≡ None }
        ensures own { result.own ≡ own }
        ensures delivery { result.delivery ≡ delivery }
    {
        Leaver { own, delivery }
    }
}

/// The workers that have left, each in the place of its number, with no segment. There is a place
/// for each worker of the policy from the start, so none is asked for when one leaves.
#[derive(Drop)]
pub(crate) struct Left<N: ServiceName> {
    workers: BoxedSlice<Option<Worker<N>>>,
    ghost all: { length (boxed_slice_items workers) ≡ N.policy.workers },
    ghost theirs: { AreTheirs (boxed_slice_items workers) },
    ghost nothing: { HoldNothing (boxed_slice_items workers) },
}

impl<N: ServiceName> Left<N> {
    /// Nobody has left yet.
    pub(crate) fn none(alloc: Global, workers: u8) -> Result<Left<N>, AllocError>
        requires { workers ≡ N.policy.workers }
    {
        let places = no_workers(alloc, workers)?;
        Ok(Left {
            workers: places.into_boxed_slice(),
        })
    }

    /// This worker has left.
    pub(crate) fn put(&mut self, leaver: Leaver<N>)
        ensures { boxed_slice_items self.new.workers
            ≡ slice_set (boxed_slice_items self.old.workers) leaver.own.inner.value.number
            (Some leaver.own) }
    {
        let Leaver { own, delivery: _ } = leaver;
        let number = usize::from(own.number());
        self.workers[number] = Some(own);
    }

    /// Whether the worker of a number has left.
    pub(crate) fn has(&self, number: u8) -> bool
        requires { number < N.policy.workers }
        ensures { result
            ≡ is_some (slice_index_or (boxed_slice_items self.now.workers) number None) }
    {
        self.workers[usize::from(number)].is_some()
    }
}

/// So many places, with no worker.
fn no_workers<N: ServiceName>(
    alloc: Global,
    count: u8,
) -> Result<Vec<Option<Worker<N>>>, AllocError>
    ensures all { IfOk result (λ places. length places.items ≡ count) }
    ensures theirs { IfOk result (λ places. AreTheirs places.items) }
    ensures nothing { IfOk result (λ places. HoldNothing places.items) }
{
    let mut places = Vec::new(alloc);
    for _ in 0..count {
        places.push(None)?;
    }
    Ok(places)
}

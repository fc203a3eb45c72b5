//! The two workers of a race.

ghost use Rattle.std.specs.Prelude.{IfOk};
ghost use Rattle.hg_race.specs.Counts.{AreCounts};

use crate::counts::Counts;
use crate::fit::{ARENA, BYTES, TENANT};
use hg_machine::Answer;
use hg_place::Handle;
use hg_service::Worker;
use hg_worker::ServiceName;
use std::alloc::AllocError;
use std::sync::Wait;
use std::thread;
use std::thread::{JoinHandle, Threads};

/// The two workers of a race.
#[derive(Drop)]
pub(crate) struct Racers<N: ServiceName> {
    /// Holds the segments, and allocates.
    pub(crate) holder: Worker<N>,
    pub(crate) other: Worker<N>,
}

/// A worker that frees a block, and what it is answered.
fn freed<N: ServiceName>(worker: Worker<N>, block: Handle) -> (Worker<N>, Answer) {
    let mut worker = worker;
    let answer = worker.own.free(TENANT, block);
    (worker, answer)
}

/// A thread in which a worker frees a block. An error is that it couldn't be started.
fn freeing<N: ServiceName + Send + Sync + 'static, R: Threads>(
    rt: &R,
    worker: Worker<N>,
    block: Handle,
) -> Result<JoinHandle<(Worker<N>, Answer)>, AllocError> {
    let thread = thread::spawn(rt, move || freed(worker, block))?;
    Ok(thread)
}

impl<N: ServiceName + Send + Sync + 'static> Racers<N> {
    /// A block of the holder's, which takes a segment where there is no room. `None` where there is
    /// no segment either.
    fn block<R: Wait>(&mut self, rt: &R) -> Option<Handle> {
        match self.holder.own.alloc(TENANT, ARENA, BYTES) {
            Answer::Block(block) => Some(block),
            Answer::NoRoom => self.block_of_another_segment(rt),
            _ => None,
        }
    }

    /// A block of a segment that the holder takes for it.
    fn block_of_another_segment<R: Wait>(&mut self, rt: &R) -> Option<Handle> {
        let Answer::Refilled(_) = self.holder.refill(rt, ARENA) else {
            return None;
        };
        match self.holder.own.alloc(TENANT, ARENA, BYTES) {
            Answer::Block(block) => Some(block),
            _ => None,
        }
    }

    /// Both free a block, each in a thread of its own, and both threads are joined: the workers, and
    /// what they were answered. An error is that a thread couldn't be started.
    fn both_free<R: Threads>(
        self,
        rt: &R,
        block: Handle,
    ) -> Result<(Racers<N>, (Answer, Answer)), AllocError> {
        let Racers { holder, other } = self;
        let one = freeing(rt, holder, block)?;
        let another = freeing(rt, other, block);
        let (holder, first) = one.join(rt);
        let (other, second) = another?.join(rt);
        Ok((Racers { holder, other }, (first, second)))
    }

    /// What the other worker has in hand comes home.
    fn settle<R: Wait>(&mut self, rt: &R, block: Handle) {
        let _ = self.other.deliver(rt);
        let _ = self.holder.take(rt, block.place.segment);
    }

    /// So many rounds, or fewer where there is no segment any more.
    pub(crate) fn race<R: Threads + Wait>(self, rt: &R, most: u32) -> Result<Counts, AllocError>
        ensures { IfOk result (λ counts. AreCounts most counts.rounds counts.ended counts.freed) }
    {
        let mut racers = self;
        let mut counts = Counts::none();
        for _ in 0..most {
            let Some(block) = racers.block(rt) else {
                break;
            };
            let (back, answers) = racers.both_free(rt, block)?;
            racers = back;
            racers.settle(rt, block);
            counts = counts.with_round(&answers);
        }
        drop(racers);
        Ok(counts)
    }
}

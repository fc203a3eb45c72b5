//! Fronts: how many calls of each worker come before them.

use std::alloc::{AllocError, Global};

/// How many fronts are looked at, at most.
const LIMIT: u32 = 1_000_000;

/// Whether a front is past another one at some worker.
fn is_past(front: &[usize], other: &[usize]) -> bool {
    for (own, its) in front.iter().zip(other) {
        if own > its {
            return true;
        }
    }
    false
}

fn size(front: &[usize]) -> usize {
    let mut size = 0usize;
    for calls in front {
        size = size.wrapping_add(*calls);
    }
    size
}

/// A front with the worker's calls up to so many.
fn raised(front: &Vec<usize>, worker: usize, calls: usize) -> Result<Vec<usize>, AllocError> {
    let mut raised = front.clone()?;
    if let Some(at) = raised.get_mut(worker) {
        *at = calls;
    }
    Ok(raised)
}

/// A front, and how many of the ends it is known to be past: the first so many.
#[derive(Drop)]
struct Front {
    calls: Vec<usize>,
    past: usize,
}

/// The first of the ends that a front isn't past, and its number.
fn end_above<'a>(ends: &'a [Vec<usize>], front: &Front) -> Option<(usize, &'a Vec<usize>)> {
    for number in front.past..ends.len() {
        if let Some(end) = ends.get(number) {
            if !is_past(&front.calls, end) {
                return Some((number, end));
            }
        }
    }
    None
}

/// The front at which no worker made a call.
fn start(alloc: Global, workers: usize) -> Result<Front, AllocError> {
    let mut calls = Vec::new(alloc);
    for _ in 0..workers {
        calls.push(0)?;
    }
    Ok(Front { calls, past: 0 })
}

/// The shortest front that is past each of these, where workers make so many calls; `None` where
/// there is none, or it wasn't found in time.
pub(crate) fn shortest_past(
    alloc: Global,
    counts: &[usize],
    ends: &[Vec<usize>],
) -> Result<Option<Vec<usize>>, AllocError> {
    let mut left = Vec::new(alloc);
    left.push(start(alloc, counts.len())?)?;
    let mut best: Option<Vec<usize>> = None;
    for _ in 0..LIMIT {
        let Some(front) = left.pop() else {
            break;
        };
        let is_longer = match &best {
            Some(best) => size(best) <= size(&front.calls),
            None => false,
        };
        if is_longer {
            continue;
        }
        match end_above(ends, &front) {
            None => best = Some(front.calls),
            Some((number, end)) => add_past(&mut left, counts, &front, (number, end))?,
        }
    }
    drop(left);
    Ok(best)
}

/// Adds the fronts that go past an end by one worker. A front that is past an end stays past it
/// where it is raised.
fn add_past(
    left: &mut Vec<Front>,
    counts: &[usize],
    front: &Front,
    end: (usize, &[usize]),
) -> Result<(), AllocError> {
    let past = end.0.wrapping_add(1);
    for (worker, (calls, count)) in end.1.iter().zip(counts).enumerate() {
        if calls < count {
            let calls = raised(&front.calls, worker, calls.wrapping_add(1))?;
            left.push(Front { calls, past })?;
        }
    }
    Ok(())
}

//! The calls of each worker, and where those of several meet.

use crate::left::Left;
use crate::spots::{Met, by_spot};
use crate::step::Step;
use hg_calls::Call;
use hg_place::Handle;
use std::alloc::{AllocError, Global};

/// A call of a log, and the lines of the table of what is left that tell of its spot.
#[derive(Clone, Copy, Debug, PartialEq, Eq)]
pub(crate) struct Logged {
    pub step: Step,
    /// The line of its worker, if there is a spot.
    pub line: Option<usize>,
    /// The first line of its spot, and the one behind the last.
    pub lines: (usize, usize),
    /// The least states, `low` and `high`, that its worker's later calls found there; the greatest
    /// number where none did.
    pub later: (u64, u64),
}

/// The calls of each worker, by number, in its order.
#[derive(Drop)]
pub(crate) struct Logs {
    logs: Vec<Vec<Logged>>,
    /// What all of them have left at the start.
    pub left: Vec<Left>,
    /// How many calls there are.
    pub total: usize,
}

/// A call, with nothing known of the others.
fn alone(step: Step) -> Logged {
    Logged {
        step,
        line: None,
        lines: (0, 0),
        later: (u64::MAX, u64::MAX),
    }
}

/// The calls of each worker below a count, with nothing known of the others.
fn logs_of(alloc: Global, workers: u8, calls: &[Call]) -> Result<Vec<Vec<Logged>>, AllocError> {
    let mut logs = Vec::new(alloc);
    let mut hands: Vec<Option<Handle>> = Vec::new(alloc);
    for _ in 0..workers {
        logs.push(Vec::new(alloc))?;
        hands.push(None)?;
    }
    for call in calls {
        let worker = usize::from(call.worker);
        if let Some(log) = logs.get_mut(worker) {
            if let Some(hand) = hands.get_mut(worker) {
                let step = Step::of(*call, *hand);
                *hand = step.hand_after(*hand);
                log.push(alone(step))?;
            }
        }
    }
    Ok(logs)
}

/// The calls that have a spot, by spot, each worker's at one spot in its order.
fn met_in(alloc: Global, logs: &[Vec<Logged>]) -> Result<Vec<Met>, AllocError> {
    let mut all = Vec::new(alloc);
    for (worker, log) in logs.iter().enumerate() {
        for (at, logged) in log.iter().enumerate() {
            if let Some(spot) = logged.step.spot() {
                let spot = spot.number();
                all.push(Met { spot, worker, at })?;
            }
        }
    }
    by_spot(alloc, all)
}

fn logged_at(logs: &mut Vec<Vec<Logged>>, met: Met) -> Option<&mut Logged> {
    logs.get_mut(met.worker)?.get_mut(met.at)
}

/// Makes the lines of what is left, those of the last spot first, and names to each call its line.
fn lined(alloc: Global, logs: &mut Vec<Vec<Logged>>, met: &[Met]) -> Result<Vec<Left>, AllocError> {
    let mut lines: Vec<Left> = Vec::new(alloc);
    for met in met.iter().rev() {
        let is_new = match lines.last() {
            Some(last) => last.spot != met.spot || last.worker != met.worker,
            None => true,
        };
        if is_new {
            lines.push(Left::none(met.spot, met.worker))?;
        }
        let at = lines.len().saturating_sub(1);
        if let (Some(left), Some(logged)) = (lines.last_mut(), logged_at(logs, *met)) {
            logged.line = Some(at);
            logged.later = left.least;
            left.put(&logged.step);
        }
    }
    Ok(lines)
}

/// By line the first one of its spot, and the one behind the last.
fn extents(alloc: Global, lines: &[Left]) -> Result<Vec<(usize, usize)>, AllocError> {
    let mut extents = Vec::new(alloc);
    let mut first = 0usize;
    let mut spot = None;
    for (at, left) in lines.iter().enumerate() {
        if spot != Some(left.spot) {
            first = at;
            spot = Some(left.spot);
        }
        extents.push((first, at.wrapping_add(1)))?;
    }
    let mut last = (usize::MAX, 0usize);
    for extent in extents.iter_mut().rev() {
        if extent.0 != last.0 {
            last = *extent;
        }
        *extent = last;
    }
    Ok(extents)
}

/// Names to each call the lines of its spot.
fn name_lines(logs: &mut Vec<Vec<Logged>>, extents: &[(usize, usize)]) {
    for log in logs.iter_mut() {
        for logged in log.iter_mut() {
            if let Some(line) = logged.line {
                if let Some(extent) = extents.get(line) {
                    logged.lines = *extent;
                }
            }
        }
    }
}

impl Logs {
    /// The calls of workers below a count.
    pub fn of(alloc: Global, workers: u8, calls: &[Call]) -> Result<Logs, AllocError> {
        let mut logs = logs_of(alloc, workers, calls)?;
        let met = met_in(alloc, &logs)?;
        let left = lined(alloc, &mut logs, &met)?;
        let extents = extents(alloc, &left)?;
        name_lines(&mut logs, &extents);
        let mut total = 0usize;
        for log in &logs {
            total = total.wrapping_add(log.len());
        }
        Ok(Logs { logs, left, total })
    }

    /// How many workers there are.
    pub fn len(&self) -> usize {
        self.logs.len()
    }

    /// A call of a worker.
    pub fn call(&self, worker: usize, at: usize) -> Option<&Logged> {
        self.logs.get(worker)?.get(at)
    }

    /// How many calls a worker makes.
    pub fn count(&self, worker: usize) -> usize {
        match self.logs.get(worker) {
            Some(log) => log.len(),
            None => 0,
        }
    }
}

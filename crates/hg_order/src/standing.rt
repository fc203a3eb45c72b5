//! Where a search stands.

use crate::histories::Histories;
use crate::left::Left;
use crate::logs::{Logged, Logs};
use crate::segments::Segments;
use hg_machine::Answer;
use hg_policy::Policy;
use std::alloc::{AllocError, Global};

/// The order as far as a search has come, and what it leaves.
#[derive(Drop)]
pub(crate) struct Standing<'a> {
    alloc: Global,
    logs: &'a Logs,
    order: Vec<&'a Logged>,
    /// How many calls of each worker are in the order.
    front: Vec<usize>,
    /// What each worker has left, by the lines that calls name.
    left: Vec<Left>,
    histories: Histories,
    segments: Segments,
}

/// What keys are told apart by first: a number that each of these changes.
fn mixed(numbers: &[u64]) -> u64 {
    let mut sum = 0u64;
    for number in numbers {
        sum = (sum.rotate_left(5) ^ *number).wrapping_mul(0x9e37_79b9_7f4a_7c15);
    }
    sum
}

impl<'a> Standing<'a> {
    /// At the start.
    pub fn new(alloc: Global, policy: &Policy, logs: &'a Logs) -> Result<Standing<'a>, AllocError> {
        let mut front = Vec::new(alloc);
        for _ in 0..logs.len() {
            front.push(0)?;
        }
        Ok(Standing {
            alloc,
            logs,
            order: Vec::new(alloc),
            front,
            left: logs.left.clone()?,
            histories: Histories::new(alloc, policy.segments())?,
            segments: Segments::new(alloc, policy)?,
        })
    }

    /// The calls in their order.
    pub fn order(&self) -> &[&'a Logged] {
        &self.order
    }

    /// How many calls of each worker are in the order.
    pub fn front(&self) -> &Vec<usize> {
        &self.front
    }

    /// Whether all calls are in the order.
    pub fn is_done(&self) -> bool {
        self.order.len() >= self.logs.total
    }

    /// A worker's next call.
    pub fn next_of(&self, worker: usize) -> Option<&'a Logged> {
        let at = self.front.get(worker)?;
        self.logs.call(worker, *at)
    }

    /// What the workers have left at the spot of a call.
    fn left_at(&self, call: &Logged) -> &[Left] {
        let (first, end) = call.lines;
        if first <= end && end <= self.left.len() {
            &self.left[first..end]
        } else {
            &[]
        }
    }

    /// What a core answers to a call, where that is known without one.
    pub fn foreseen(&self, call: &Logged) -> Option<Answer> {
        self.segments.foreseen(&call.step.call)
    }

    /// Whether another worker has a call left that this one would spoil.
    pub fn spoils(&self, worker: usize, call: &Logged) -> bool {
        for left in self.left_at(call) {
            if left.worker != worker && left.is_spoilt_by(call.step.change) {
                return true;
            }
        }
        false
    }

    /// Whether another worker has a call left that can't come behind this one.
    pub fn is_too_early(&self, worker: usize, call: &Logged) -> bool {
        for left in self.left_at(call) {
            if left.worker != worker && left.goes_before(call.step.change) {
                return true;
            }
        }
        false
    }

    /// A worker's next call goes behind the order.
    pub fn add(&mut self, worker: usize, call: &'a Logged) -> Result<(), AllocError> {
        self.histories.add(call.step.change, worker)?;
        self.segments.add(&call.step)?;
        self.order.push(call)?;
        if let Some(at) = self.front.get_mut(worker) {
            *at = at.wrapping_add(1);
        }
        if let Some(line) = call.line {
            if let Some(left) = self.left.get_mut(line) {
                left.take(&call.step, call.later);
            }
        }
        Ok(())
    }

    /// Takes the last call from the order.
    pub fn undo(&mut self) {
        if let Some(call) = self.order.pop() {
            self.histories.undo(call.step.change);
            self.segments.undo(&call.step);
            if let Some(at) = self.front.get_mut(usize::from(call.step.call.worker)) {
                *at = at.saturating_sub(1);
            }
            if let Some(line) = call.line {
                if let Some(left) = self.left.get_mut(line) {
                    left.put(&call.step);
                }
            }
        }
    }

    /// Whether some worker's next call takes in what is sent to a segment.
    pub fn is_awaited(&self, segment: u8) -> bool {
        for worker in 0..self.logs.len() {
            if let Some(call) = self.next_of(worker) {
                if call.step.takes(segment) {
                    return true;
                }
            }
        }
        false
    }

    /// What the state hangs on: the front, for each segment in which order blocks were sent and
    /// taken in, and in which order segments went to nobody and came from there.
    pub fn key(&self) -> Result<Vec<u64>, AllocError> {
        let lists = self.histories.numbers();
        let many = self.front.len().saturating_add(lists.len());
        let mut key = Vec::with_capacity(self.alloc, many.saturating_add(1))?;
        key.push(0)?;
        for at in &self.front {
            key.push(*at as u64)?;
        }
        for list in lists {
            key.push(*list as u64)?;
        }
        let sum = mixed(&key);
        if let Some(first) = key.first_mut() {
            *first = sum;
        }
        Ok(key)
    }
}

//! Who sent blocks to each segment or took them in, one after another, and who dealt with the pool.

use crate::step::Change;
use std::alloc::{AllocError, Global};

/// A list of workers: another one, and one worker behind it. Lists by number stand in one tree, so
/// that equal lists have one number. The empty list is 0, which is also no list's successor.
#[derive(Clone, Copy, Debug, PartialEq, Eq)]
struct List {
    before: usize,
    worker: usize,
    /// The last list that was made of this one and a worker; 0 for none.
    longer: usize,
    /// The one that was made before it of the same.
    beside: usize,
}

/// The list of each segment, and that of the pool behind them.
#[derive(Drop)]
pub(crate) struct Histories {
    lists: Vec<List>,
    heads: Vec<usize>,
}

impl Histories {
    /// Empty lists for so many segments and the pool.
    pub fn new(alloc: Global, segments: u8) -> Result<Histories, AllocError> {
        let mut lists = Vec::new(alloc);
        lists.push(List {
            before: 0,
            worker: 0,
            longer: 0,
            beside: 0,
        })?;
        let mut heads = Vec::new(alloc);
        for _ in 0..=segments {
            heads.push(0)?;
        }
        Ok(Histories { lists, heads })
    }

    /// The number of each list.
    pub fn numbers(&self) -> &[usize] {
        &self.heads
    }

    /// Where the list stands that a change makes longer.
    fn place_of(&self, change: Change) -> Option<usize> {
        let pool = self.heads.len().saturating_sub(1);
        match change {
            Change::Sends(segment) | Change::Takes(segment) if usize::from(segment) < pool => {
                Some(usize::from(segment))
            }
            Change::Pool => Some(pool),
            _ => None,
        }
    }

    /// The list that is made of one and a worker, if it was made.
    fn found(&self, list: usize, worker: usize) -> Option<usize> {
        let mut at = self.lists.get(list)?.longer;
        for _ in 0..self.lists.len() {
            if at == 0 {
                return None;
            }
            let longer = self.lists.get(at)?;
            if longer.worker == worker {
                return Some(at);
            }
            at = longer.beside;
        }
        None
    }

    /// The list that is made of one and a worker.
    fn longer(&mut self, list: usize, worker: usize) -> Result<usize, AllocError> {
        if let Some(number) = self.found(list, worker) {
            return Ok(number);
        }
        let number = self.lists.len();
        let beside = match self.lists.get(list) {
            Some(list) => list.longer,
            None => 0,
        };
        self.lists.push(List {
            before: list,
            worker,
            longer: 0,
            beside,
        })?;
        if let Some(list) = self.lists.get_mut(list) {
            list.longer = number;
        }
        Ok(number)
    }

    /// A worker made a change.
    pub fn add(&mut self, change: Change, worker: usize) -> Result<(), AllocError> {
        let Some(at) = self.place_of(change) else {
            return Ok(());
        };
        let Some(list) = self.heads.get(at).copied() else {
            return Ok(());
        };
        let longer = self.longer(list, worker)?;
        if let Some(head) = self.heads.get_mut(at) {
            *head = longer;
        }
        Ok(())
    }

    /// The last change of this kind at its segment or the pool is undone.
    pub fn undo(&mut self, change: Change) {
        if let Some(at) = self.place_of(change) {
            if let Some(head) = self.heads.get_mut(at) {
                if let Some(list) = self.lists.get(*head) {
                    *head = list.before;
                }
            }
        }
    }
}

//! A search for an order, call by call.

use crate::choice::{Choice, Ended, Tried};
use crate::cores::{answered, missed, opened};
use crate::logs::{Logged, Logs};
use crate::standing::Standing;
use crate::step::{Change, Step};
use hg_core::Core;
use hg_policy::Policy;
use std::alloc::{AllocError, Global};
use std::collections::BTreeSet;

/// How often a search tries a call at most.
const LIMIT: u32 = 500_000;

/// A search, where it stands.
#[derive(Drop)]
pub(crate) struct Search<'a> {
    alloc: Global,
    policy: &'a Policy,
    logs: &'a Logs,
    /// Whether each front that can't be passed is looked for, and no order.
    is_thorough: bool,
    core: Core,
    /// Whether the core stands behind the calls of the order.
    is_fresh: bool,
    standing: Standing<'a>,
    /// Whether a worker's next call was tried since the state changed.
    was_tried: Vec<bool>,
    choices: Vec<Choice>,
    /// The keys from which there is no order.
    failed: BTreeSet<Vec<u64>>,
    /// Fronts that can't be passed.
    pub ends: Vec<Vec<usize>>,
    /// How often a call was tried.
    tries: u32,
}

impl<'a> Search<'a> {
    pub fn new(
        alloc: Global,
        policy: &'a Policy,
        logs: &'a Logs,
        is_thorough: bool,
    ) -> Result<Search<'a>, AllocError> {
        let mut was_tried = Vec::new(alloc);
        for _ in 0..logs.len() {
            was_tried.push(false)?;
        }
        Ok(Search {
            alloc,
            policy,
            logs,
            is_thorough,
            core: opened(alloc, policy)?,
            is_fresh: true,
            standing: Standing::new(alloc, policy, logs)?,
            was_tried,
            choices: Vec::new(alloc),
            failed: BTreeSet::new(alloc),
            ends: Vec::new(alloc),
            tries: 0,
        })
    }

    /// The calls in the order that was found, or as far as the search has come.
    pub fn order(&self) -> &[&'a Logged] {
        self.standing.order()
    }

    fn was_tried(&self, worker: usize) -> bool {
        self.was_tried.get(worker).copied().unwrap_or(true)
    }

    /// The core again as it is behind the calls of the order.
    fn freshen(&mut self) -> Result<(), AllocError> {
        if self.is_fresh {
            return Ok(());
        }
        self.core = opened(self.alloc, self.policy)?;
        for call in self.standing.order() {
            let _ = answered(&mut self.core, &call.step);
        }
        self.is_fresh = true;
        Ok(())
    }

    /// Nothing is known of any worker's next call.
    fn forget_tries(&mut self) {
        for was_tried in self.was_tried.iter_mut() {
            *was_tried = false;
        }
    }

    /// Tries a worker's next call, which goes behind the order if it agrees.
    fn attempt(&mut self, worker: usize, call: &'a Logged) -> Result<Tried, AllocError> {
        self.tries = self.tries.saturating_add(1);
        if let Some(was_tried) = self.was_tried.get_mut(worker) {
            *was_tried = true;
        }
        let step = &call.step;
        if let Some(given) = self.standing.foreseen(call) {
            if given != step.call.answer {
                return Ok(missed(step, given));
            }
        }
        self.freshen()?;
        let Some(given) = answered(&mut self.core, step) else {
            return Ok(Tried::Lost);
        };
        if given == step.call.answer {
            self.add(worker, call)?;
            return Ok(Tried::Agreed);
        }
        let mut other = step.call;
        other.answer = given;
        if Step::of(other, None).change != Change::Nothing {
            self.is_fresh = false;
        }
        Ok(missed(step, given))
    }

    /// A call goes behind the order.
    fn add(&mut self, worker: usize, call: &'a Logged) -> Result<(), AllocError> {
        self.standing.add(worker, call)?;
        if call.step.change == Change::Nothing {
            if let Some(was_tried) = self.was_tried.get_mut(worker) {
                *was_tried = false;
            }
        } else {
            self.forget_tries();
        }
        Ok(())
    }

    /// Goes back to a front of the order.
    fn go_back(&mut self, length: usize) {
        for _ in length..self.standing.order().len() {
            self.is_fresh = false;
            self.standing.undo();
        }
        self.forget_tries();
    }

    /// Tries each call with which nothing is chosen: one that changes nothing, or spoils no other.
    /// Agreed where one came behind the order.
    fn advance(&mut self) -> Result<Tried, AllocError> {
        for worker in 0..self.logs.len() {
            if self.was_tried(worker) {
                continue;
            }
            let Some(call) = self.standing.next_of(worker) else {
                continue;
            };
            if self.standing.spoils(worker, call) {
                continue;
            }
            match self.attempt(worker, call)? {
                Tried::Agreed => return Ok(Tried::Agreed),
                Tried::Lost if !self.is_thorough => return Ok(Tried::Lost),
                _ => {}
            }
        }
        Ok(Tried::Differed)
    }

    /// How late a call is tried where several may be next: others' blocks are sent where they are
    /// asked for.
    fn lateness(&self, step: &Step) -> u8 {
        match step.change {
            Change::Takes(_) => 0,
            Change::Sends(segment) if self.standing.is_awaited(segment) => 2,
            Change::Sends(_) => 4,
            Change::Pool => 3,
            _ => 1,
        }
    }

    /// Whether a worker's call may be next where several may be.
    fn may_be_next(&self, worker: usize, call: &Logged) -> bool {
        !self.was_tried(worker) && (self.is_thorough || !self.standing.is_too_early(worker, call))
    }

    /// The workers whose calls may be next, the first to be tried last.
    fn candidates(&self) -> Result<Vec<usize>, AllocError> {
        let mut candidates = Vec::new(self.alloc);
        for lateness in (0..5u8).rev() {
            for worker in 0..self.logs.len() {
                let Some(call) = self.standing.next_of(worker) else {
                    continue;
                };
                if self.lateness(&call.step) == lateness && self.may_be_next(worker, call) {
                    candidates.push(worker)?;
                }
            }
        }
        Ok(candidates)
    }

    /// A new choice where the search stands, but at a front and state that failed before.
    fn choose(&mut self) -> Result<(), AllocError> {
        let key = self.standing.key()?;
        if self.failed.contains(key.as_slice()) {
            return Ok(());
        }
        let left = self.candidates()?;
        self.choices.push(Choice {
            at: self.standing.order().len(),
            key,
            left,
            has_gone_on: false,
        })?;
        Ok(())
    }

    /// Goes on from the last choice that has a call left which may be next: AtOrder where it does.
    fn go_on(&mut self) -> Result<Ended, AllocError> {
        for _ in 0..u64::MAX {
            let Some(choice) = self.choices.last_mut() else {
                return Ok(Ended::WithNone);
            };
            if self.tries >= LIMIT {
                break;
            }
            let length = choice.at;
            let next = choice.left.pop();
            self.go_back(length);
            let Some(worker) = next else {
                self.give_up_choice()?;
                continue;
            };
            let Some(call) = self.standing.next_of(worker) else {
                continue;
            };
            match self.attempt(worker, call)? {
                Tried::Agreed => {
                    if let Some(choice) = self.choices.last_mut() {
                        choice.has_gone_on = true;
                    }
                    return Ok(Ended::AtOrder);
                }
                Tried::Lost if !self.is_thorough => {
                    if let Some(choice) = self.choices.last_mut() {
                        choice.left.clear();
                    }
                }
                _ => {}
            }
        }
        Ok(Ended::GivenUp)
    }

    /// The last choice has no call left: it failed.
    fn give_up_choice(&mut self) -> Result<(), AllocError> {
        if let Some(choice) = self.choices.pop() {
            let Choice {
                at: _,
                key,
                left,
                has_gone_on,
            } = choice;
            drop(left);
            if self.is_thorough && !has_gone_on {
                self.ends.push(self.standing.front().clone()?)?;
            }
            self.failed.insert(key)?;
        }
        Ok(())
    }

    /// Looks for an order of all calls, or, where it is thorough, for each front that can't be
    /// passed.
    pub fn run(&mut self) -> Result<Ended, AllocError> {
        for _ in 0..u64::MAX {
            if self.standing.is_done() {
                return Ok(Ended::AtOrder);
            }
            match self.advance()? {
                Tried::Agreed => continue,
                Tried::Lost => {}
                Tried::Differed => self.choose()?,
            }
            match self.go_on()? {
                Ended::AtOrder => {}
                ended => return Ok(ended),
            }
        }
        Ok(Ended::GivenUp)
    }
}

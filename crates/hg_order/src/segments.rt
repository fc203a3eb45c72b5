//! The segments behind the calls of an order: who holds each, and what was sent to it.

use crate::step::{Change, Step};
use hg_calls::Call;
use hg_machine::{Answer, Event};
use hg_policy::Policy;
use std::alloc::{AllocError, Global};

/// Above the numbers of all calls by which segments were given back.
const FRESH: usize = usize::MAX / 2;

#[derive(Clone, Copy, Debug, PartialEq, Eq)]
struct Segment {
    arena: Option<u8>,
    holder: Option<u8>,
    /// Which segment of an arena goes first where nobody holds them: the one that was given back
    /// first, and behind those the lowest that was never held.
    turn: usize,
    /// How many places were sent to it and not taken in.
    sent: u32,
}

/// Each segment of a policy, by number.
#[derive(Drop)]
pub(crate) struct Segments {
    segments: Vec<Segment>,
    /// The turn that a segment had before each call that gave it back.
    turns: Vec<usize>,
}

impl Segments {
    /// At the start.
    pub fn new(alloc: Global, policy: &Policy) -> Result<Segments, AllocError> {
        let mut segments = Vec::new(alloc);
        for segment in 0..policy.segments() {
            segments.push(Segment {
                arena: policy.arena_of(segment),
                holder: None,
                turn: FRESH.wrapping_add(usize::from(segment)),
                sent: 0,
            })?;
        }
        Ok(Segments {
            segments,
            turns: Vec::new(alloc),
        })
    }

    fn segment(&mut self, segment: u8) -> Option<&mut Segment> {
        self.segments.get_mut(usize::from(segment))
    }

    /// The segment that a refill from an arena takes.
    fn next_of(&self, arena: u8) -> Option<u8> {
        let mut next = None;
        let mut turn = usize::MAX;
        for (number, segment) in (0..=u8::MAX).zip(&self.segments) {
            let is_free = segment.arena == Some(arena) && segment.holder.is_none();
            if is_free && segment.turn < turn {
                turn = segment.turn;
                next = Some(number);
            }
        }
        next
    }

    fn is_held(&self, segment: u8, worker: u8) -> bool {
        match self.segments.get(usize::from(segment)) {
            Some(segment) => segment.holder == Some(worker),
            None => false,
        }
    }

    fn sent(&self, segment: u8) -> u32 {
        match self.segments.get(usize::from(segment)) {
            Some(segment) => segment.sent,
            None => 0,
        }
    }

    /// What a core answers to a call, where segments decide it.
    pub fn foreseen(&self, call: &Call) -> Option<Answer> {
        match call.event {
            Event::Refill { arena } => match self.next_of(arena) {
                Some(segment) => Some(Answer::Refilled(segment)),
                None => Some(Answer::NoSegment),
            },
            Event::Take { segment } if self.is_held(segment, call.worker) => {
                Some(Answer::Taken(self.sent(segment)))
            }
            Event::Abandon { segment } if self.is_held(segment, call.worker) => Some(Answer::Done),
            Event::Take { .. } | Event::Abandon { .. } => Some(Answer::NotHeld),
            _ => None,
        }
    }

    /// A worker gives back a segment.
    fn give_back(&mut self, number: u8) -> Result<(), AllocError> {
        let turn = self.turns.len();
        let mut before = 0;
        if let Some(segment) = self.segment(number) {
            before = segment.turn;
            segment.turn = turn;
            segment.holder = None;
        }
        self.turns.push(before)?;
        Ok(())
    }

    /// A call that a core answered so.
    pub fn add(&mut self, step: &Step) -> Result<(), AllocError> {
        match (step.call.event, step.call.answer) {
            (Event::Abandon { segment }, Answer::Done) => self.give_back(segment)?,
            (Event::Refill { .. }, Answer::Refilled(segment)) => {
                if let Some(segment) = self.segment(segment) {
                    segment.holder = Some(step.call.worker);
                }
            }
            (Event::Take { segment }, Answer::Taken(_)) => {
                if let Some(segment) = self.segment(segment) {
                    segment.sent = 0;
                }
            }
            _ => {
                if let Change::Sends(segment) = step.change {
                    if let Some(segment) = self.segment(segment) {
                        segment.sent = segment.sent.wrapping_add(1);
                    }
                }
            }
        }
        Ok(())
    }

    /// A worker has again a segment that it gave back.
    fn hold_again(&mut self, number: u8, worker: u8) {
        if let Some(turn) = self.turns.pop() {
            if let Some(segment) = self.segment(number) {
                segment.turn = turn;
                segment.holder = Some(worker);
            }
        }
    }

    /// The last call is undone.
    pub fn undo(&mut self, step: &Step) {
        match (step.call.event, step.call.answer) {
            (Event::Abandon { segment }, Answer::Done) => self.hold_again(
                segment,
                step.call.worker,
            ),
            (Event::Refill { .. }, Answer::Refilled(segment)) => {
                if let Some(segment) = self.segment(segment) {
                    segment.holder = None;
                }
            }
            (Event::Take { segment }, Answer::Taken(taken)) => {
                if let Some(segment) = self.segment(segment) {
                    segment.sent = taken;
                }
            }
            _ => {
                if let Change::Sends(segment) = step.change {
                    if let Some(segment) = self.segment(segment) {
                        segment.sent = segment.sent.wrapping_sub(1);
                    }
                }
            }
        }
    }
}

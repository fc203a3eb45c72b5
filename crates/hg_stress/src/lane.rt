//! A worker with its stream of events.

ghost use Rattle.std.specs.Prelude.{◌<◌};

use crate::counts::Counts;
use crate::draw::Draw;
use crate::plan::Plan;
use crate::shared::Shared;
use crate::tally::Tally;
use hg_calls::Call;
use hg_machine::{Answer, Event};
use hg_service::{Service, Worker};
use hg_worker::ServiceName;
use std::alloc::{AllocError, Global};
use std::sync::Wait;

/// A worker, what it draws, and what it did.
#[derive(Drop)]
pub struct Lane<N: ServiceName> {
    worker: Worker<N>,
    plan: Plan,
    draw: Draw,
    tally: Tally,
    /// What it was answered, where that is kept. There is room for all of it from the start.
    calls: Vec<Call>,
}

/// What a worker did that has left.
#[derive(Drop)]
pub struct Done {
    /// Its calls, where they were kept.
    pub calls: Vec<Call>,
    pub counts: Counts,
}

/// A worker with a stream of its own.
fn make_lane<N: ServiceName>(
    alloc: Global,
    worker: Worker<N>,
    plan: Plan,
) -> Result<Lane<N>, AllocError> {
    match Vec::with_capacity(alloc, plan.kept) {
        Ok(calls) => {
            let draw = Draw::new(plan, worker.own.number());
            Ok(Lane {
                worker,
                plan,
                draw,
                tally: Tally::new(),
                calls,
            })
        }
        Err(error) => {
            drop(worker);
            Err(error)
        }
    }
}

/// Adds a worker of the plan for each of the first numbers.
pub fn add_lanes<N: ServiceName>(
    alloc: Global,
    service: &mut Service<N>,
    plan: Plan,
    lanes: &mut Vec<Lane<N>>,
) -> Result<(), AllocError> {
    for number in 0..plan.workers {
        if let Some(worker) = service.worker(number) {
            lanes.push(make_lane(alloc, worker, plan)?)?;
        }
    }
    Ok(())
}

/// What the service answers.
fn answer<N: ServiceName, R: Wait>(rt: &R, worker: &mut Worker<N>, event: Event) -> Answer {
    match event {
        Event::Alloc {
            actor,
            arena,
            bytes,
        } => worker.own.alloc(actor, arena, bytes),
        Event::Free { actor, handle } => worker.own.free(actor, handle),
        Event::Deliver => worker.deliver(rt),
        Event::Take { segment } => worker.take(rt, segment),
        Event::Collect => worker.own.collect_own(),
        Event::Read {
            actor,
            handle,
            index,
        } => worker.own.read(actor, handle, index),
        Event::Write {
            actor,
            handle,
            index,
            value,
        } => worker.own.write(actor, handle, index, value),
        Event::Look { actor, place } => worker.own.look(actor, place),
        Event::Abandon { segment } => worker.abandon(rt, segment),
        Event::Refill { arena } => worker.refill(rt, arena),
    }
}

impl<N: ServiceName> Lane<N> {
    /// Makes all its events. Before each round it waits for the others; every other round is a
    /// fight.
    pub fn run<R: Wait>(&mut self, rt: &R, shared: &Shared) {
        let Plan {
            events,
            round,
            workers,
            ..
        } = self.plan;
        for number in 0..events {
            let before = number / round;
            if number % round == 0 {
                let all = before.wrapping_add(1).wrapping_mul(u64::from(workers));
                shared.gate.pass(all);
            }
            self.once(rt, shared, before % 2 == 1);
        }
    }

    /// One event.
    fn once<R: Wait>(&mut self, rt: &R, shared: &Shared, is_fight: bool) {
        let event = self.draw.event(shared, is_fight);
        let answer = answer(rt, &mut self.worker, event);
        let is_held = match event {
            Event::Free { handle, .. } => self.worker.own.holds(handle.place.segment),
            _ => false,
        };
        self.tally.note(shared, event, answer, is_held);
        self.draw.follow(shared, event, answer);
        if self.plan.kept > 0 {
            let worker = self.worker.own.number();
            let _ = self.calls.push(Call {
                worker,
                event,
                answer,
            });
        }
    }

    /// Gives the worker back, and what it did.
    pub fn leave<R: Wait>(self, rt: &R) -> Done {
        let Lane {
            worker,
            plan: _,
            draw,
            tally,
            calls,
        } = self;
        worker.leave(rt);
        drop(draw);
        Done {
            calls,
            counts: tally.counts,
        }
    }
}

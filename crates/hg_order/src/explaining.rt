//! An order for calls, or that there is none.

ghost use Rattle.std.specs.Prelude.{IfOk};
ghost use Rattle.hg_order.specs.Founds.{IsRight};

use crate::choice::Ended;
use crate::found::Found;
use crate::fronts::shortest_past;
use crate::logs::Logs;
use crate::orders::is_explained;
use crate::search::Search;
use hg_calls::Call;
use hg_policy::Policy;
use std::alloc::{AllocError, Global};

/// The calls in the order of a search.
fn order_in(alloc: Global, search: &Search<'_>) -> Result<Vec<Call>, AllocError> {
    let mut order = Vec::new(alloc);
    for call in search.order() {
        order.push(call.step.call)?;
    }
    Ok(order)
}

/// An order of all calls, whether it is one or not; `None` where the search found none.
fn order_of(alloc: Global, policy: &Policy, logs: &Logs) -> Result<(Ended, Vec<Call>), AllocError> {
    let mut search = Search::new(alloc, policy, logs, false)?;
    let ended = search.run();
    let order = order_in(alloc, &search);
    drop(search);
    Ok((ended?, order?))
}

/// The shortest front that no order comes past, where there is no order.
fn front_of(alloc: Global, policy: &Policy, logs: &Logs) -> Result<Option<Vec<usize>>, AllocError> {
    let mut counts = Vec::new(alloc);
    for worker in 0..logs.len() {
        counts.push(logs.count(worker))?;
    }
    let mut search = Search::new(alloc, policy, logs, true)?;
    let front = match search.run() {
        Ok(Ended::WithNone) => shortest_past(alloc, &counts, &search.ends),
        Ok(_) => Ok(None),
        Err(error) => Err(error),
    };
    drop(search);
    front
}

/// Looks for an order of these calls in which a core that the policy opens gives the same answers.
/// One that is found is right. That there is none is what the search says, and no clause.
pub fn explain(alloc: Global, policy: &Policy, calls: &[Call]) -> Result<Found, AllocError>
    ensures { IfOk result (IsRight policy.now calls.now) }
{
    let logs = Logs::of(alloc, policy.workers(), calls)?;
    let (ended, order) = order_of(alloc, policy, &logs)?;
    match ended {
        Ended::AtOrder => found_order(alloc, policy, calls, order),
        Ended::WithNone => Ok(Found::Nothing(front_of(alloc, policy, &logs)?)),
        Ended::GivenUp => Ok(Found::GivenUp),
    }
}

/// The order, if it explains the calls.
fn found_order(
    alloc: Global,
    policy: &Policy,
    calls: &[Call],
    order: Vec<Call>,
) -> Result<Found, AllocError>
    ensures { IfOk result (IsRight policy.now calls.now) }
{
    if is_explained(alloc, policy, calls, &order)? {
        return Ok(Found::Order(order));
    }
    Ok(Found::GivenUp)
}

//! A new service, or its parts, on which a run is tried.

ghost use Rattle.std.specs.Prelude.{◌≡◌, length, IfSome};
ghost use Rattle.hg_table.specs.Named.{table_of};

use crate::in_turn::InTurn;
use crate::steps::Run;
use hg_policy::Policy;
use hg_policy_text::read_policy;
use hg_service::{CallerLocked, Service};
use hg_table::LifeTable;
use hg_worker::ServiceName;
use std::alloc::Global;
use std::marker::Brand;
use std::process::Abort;
use std::sync::Wait;

/// A document's policy and a table for it, unless memory is refused.
pub fn made(alloc: Global, document: &str) -> Option<(Policy, LifeTable)>
    ensures { IfSome result (λ made. (made.1.segments ≡ length made.0.segments)
        × (made.1.workers ≡ made.0.workers)) }
{
    let policy = read_policy(alloc, document.as_bytes()).ok()?;
    match LifeTable::new(alloc, &policy) {
        Ok(table) => Some((policy, table)),
        Err(_) => None,
    }
}

/// Makes a run on a new service of the name N.
fn on_service<N: ServiceName, R: Wait + Abort + Print>(
    rt: &R,
    alloc: Global,
    made: (Policy, LifeTable),
    run: &Run,
) -> bool
    requires table { table_of made.1 ≡ N.table }
    requires policy { made.0 ≡ N.policy }
    requires segments { made.1.segments ≡ length made.0.segments }
    requires workers { made.1.workers ≡ made.0.workers }
{
    match Service::<N>::open(alloc, made.0, made.1) {
        Ok(service) => goes(rt, alloc, Some(service), None, run),
        Err(_) => false,
    }
}

/// The same on its parts.
fn on_parts<N: ServiceName, R: Wait + Abort + Print>(
    rt: &R,
    alloc: Global,
    made: (Policy, LifeTable),
    run: &Run,
) -> bool
    requires table { table_of made.1 ≡ N.table }
    requires policy { made.0 ≡ N.policy }
    requires segments { made.1.segments ≡ length made.0.segments }
    requires workers { made.1.workers ≡ made.0.workers }
{
    match CallerLocked::<N>::open(alloc, made.0, made.1) {
        Ok(parts) => goes(rt, alloc, None, Some(parts), run),
        Err(_) => false,
    }
}

/// A run goes as it says, on a service or on parts.
fn goes<N: ServiceName, R: Wait + Abort + Print>(
    rt: &R,
    alloc: Global,
    service: Option<Service<N>>,
    parts: Option<CallerLocked<N>>,
    run: &Run,
) -> bool {
    match InTurn::new(alloc, service, parts) {
        Ok(mut all) => {
            all.meets(rt, alloc, run);
            drop(all);
            true
        }
        Err(_) => false,
    }
}

/// Makes a run on a new service, which must go as it says. Whether there was memory for that.
pub fn is_tried<R: Wait + Abort + Print>(rt: &R, alloc: Global, run: &Run) -> bool {
    let Some(made) = made(alloc, run.begins.document) else {
        return false;
    };
    match run.begins.is_of_parts {
        true => on_parts::<Brand, R>(rt, alloc, made, run),
        false => on_service::<Brand, R>(rt, alloc, made, run),
    }
}

/// Each run must go as it says.
pub fn all_go<R: Wait + Abort + Print>(rt: &R, alloc: Global, runs: &[Run]) {
    for run in runs {
        let name = run.name;
        assert!(rt; is_tried(rt, alloc, run), "no memory for {name}");
    }
}

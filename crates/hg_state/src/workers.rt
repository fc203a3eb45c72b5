//! What the workers hold and have in hand, and what they charge, in lines.

ghost use Rattle.std.specs.Prelude.{◌≡◌, ◌∷◌, ◌++◌, [], IfOk, OnOk, option_map, if◌then◌else◌};
ghost use Rattle.std.specs.List.{flat_map};
ghost use Rattle.hg_place.specs.Places.{number_of};
ghost use Rattle.hg_machine.specs.Policy.{limit_of};
ghost use Rattle.hg_show.specs.Parts.{name_of, tenants_in};
ghost use Rattle.hg_state.specs.Workers.{charge_line, hand_line, hand_text, held_by, held_line};
ghost use Rattle.hg_state.specs.Workers.{next_number, numbers_text, quoted_place, some_numbers};
ghost use Rattle.hg_state.specs.Workers.{worker_text, workers_in};

use crate::form::{Form, Word, push_counted, push_named, push_word};
use hg_core::Core;
use hg_place::Place;
use hg_policy::Policy;
use hg_text::push_count;
use std::alloc::{AllocError, Global};

/// The name of a tenant, and no text where the policy lacks it.
pub(crate) fn name_of(policy: &Policy, tenant: u8) -> &str
    ensures { result.now ≡ name_of policy.now tenant }
{
    match policy.tenant_name(tenant) {
        Some(name) => name,
        None => "",
    }
}

/// How many bytes a tenant may have in the heap of each worker, and 0 where the policy lacks it.
fn limit_of(policy: &Policy, tenant: u8) -> u64
    ensures { result ≡ limit_of policy.now tenant }
{
    match policy.limit(tenant) {
        Some(limit) => limit,
        None => 0,
    }
}

/// Appends a number, where it is to be kept.
pub(crate) fn push_kept(numbers: &mut Vec<u8>, keeps: bool, number: u8) -> Result<(), AllocError>
    ensures { OnOk result (numbers.new.items
        ≡ numbers.old.items ++ (if keeps then number ∷ [] else [])) }
{
    if keeps {
        numbers.push(number)?;
    }
    Ok(())
}

/// The segments that a worker holds.
fn held_by(alloc: Global, core: &Core, worker: u8) -> Result<Vec<u8>, AllocError>
    ensures { IfOk result (λ held. held.items ≡ held_by core.now.state worker) }
{
    let mut held = Vec::new(alloc);
    for segment in 0..core.policy().segments() {
        push_kept(&mut held, core.holds(worker, segment), segment)?;
    }
    Ok(held)
}

/// Appends numbers, each behind the word that goes between two.
fn push_next_numbers(out: &mut Vec<u8>, form: Form, numbers: &[u8]) -> Result<(), AllocError>
    ensures { OnOk result (out.new.items ≡ out.old.items ++ flat_map (next_number form) numbers.now) }
{
    for number in numbers {
        push_counted(out, form, Word::NextNumber, u64::from(*number))?;
    }
    Ok(())
}

/// Appends numbers, of which one is the first.
#[tactic(auto, unfolding(crate::specs::Workers::some_numbers))]
fn push_some_numbers(
    out: &mut Vec<u8>,
    form: Form,
    first: u8,
    others: &[u8],
) -> Result<(), AllocError>
    ensures { OnOk result (out.new.items ≡ out.old.items ++ some_numbers form first others.now) }
{
    push_counted(out, form, Word::FirstNumber, u64::from(first))?;
    push_next_numbers(out, form, others)?;
    push_word(out, form, Word::LastNumber)
}

/// Appends numbers, or that there are none.
pub(crate) fn push_numbers(out: &mut Vec<u8>, form: Form, numbers: &[u8]) -> Result<(), AllocError>
    ensures { OnOk result (out.new.items ≡ out.old.items ++ numbers_text form numbers.now) }
{
    match numbers {
        [] => push_word(out, form, Word::NoNumber),
        [first, others @ ..] => push_some_numbers(out, form, *first, others),
    }
}

/// Appends the segments that a worker holds.
#[tactic(auto, unfolding(crate::specs::Workers::held_line))]
fn push_held(
    alloc: Global,
    out: &mut Vec<u8>,
    form: Form,
    core: &Core,
    worker: u8,
) -> Result<(), AllocError>
    ensures { OnOk result (out.new.items ≡ out.old.items ++ held_line form core.now.state worker) }
{
    let held = held_by(alloc, core, worker)?;
    push_counted(out, form, Word::Worker, u64::from(worker))?;
    push_word(out, form, Word::Holds)?;
    push_numbers(out, form, &held)?;
    push_word(out, form, Word::End)
}

/// Appends a place: its segment, page and index.
#[tactic(auto, unfolding(crate::specs::Workers::quoted_place))]
fn push_place(out: &mut Vec<u8>, form: Form, place: Place) -> Result<(), AllocError>
    ensures { OnOk result (out.new.items ≡ out.old.items ++ quoted_place form (number_of place)) }
{
    push_word(out, form, Word::Quote)?;
    push_count(out, "", u64::from(place.segment))?;
    push_count(out, ".", u64::from(place.page))?;
    push_count(out, ".", u64::from(place.index))?;
    push_word(out, form, Word::Quote)
}

/// Appends the place that is in hand, if one is.
fn push_hand(out: &mut Vec<u8>, form: Form, hand: Option<Place>) -> Result<(), AllocError>
    ensures { OnOk result (out.new.items
        ≡ out.old.items ++ hand_text form (option_map number_of hand)) }
{
    match hand {
        None => push_word(out, form, Word::Empty),
        Some(place) => push_place(out, form, place),
    }
}

/// Appends what a worker has in hand.
#[tactic(auto, unfolding(crate::specs::Workers::hand_line))]
fn push_in_hand(out: &mut Vec<u8>, form: Form, core: &Core, worker: u8) -> Result<(), AllocError>
    ensures { OnOk result (out.new.items ≡ out.old.items ++ hand_line form core.now.state worker) }
{
    push_counted(out, form, Word::Worker, u64::from(worker))?;
    push_word(out, form, Word::Hand)?;
    push_hand(out, form, core.hand(worker))?;
    push_word(out, form, Word::End)
}

/// Appends what counts against a tenant's limit with a worker, where something does.
#[tactic(auto, unfolding(crate::specs::Workers::charge_line))]
fn push_charge(
    out: &mut Vec<u8>,
    form: Form,
    core: &Core,
    worker: u8,
    tenant: u8,
) -> Result<(), AllocError>
    ensures { OnOk result (out.new.items
        ≡ out.old.items ++ charge_line form core.now.state worker tenant) }
{
    let policy = core.policy();
    let charge = core.charge(worker, tenant);
    if charge == 0 {
        return Ok(());
    }
    push_counted(out, form, Word::Worker, u64::from(worker))?;
    push_named(out, form, Word::ChargedTo, name_of(policy, tenant))?;
    push_counted(out, form, Word::Bytes, charge)?;
    push_counted(out, form, Word::Limit, limit_of(policy, tenant))?;
    push_word(out, form, Word::End)
}

/// Appends what counts against each tenant's limit with a worker.
fn push_charges(out: &mut Vec<u8>, form: Form, core: &Core, worker: u8) -> Result<(), AllocError>
    ensures { OnOk result (out.new.items ≡ out.old.items
        ++ flat_map (charge_line form core.now.state worker) (tenants_in core.now.state.policy)) }
{
    for tenant in 0..core.policy().tenants() {
        push_charge(out, form, core, worker, tenant)?;
    }
    Ok(())
}

/// Appends a worker: the segments that it holds, what it has in hand, and what it charges.
#[tactic(auto, unfolding(crate::specs::Workers::worker_text))]
fn push_worker_text(
    alloc: Global,
    out: &mut Vec<u8>,
    form: Form,
    core: &Core,
    worker: u8,
) -> Result<(), AllocError>
    ensures { OnOk result (out.new.items ≡ out.old.items ++ worker_text form core.now.state worker) }
{
    push_held(alloc, out, form, core, worker)?;
    push_in_hand(out, form, core, worker)?;
    push_charges(out, form, core, worker)
}

/// Appends the workers.
pub(crate) fn push_workers(
    alloc: Global,
    out: &mut Vec<u8>,
    form: Form,
    core: &Core,
) -> Result<(), AllocError>
    ensures { OnOk result (out.new.items ≡ out.old.items
        ++ flat_map (worker_text form core.now.state) (workers_in core.now.state)) }
{
    for worker in 0..core.policy().workers() {
        push_worker_text(alloc, out, form, core, worker)?;
    }
    Ok(())
}

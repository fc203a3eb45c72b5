//! A bank is taken apart, and one is made of cores.

ghost use Rattle.std.specs.Prelude.{◌≡◌, ◌<◌, ◌≤◌, ℕ, IfOk, IfErr, All, length, replicate};
ghost use Rattle.std.specs.Prelude.{slice_index, vec_capacity};
ghost use Rattle.hg_machine.specs.Soundness.{IsSound};
ghost use Rattle.hg_bank.specs.Kept.{AreSums};
ghost use Rattle.hg_bank.specs.Parts.{AreParts, bank_from};
ghost use Rattle.hg_bank.specs.Sound.{IsCoreOf, IsSoundBank};
ghost use Rattle.hg_bank.specs.State.{charge_over};

use crate::bank::{ARENAS, Bank, MAX_CORES, TENANTS};
use crate::opening::no_currents;
use crate::sums::deposit;
use hg_core::Core;
use hg_policy::Policy;
use std::alloc::{AllocError, Global};

/// All that a bank is made of, as a host has it that took one apart or is to make one.
///
/// A core's place in the list is its number in each handle that was given out. So who makes a bank
/// again keeps the order, and puts no other core where one was: there an old handle may name
/// another's block. What was done to a core meanwhile counts as the bank finds it, also above a
/// limit.
#[derive(Drop)]
pub struct BankParts {
    /// By which each core serves.
    pub policy: Policy,
    /// How many cores there may be, 1 to 16,384.
    pub room: u16,
    /// By number, one or more, in a list that has room for all that there may be and no more, as
    /// `Vec::with_capacity` makes it.
    pub cores: Vec<Core>,
}

/// What a bank keeps beside its parts.
#[derive(Drop)]
struct Rows {
    currents: Vec<[u16; ARENAS]>,
    sums: Vec<[u64; TENANTS]>,
}

impl Bank {
    /// What it is made of, cores as they are. Which core is current for whom is forgotten. It takes
    /// no memory.
    pub fn into_parts(self) -> BankParts
        ensures policy { result.policy ≡ self.policy }
        ensures room { result.room ≡ self.room }
        ensures cores { result.cores.items ≡ self.cores }
        ensures list { vec_capacity result.cores ≡ result.room }
        ensures parts { AreParts result.policy result.room result.cores.items }
    {
        let Bank {
            policy,
            room,
            cores,
            currents: _,
            sums: _,
        } = self;
        BankParts {
            policy,
            room,
            cores,
        }
    }

    /// A bank of these parts: its cores as they are, and the first is current for each worker in
    /// each arena. What counts over all of them is added up. Its one error is want of memory, and
    /// hands the parts back: whoever drops them drops all blocks.
    pub fn from_parts(alloc: Global, parts: BankParts) -> Result<Bank, BankParts>
        requires list { vec_capacity parts.cores ≡ parts.room }
        requires parts { AreParts parts.policy parts.room parts.cores.items }
        ensures bank { IfOk result
            (λ bank. bank ≡ bank_from parts.policy parts.room parts.cores.items) }
        ensures kept { IfOk result IsSoundBank }
        ensures unchanged { IfErr result (λ back. back ≡ parts) }
    {
        match rows_of(alloc, &parts) {
            Ok(rows) => Ok(put_together(parts, rows)),
            Err(_) => Err(parts),
        }
    }
}

/// The bank of parts with these rows.
fn put_together(parts: BankParts, rows: Rows) -> Bank
    requires list { vec_capacity parts.cores ≡ parts.room }
    requires parts { AreParts parts.policy parts.room parts.cores.items }
    requires currents { rows.currents.items
        ≡ replicate parts.policy.workers (replicate ARENAS 0) }
    requires sums { AreSums parts.policy rows.sums.items parts.cores.items }
    ensures bank { result ≡ bank_from parts.policy parts.room parts.cores.items }
    ensures kept { IsSoundBank result }
{
    Bank {
        policy: parts.policy,
        room: parts.room,
        cores: parts.cores,
        currents: rows.currents,
        sums: rows.sums,
    }
}

/// The rows of a bank of these parts.
fn rows_of(alloc: Global, parts: &BankParts) -> Result<Rows, AllocError>
    requires { AreParts parts.now.policy parts.now.room parts.now.cores.items }
    ensures currents { IfOk result (λ rows. rows.currents.items
        ≡ replicate parts.now.policy.workers (replicate ARENAS 0)) }
    ensures sums { IfOk result (λ rows.
        AreSums parts.now.policy rows.sums.items parts.now.cores.items) }
{
    let currents = no_currents(alloc, parts.policy.workers())?;
    let sums = summed(alloc, &parts.policy, parts.cores.as_slice())?;
    Ok(Rows { currents, sums })
}

/// By worker and tenant what counts over all cores.
fn summed(alloc: Global, policy: &Policy, cores: &[Core]) -> Result<Vec<[u64; TENANTS]>, AllocError>
    requires few { length cores.now ≤ MAX_CORES }
    requires cores { All (IsCoreOf policy.now) cores.now }
    ensures { IfOk result (λ rows. AreSums policy.now rows.items cores.now) }
{
    let workers = policy.workers();
    let tenants = policy.tenants();
    let mut rows = Vec::with_capacity(alloc, usize::from(workers))?;
    for worker in 0..workers {
        rows.push_reserved(row_over(cores, worker, tenants));
    }
    Ok(rows)
}

/// By tenant what counts with a worker over all cores.
fn row_over(cores: &[Core], worker: u8, tenants: u8) -> [u64; TENANTS]
    requires few { length cores.now ≤ MAX_CORES }
    requires tenants { tenants ≤ TENANTS }
    requires sound { All (λ core. IsSound core.state) cores.now }
    ensures { (tenant : ℕ) → tenant < tenants
        → slice_index result tenant ≡ charge_over cores.now worker tenant }
{
    let mut row = [0; TENANTS];
    for core in cores {
        deposit(&mut row, core, worker, tenants);
    }
    row
}

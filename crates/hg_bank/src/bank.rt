//! The bank, and what it is made of.

ghost use Rattle.std.specs.Prelude.{◌≡◌, ◌+◌, ◌<◌, ◌≤◌, ◌&&◌, IfOk, OnOk, OnErr, length, nat_lt};
ghost use Rattle.std.specs.Prelude.{if◌then◌else◌, Some, None, IsTrue, ◌↔◌, MatchOption, slice_get};
ghost use Rattle.hg_machine.specs.Policy.{is_tenant};
ghost use Rattle.hg_bank.specs.Opening.{opened_bank, grown};
ghost use Rattle.hg_bank.specs.Sound.{IsSoundBank};
ghost use Rattle.hg_bank.specs.State.{charge_over};

use crate::opening::{first_core, no_currents, no_sums};
use hg_core::Core;
use hg_place::Handle;
use hg_policy::Policy;
use std::alloc::{AllocError, Global};
use std::marker::Model;

/// How many cores a bank may have at most.
pub const MAX_CORES: u16 = 16_384;

/// How many numbers an arena may have.
pub(crate) const ARENAS: usize = 256;

/// How many numbers a tenant may have.
pub(crate) const TENANTS: usize = 64;

/// A block: the number of its core, and its handle there.
#[derive(Clone, Copy, Debug, PartialEq, Eq)]
pub struct BankHandle {
    pub core: u16,
    pub handle: Handle,
}

/// A segment: the number of its core, and its own there.
#[derive(Clone, Copy, Debug, PartialEq, Eq)]
pub struct BankSegment {
    pub core: u16,
    pub segment: u8,
}

/// Many cores that serve by one policy, seen as a state of the bank's machine. What counts against
/// a limit counts over all of them: `sums` has it, so that no call adds it up. `cores` has its full
/// room from the opening.
#[derive(Drop)]
pub struct Bank {
    pub(crate) policy: Policy,
    /// How many cores there may be.
    pub(crate) room: u16,
    pub(crate) cores: Vec<Core>,
    /// By worker and arena, the number of the core that is asked first.
    pub(crate) currents: Vec<[u16; ARENAS]>,
    /// By worker and tenant, the sum of the charges of all cores, in bytes.
    pub(crate) sums: Vec<[u64; TENANTS]>,
}

impl Model for Bank {
    ghost use Rattle.hg_bank.specs.State.{BankState};

    ghost Value = { BankState };

    ghost use Rattle.hg_bank.specs.Kept.{bank_of, IsKept};

    ghost view = { bank_of };

    ghost invariant = { IsKept };
}

impl Bank {
    /// A bank with room for so many cores, of which the first is open. It takes the room for the
    /// list of all of them, and the memory of one.
    pub fn open(alloc: Global, policy: Policy, room: u16) -> Result<Bank, AllocError>
        requires some { 1 ≤ room }
        requires most { room ≤ MAX_CORES }
        ensures opened { IfOk result (λ bank. bank ≡ opened_bank policy room) }
        ensures kept { IfOk result IsSoundBank }
    {
        let workers = policy.workers();
        let currents = no_currents(alloc, workers)?;
        let sums = no_sums(alloc, workers)?;
        let cores = first_core(alloc, &policy, room)?;
        Ok(Bank {
            policy,
            room,
            cores,
            currents,
            sums,
        })
    }

    /// The policy by which all its cores serve.
    pub fn policy(&self) -> &Policy
        ensures value { result.now ≡ self.now.policy }
        ensures kept { IsSoundBank self.now }
    {
        &self.policy
    }

    /// How many cores are open.
    pub fn cores(&self) -> u16
        ensures cores { result ≡ length self.now.cores }
        ensures kept { IsSoundBank self.now }
    {
        self.cores.len() as u16
    }

    /// Whether all cores are open that there may be.
    pub fn is_full(&self) -> bool
        ensures full { IsTrue result ↔ (self.now.room ≤ length self.now.cores) }
        ensures kept { IsSoundBank self.now }
    {
        self.cores.len() >= usize::from(self.room)
    }

    /// The core of this number, to be asked what it holds. `None` where it isn't open.
    pub fn core(&self, number: u16) -> Option<&Core>
        ensures core { MatchOption result (length self.now.cores ≤ number)
            (λ core. slice_get self.now.cores number ≡ Some core.now) }
        ensures kept { IsSoundBank self.now }
    {
        self.cores.get(usize::from(number))
    }

    /// Opens one more core, and tells its number. A want of memory leaves the bank as it was.
    pub fn grow(&mut self, alloc: Global) -> Result<u16, AllocError>
        requires { length self.old.cores < self.old.room }
        ensures ok { OnOk result (self.new ≡ grown self.old) }
        ensures number { IfOk result (λ core. core ≡ length self.old.cores) }
        ensures err { OnErr result (self.new ≡ self.old) }
        ensures kept { IsSoundBank self.new }
    {
        let core = Core::open(alloc, self.policy.copy(alloc)?)?;
        let number = self.cores.len() as u16;
        self.cores.push_reserved(core);
        Ok(number)
    }

    /// What counts against a tenant's limit with a worker, in bytes, over all cores and arenas.
    /// `None` for a worker or a tenant that the policy lacks.
    pub fn charge(&self, worker: u8, tenant: u8) -> Option<u64>
        ensures { result
            ≡ (if nat_lt worker self.now.policy.workers && is_tenant self.now.policy tenant
            then Some (charge_over self.now.cores worker tenant) else None) }
    {
        if worker >= self.policy.workers() || tenant >= self.policy.tenants() {
            return None;
        }
        let row = &self.sums[usize::from(worker)];
        Some(row[usize::from(tenant)])
    }
}

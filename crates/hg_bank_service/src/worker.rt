//! A bank worker: what it has.

ghost use Rattle.std.specs.Prelude.{◌≡◌, ◌<◌, ◌≤◌, ◌&&◌, ℕ, if◌then◌else◌, length, slice_index};
ghost use Rattle.std.specs.Prelude.{[], nat_lt, Some, None, MatchOption, option_map, slice_get};
ghost use Rattle.std.specs.Prelude.{vec_capacity, false};
ghost use Rattle.hg_machine.specs.Policy.{is_tenant};
ghost use Rattle.hg_bank.specs.declared.bank.TheConstants.{MAX_CORES};
ghost use Rattle.hg_heap.specs.Held.{is_held};
ghost use Rattle.hg_worker.specs.Seats.{number_in};
ghost use Rattle.hg_hosted.specs.Has.{Has};
ghost use Rattle.hg_bank_service.specs.Has.{AreNumbered};
ghost use Rattle.hg_bank_service.specs.Idle.{HasFirst};
ghost use Rattle.hg_bank_service.specs.Sums.{AreSums, charge_over};

use hg_bank::BankSegment;
use hg_hosted::{Departed, HostedWorker};
use hg_place::Place;
use hg_policy::Policy;
use hg_segment::TENANTS;

/// How many numbers an arena may have.
pub(crate) const ARENAS: usize = 256;

/// A worker of a bank of services, for one thread of its host: it has a worker of each core, all of
/// one number, and what counts against a limit counts over all of them: `sums` has it, so that no
/// call adds it up. No call waits: where another call has what it needs, it says so and does
/// nothing.
#[derive(Drop)]
pub struct BankWorker {
    pub(crate) policy: Policy,
    pub(crate) number: u8,
    /// By core.
    pub(crate) workers: Vec<HostedWorker>,
    /// By arena, the number of the core that is asked first.
    pub(crate) currents: [u16; ARENAS],
    /// By tenant, the sum of the charges of all cores, in bytes.
    pub(crate) sums: [u64; TENANTS],
    /// Room for what is left of each where it leaves, which takes no memory then.
    pub(crate) gone: Vec<Departed>,
    ghost below: { number < policy.workers },
    ghost some: { 1 ≤ length workers.items },
    ghost most: { length workers.items ≤ MAX_CORES },
    ghost of: { AreNumbered policy number workers.items },
    ghost there: { (arena : ℕ) → slice_index currents arena < length workers.items },
    ghost counted: { AreSums (length policy.tenants) sums workers.items },
    ghost here: { gone.items ≡ [] },
    ghost room: { length workers.items ≤ vec_capacity gone },
}

impl BankWorker {
    /// The worker's number.
    pub fn number(&self) -> u8
        ensures { result ≡ self.now.number }
    {
        self.number
    }

    /// How many cores there are, 1 to 16,384.
    pub fn cores(&self) -> u16
        ensures { result ≡ length self.now.workers.items }
    {
        self.workers.len() as u16
    }

    /// Whether the worker holds a segment. Nobody holds one of a core that isn't there.
    pub fn holds(&self, segment: BankSegment) -> bool
        ensures { MatchOption (slice_get self.now.workers.items segment.core) (result ≡ false)
            (λ worker. Has (λ state. result
            ≡ is_held number_in state.heap.segments segment.segment) worker) }
    {
        match self.workers.get(usize::from(segment.core)) {
            Some(worker) => worker.holds(segment.segment),
            None => false,
        }
    }

    /// The lowest segment that the worker holds in a core. Nobody holds one of a core that isn't there.
    pub fn first_held(&self, core: u16) -> Option<u8>
        ensures { MatchOption (slice_get self.now.workers.items core) (result ≡ None)
            (HasFirst result) }
    {
        match self.workers.get(usize::from(core)) {
            Some(worker) => worker.first_held(),
            None => None,
        }
    }

    /// The place of the block in the worker's hand in a core. In a core that isn't there no hand has
    /// anything.
    pub fn hand(&self, core: u16) -> Option<Place>
        ensures { MatchOption (slice_get self.now.workers.items core) (result ≡ None)
            (λ worker. Has (λ state. result ≡ option_map (λ handle. handle.place) state.hand)
            worker) }
    {
        match self.workers.get(usize::from(core)) {
            Some(worker) => worker.hand(),
            None => None,
        }
    }

    /// What counts against a tenant's limit, in bytes, over all cores and arenas. `None` for a
    /// tenant that the policy lacks.
    pub fn charge(&self, tenant: u8) -> Option<u64>
        ensures { result ≡ (if is_tenant self.now.policy tenant
            then Some (charge_over self.now.workers.items tenant) else None) }
    {
        if tenant >= self.policy.tenants() {
            return None;
        }
        Some(self.sums[usize::from(tenant)])
    }
}

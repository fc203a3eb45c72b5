//! What counts against a tenant's limit.

ghost use Rattle.std.specs.Prelude.{◌≡◌};
ghost use Rattle.hg_machine.specs.Charge.{charge};
ghost use Rattle.hg_core.specs.Keeping.{state_in};

use crate::stores::Stores;

impl Stores {
    /// What counts against a tenant's limit with a worker, in bytes, of all arenas.
    pub(crate) fn charge(&self, worker: u8, tenant: u8) -> u64
        ensures { result ≡ charge (state_in self.now) worker tenant }
    {
        if worker >= self.policy.workers() {
            return 0;
        }
        let heap = &self.heaps[usize::from(worker)];
        heap.settled();
        heap.charge(tenant)
    }
}

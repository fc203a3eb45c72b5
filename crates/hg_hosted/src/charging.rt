//! What counts against a tenant's limit.

ghost use Rattle.std.specs.Prelude.{◌≡◌, ◌<◌, ◌≤◌, ◌^◌, Some};
ghost use Rattle.hg_segment.specs.declared.charges.TheConstants.{TENANTS};
ghost use Rattle.hg_worker.specs.Charged.{AreKept};
ghost use Rattle.hg_hosted.specs.Charges.{charge_at};

use crate::worker::HostedWorker;

impl HostedWorker {
    /// What a tenant is charged for the open places of the segments that the worker holds, in
    /// bytes, 32 GiB at most; a number that no tenant may have is charged nothing.
    pub fn charge(&self, tenant: u8) -> u64
        ensures counted { tenant < TENANTS → result ≡ charge_at self.now tenant }
        ensures nobody { ¬ tenant < TENANTS → result ≡ 0 }
        ensures few { result ≤ 2 ^ 35 }
        ensures kept { (own : _) → self.now.state ≡ Some own
            → AreKept own.value.heap.segments }
    {
        let Some(state) = &self.state else {
            unreachable!()
        };
        state.charge(tenant)
    }
}

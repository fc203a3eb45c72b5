//! Sets of tenants.

ghost use Rattle.std.specs.Prelude.{◌≡◌, ◌==◌, ◌<◌, ◌||◌, ℕ, true, false};
ghost use Rattle.hg_policy.specs.TenantSets.{has_tenant};

/// A set of tenants, one bit for each of up to 64.
#[derive(Clone, Copy, Debug, PartialEq, Eq)]
pub struct TenantSet(u64);

impl TenantSet {
    /// No tenant.
    pub fn none() -> TenantSet
        ensures { (tenant : ℕ) → has_tenant result tenant ≡ false }
    {
        TenantSet(0)
    }

    /// Each of 64 tenants.
    pub fn each() -> TenantSet
        ensures { (tenant : ℕ) → tenant < 64 → has_tenant result tenant ≡ true }
    {
        TenantSet(u64::MAX)
    }

    /// The set with one tenant more.
    pub fn with(self, tenant: u8) -> TenantSet
        requires { tenant < 64 }
        ensures { (other : ℕ) →
            has_tenant result other ≡ (has_tenant self other || tenant == other) }
    {
        TenantSet(self.0 | 1 << tenant)
    }

    /// The tenants of both sets.
    pub fn or(self, more: TenantSet) -> TenantSet
        ensures { (tenant : ℕ) →
            has_tenant result tenant ≡ (has_tenant self tenant || has_tenant more tenant) }
    {
        TenantSet(self.0 | more.0)
    }

    /// Whether the set has a tenant.
    pub fn has(self, tenant: u8) -> bool
        requires { tenant < 64 }
        ensures { result ≡ has_tenant self tenant }
    {
        self.0 >> tenant & 1 == 1
    }
}

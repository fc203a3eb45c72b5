ghost use Rattle.std.specs.Prelude.{◌≡◌, ◌<◌, ◌≤◌, ◌+◌, ◌-◌, ℕ, length, slice_index, slice_set};
ghost use Rattle.std.specs.Prelude.{IfOk};
ghost use Rattle.hg_segment.specs.declared.charges.TheConstants.{TENANTS};

use std::alloc::{AllocError, Global};
use std::marker::Model;

/// How many tenants there may be.
pub const TENANTS: usize = 64;

/// What tenants are charged, in bytes, seen as a list by tenant.
#[derive(Drop)]
pub struct Charges {
    by_tenant: Box<[u64; TENANTS]>,
}

impl Model for Charges {
    ghost use Rattle.std.specs.Prelude.{ℕ, List};

    ghost Value = { List ℕ };

    ghost view = { λ c. c.by_tenant.value };
}

impl Charges {
    /// No tenant is charged.
    pub fn none(alloc: Global) -> Result<Charges, AllocError>
        ensures all { IfOk result (λ charges. length charges ≡ TENANTS) }
        ensures none { IfOk result (λ charges. (tenant : ℕ) → slice_index charges tenant ≡ 0) }
    {
        let by_tenant = Box::new(alloc, [0; TENANTS])?;
        Ok(Charges { by_tenant })
    }

    /// The charge of a tenant.
    pub fn of(&self, tenant: u8) -> u64
        requires { tenant < TENANTS }
        ensures { result ≡ slice_index self.now tenant }
    {
        self.by_tenant[tenant as usize]
    }

    /// Charges a tenant for so many bytes more.
    pub fn raise(&mut self, tenant: u8, bytes: u64)
        requires tenant { tenant < TENANTS }
        requires room { slice_index self.old tenant + bytes ≤ u64.MAX }
        ensures { self.new ≡ slice_set self.old tenant (slice_index self.old tenant + bytes) }
    {
        self.by_tenant[tenant as usize] += bytes;
    }

    /// Charges a tenant for so many bytes less.
    pub fn lower(&mut self, tenant: u8, bytes: u64)
        requires tenant { tenant < TENANTS }
        requires left { bytes ≤ slice_index self.old tenant }
        ensures { self.new ≡ slice_set self.old tenant (slice_index self.old tenant - bytes) }
    {
        self.by_tenant[tenant as usize] -= bytes;
    }
}

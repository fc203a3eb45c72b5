//! Policies: workers, tenants with their limits, arenas with their segments, and the rights of each
//! tenant on the blocks of each. A policy is sound. hg_policy_text reads one from a document.
#![tactic(auto)]

mod copied;
mod granted;
mod policy;
mod rights;
mod tenant_set;

pub use granted::{Held, Refusal, Standing, Standings};
pub use policy::Policy;
pub use rights::Rights;
pub use tenant_set::TenantSet;

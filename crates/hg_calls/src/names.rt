use hg_place::Actor;
use hg_policy::Policy;
use std::alloc::{AllocError, Global};

/// What stands in a log for a tenant or an arena that the policy lacks. No policy of a log may give
/// this name.
const NOBODY: &str = "nobody";

/// The names of a policy's tenants and arenas, by number.
#[derive(Drop)]
pub struct Names {
    tenants: Vec<String>,
    arenas: Vec<String>,
}

impl Names {
    /// The names that a policy gives. The one error is want of memory.
    pub fn of(alloc: Global, policy: &Policy) -> Result<Names, AllocError> {
        let mut tenants = Vec::new(alloc);
        for number in 0..policy.tenants() {
            let name = policy.tenant_name(number).unwrap_or(NOBODY);
            tenants.push(String::from_str(alloc, name)?)?;
        }
        let mut arenas = Vec::new(alloc);
        for number in 0..policy.arenas() {
            let name = policy.arena_name(number).unwrap_or(NOBODY);
            arenas.push(String::from_str(alloc, name)?)?;
        }
        Ok(Names { tenants, arenas })
    }

    /// The name of who asks.
    pub fn actor(&self, actor: Actor) -> &str {
        match self.tenants.get(usize::from(actor.0)) {
            Some(name) => name.as_str(),
            None => NOBODY,
        }
    }

    /// The name of an arena.
    pub fn arena(&self, number: u8) -> &str {
        match self.arenas.get(usize::from(number)) {
            Some(name) => name.as_str(),
            None => NOBODY,
        }
    }
}

ghost use Rattle.std.specs.Prelude.{◌<◌};

use crate::asked::Request;
use hg_policy::Policy;

/// How many events a worker makes before it waits for the others, where calls are kept.
const SHORT: u64 = 4;

/// The same where they are only counted.
const LONG: u64 = 1024;

/// Places of the shelf where calls are kept, and where they are only counted.
const FEW: usize = 8;

const MANY: usize = 64;

/// What a run is to be.
#[derive(Clone, Copy)]
pub struct Plan {
    pub seed: u64,
    /// Of the policy's, the first so many.
    pub workers: u8,
    /// Of each worker.
    pub events: u64,
    /// How many calls of each worker are kept: all, or none.
    pub kept: usize,
    /// How many events a worker makes before it waits for the others.
    pub round: u64,
    /// How many places the shelf has, where handles lie that any worker may pick up.
    pub places: usize,
    pub tenants: u8,
    pub arenas: u8,
    pub segments: u8,
    ghost some: { 0 < round },
    ghost shelf: { 0 < places },
}

impl Plan {
    /// What a request comes to under a policy.
    pub fn of(policy: &Policy, request: &Request) -> Plan {
        let is_counting = request.is_counting;
        Plan {
            seed: request.seed,
            workers: request.workers,
            events: request.events,
            kept: if is_counting {
                0
            } else {
                request.events as usize
            },
            round: if is_counting { LONG } else { SHORT },
            places: if is_counting { MANY } else { FEW },
            tenants: policy.tenants(),
            arenas: policy.arenas(),
            segments: policy.segments(),
        }
    }
}

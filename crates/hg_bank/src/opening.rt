//! What a bank opens with.

ghost use Rattle.std.specs.Prelude.{◌≡◌, ◌≤◌, [], ◌∷◌, IfOk, replicate, vec_capacity};
ghost use Rattle.hg_core.specs.Opening.{opened};
ghost use Rattle.hg_bank.specs.Opening.{IsOpenCore};

use crate::bank::{ARENAS, TENANTS};
use hg_core::Core;
use hg_policy::Policy;
use std::alloc::{AllocError, Global};

/// For each worker the first core as the current one of each arena.
pub(crate) fn no_currents(alloc: Global, workers: u8) -> Result<Vec<[u16; ARENAS]>, AllocError>
    ensures { IfOk result (λ rows. rows.items ≡ replicate workers (replicate ARENAS 0)) }
{
    let mut rows = Vec::with_capacity(alloc, usize::from(workers))?;
    for _ in 0..workers {
        rows.push_reserved([0; ARENAS]);
    }
    Ok(rows)
}

/// For each worker nothing for each tenant.
pub(crate) fn no_sums(alloc: Global, workers: u8) -> Result<Vec<[u64; TENANTS]>, AllocError>
    ensures { IfOk result (λ rows. rows.items ≡ replicate workers (replicate TENANTS 0)) }
{
    let mut rows = Vec::with_capacity(alloc, usize::from(workers))?;
    for _ in 0..workers {
        rows.push_reserved([0; TENANTS]);
    }
    Ok(rows)
}

/// One core, in room for so many.
pub(crate) fn first_core(alloc: Global, policy: &Policy, room: u16) -> Result<Vec<Core>, AllocError>
    requires { 1 ≤ room }
    ensures one { IfOk result (λ cores. cores.items ≡ opened policy.now ∷ []) }
    ensures room { IfOk result (λ cores. vec_capacity cores ≡ room) }
    ensures kept { IfOk result (λ cores. IsOpenCore policy.now) }
{
    let mut cores = Vec::with_capacity(alloc, usize::from(room))?;
    let core = Core::open(alloc, policy.copy(alloc)?)?;
    cores.push_reserved(core);
    Ok(cores)
}

//! What names mean under a policy, looked up once each.

ghost use Rattle.std.specs.Prelude.{◌≡◌, IfOk};
ghost use Rattle.hg_labels.specs.Indexes.{texts};
ghost use Rattle.hg_replay.specs.KnownNames.{meant_of, meanings};

use hg_policy::Policy;
use std::alloc::{AllocError, Global};

/// The number of a name that the policy lacks.
pub(crate) const NOBODY: u8 = 255;

/// The numbers of a name among a policy's tenants and among its arenas, 255 where it is none's.
#[derive(Clone, Copy)]
pub struct Meant {
    pub tenant: u8,
    pub arena: u8,
}

fn meant_of(policy: &Policy, name: &str) -> Meant
    ensures { result ≡ meant_of policy.now name.now }
{
    Meant {
        tenant: policy.tenant(name).unwrap_or(NOBODY),
        arena: policy.arena(name).unwrap_or(NOBODY),
    }
}

/// What names mean under a policy, each at its number. The policy's own look-up hashes a name, so
/// lines that name it again don't ask for it.
pub(crate) fn look_up(
    alloc: Global,
    policy: &Policy,
    names: &[&str],
) -> Result<Vec<Meant>, AllocError>
    ensures { IfOk result (λ meant. meant.items ≡ meanings policy.now (texts names.now)) }
{
    let mut meant = Vec::with_capacity(alloc, names.len())?;
    for name in names {
        meant.push_reserved(meant_of(policy, name));
    }
    Ok(meant)
}

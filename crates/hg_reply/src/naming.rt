//! Which number goes by a name in a policy, and which name by a number.

ghost use Rattle.std.specs.Prelude.{◌≡◌};
ghost use Rattle.hg_policy.specs.Names.{tenant_name};
ghost use Rattle.hg_reply.specs.Naming.{IsNamed, named, number_of, unnamed};

use crate::reply::Reply;
use crate::status::{NO_NAME, VALUE};
use crate::telling::tell;
use hg_policy::Policy;

/// The number of nobody and of nothing. A call is refused with it, so that a host which doesn't
/// look at the status of a look-up that failed acts in no tenant's name.
pub const NOBODY: u64 = 255;

/// A name of a policy.
#[derive(Clone, Copy)]
pub enum Name<'a> {
    Tenant(&'a str),
    Arena(&'a str),
}

fn number_of(policy: &Policy, name: Name<'_>) -> Option<u8>
    ensures { result ≡ number_of name.entry policy.now }
{
    match name {
        Name::Tenant(name) => policy.tenant(name),
        Name::Arena(name) => policy.arena(name),
    }
}

fn named(number: Option<u8>) -> Reply
    ensures { result ≡ named number }
{
    match number {
        Some(number) => Reply::valued(VALUE, u64::from(number)),
        None => unnamed(),
    }
}

/// Nothing has the name.
pub fn unnamed() -> Reply
    ensures { result ≡ unnamed }
{
    Reply::valued(NO_NAME, NOBODY)
}

/// Finds the number of a name.
pub fn find_number(policy: &Policy, name: Name<'_>) -> Reply
    ensures { result ≡ named (number_of name.entry policy.now) }
{
    named(number_of(policy, name))
}

/// Finds the name of a tenant. The value is how many bytes of it stand in the room.
pub fn tell_name(policy: &Policy, tenant: u8, room: &mut [u8]) -> Reply
    ensures { IsNamed (tenant_name policy.now tenant) room.old result room.new }
{
    match policy.tenant_name(tenant) {
        Some(name) => Reply::valued(VALUE, tell(name.as_bytes(), room) as u64),
        None => Reply::plain(NO_NAME),
    }
}

//! Which number goes by a name, and which name by a number.

ghost use Rattle.std.specs.Prelude.{◌≡◌};
ghost use Rattle.hg_ffi.specs.Naming.{Finds, TellsName};
ghost use Rattle.hg_reply.specs.Naming.{number_of};

use crate::lent_core::LentCore;
use hg_reply::status::CLOSED;
use hg_reply::{NOBODY, Name, Reply, tell_name};

/// Finds the number of a name.
pub fn find_number(host: &LentCore, name: Name<'_>) -> Reply
    ensures { Finds host.now (λ core. number_of name.entry core.state.policy) result }
{
    match host.core() {
        Some(core) => hg_reply::find_number(core.policy(), name),
        None => Reply::valued(CLOSED, NOBODY),
    }
}

/// Finds the name of a tenant.
pub fn find_name(host: &LentCore, tenant: u8, room: &mut [u8]) -> Reply
    ensures { TellsName host.now tenant room.old result room.new }
{
    match host.core() {
        Some(core) => tell_name(core.policy(), tenant, room),
        None => Reply::plain(CLOSED),
    }
}

//! Calls of the first worker.

ghost use Rattle.std.specs.Prelude.{◌<◌, ◌≤◌, IsTrue};

use hg_bank::{Bank, BankHandle, BankSegment};
use hg_core::{NoSegment, Refused};
use hg_place::Actor;
use hg_policy_text::{PolicyFault, read_policy};
use std::alloc::Global;
use std::process::Abort;

/// Two workers, and one segment for two tenants and one for alice, in each core.
const SMALL: &str = r#"version = 1
workers = 2
tenant = [ {name = "alice", limit = 4096}, {name = "bob", limit = 64} ]
arena = [ {name = "main", segments = 1}, {name = "vault", segments = 1, exclusive = ["alice"]} ]
grant = [ {owner = "alice", to = "bob", rights = ["read", "free"]} ]
"#;

pub const ALICE: Actor = Actor(0);

pub const BOB: Actor = Actor(1);

/// The worker, and the arena for both tenants.
const FIRST: u8 = 0;

const MAIN: u8 = 0;

/// A bank with room for so many cores.
pub fn opened(alloc: Global, room: u16) -> Result<Bank, PolicyFault>
    requires some { 1 ≤ room }
    requires most { room ≤ 16384 }
{
    let policy = read_policy(alloc, SMALL.as_bytes())?;
    Ok(Bank::open(alloc, policy, room)?)
}

/// Whether the policy has a worker.
fn has_worker(bank: &Bank) -> bool
    ensures { IsTrue result → 0 < bank.now.policy.workers }
{
    FIRST < bank.policy().workers()
}

pub fn alloc(
    rt: &impl Abort,
    bank: &mut Bank,
    actor: Actor,
    bytes: u64,
) -> Result<BankHandle, Refused> {
    assert!(rt; has_worker(bank));
    bank.alloc(FIRST, actor, MAIN, bytes)
}

pub fn refill(rt: &impl Abort, bank: &mut Bank) -> Result<BankSegment, NoSegment> {
    assert!(rt; has_worker(bank));
    bank.refill(FIRST, MAIN)
}

pub fn write(rt: &impl Abort, bank: &mut Bank, block: BankHandle, value: u64) -> bool {
    assert!(rt; has_worker(bank));
    bank.write(FIRST, ALICE, block, 0, value).is_ok()
}

pub fn read(rt: &impl Abort, bank: &mut Bank, block: BankHandle) -> Result<u64, Refused> {
    assert!(rt; has_worker(bank));
    bank.read(FIRST, ALICE, block, 0)
}

/// Opens one more core, where there is room for it.
pub fn grow(rt: &impl Abort, bank: &mut Bank, alloc: Global) -> Option<u16> {
    assert!(rt; !bank.is_full());
    bank.grow(alloc).ok()
}

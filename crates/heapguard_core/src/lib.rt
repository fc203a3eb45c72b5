//! heapguard for a host in Rattle: what its calls take and tell, under one name. A host's line of
//! crates.txt is `host: heapguard_core`, and its clauses and proofs name the definitions as
//! `Rattle.heapguard_core.specs.Steps` and so on.
//!
//! A core is opened by a policy, and serves one event a call:
//!
//! ```rust
//! let policy = read_policy(alloc, text)?;
//! let mut core = Core::open(alloc, policy)?;
//! core.refill(0, 0)?;
//! let block = core.alloc(0, alice, 0, 24)?;
//! core.write(0, alice, block, 2, 42)?;
//! ```
//!
//! Each call is proved to be a step of the written machine, by the event of its name, and wants a
//! worker that the policy has: `worker < core.policy().workers()`. A `Bank` is many cores under one
//! policy, with a call for each of a core's.
#![tactic(auto)]

pub use hg_bank::{Bank, BankHandle, BankParts, BankSegment, MAX_CORES, laws as bank_laws};
pub use hg_core::{
    AuditFault, AuditRoom, Core, Freed, HowFar, NoSegment, NotFreed, NotHeld, NothingInHand, Parts,
    PlaceKind, PlaceLife, PlaceRecord, Refused,
};
pub use hg_machine::{Answer, Event, Row, Rule, laws};
pub use hg_place::{Actor, Handle, NotAHandle, Place, Right};
pub use hg_policy::Policy;
pub use hg_policy_text::{Counted, Key, PolicyFault, read_policy};
pub use hg_size::Class;

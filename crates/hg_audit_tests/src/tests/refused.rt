//! Audits where memory may be refused.

use crate::tests::policies::TWO_WORKERS;
use hg_core::{AuditFault, AuditRoom, Core};
use hg_policy_text::read_policy;
use std::alloc::Global;
use std::process::Abort;

/// A core that just opened, where there is memory for it.
fn opened(alloc: Global) -> Option<Core> {
    let policy = read_policy(alloc, TWO_WORKERS.as_bytes()).ok()?;
    Core::open(alloc, policy).ok()
}

/// The core that an audit makes of a core's parts, unless it says that it has no memory.
fn audited(rt: &impl Abort, alloc: Global, core: Core) -> Option<Core> {
    match Core::audit(alloc, core.into_parts()) {
        Ok(core) => Some(core),
        Err((parts, fault)) => {
            drop(parts);
            assert!(rt; fault == AuditFault::Memory);
            None
        }
    }
}

/// Whether an audit in room that was made before makes a core, unless there is no memory for that
/// room.
fn is_made_in_room(alloc: Global, core: Core) -> bool {
    let parts = core.into_parts();
    let Ok(room) = AuditRoom::new(alloc, &parts.policy) else {
        drop(parts);
        return true;
    };
    match Core::audit_in(room, parts) {
        Ok(core) => {
            drop(core);
            true
        }
        Err(refused) => {
            drop(refused);
            false
        }
    }
}

// A core is made of a core's parts, or memory was refused; and where there is memory for the room of
// an audit, the audit asks for none: for a run in which requests are refused in turn.
#[test]
fn audit_refused_in_turn(rt: HostRuntime) {
    let alloc = rt.alloc();
    if let Some(core) = opened(alloc) {
        if let Some(core) = audited(&rt, alloc, core) {
            assert!(&rt; is_made_in_room(alloc, core));
        }
    }
}

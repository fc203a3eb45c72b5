ghost use Rattle.std.specs.Prelude.{◌≡◌, IfOk, IfErr, length, replicate};
ghost use Rattle.hg_remote.specs.Remote.{nothing_sent};
ghost use Rattle.hg_agreement.specs.Parts.{kept_of};
ghost use Rattle.hg_audit.specs.Handed.{parts_in};
ghost use Rattle.hg_close.specs.Rooms.{IsUnfilled, IsFilled};
ghost use Rattle.hg_close.specs.Closed.{IsQuiet, IsPlace, AreLost};
ghost use Rattle.hg_audit.specs.declared.faults.AuditFault.TheVariants as AuditFault;

use crate::opening::{no_heaps, unsent_lists, unused_words};
use hg_audit::laws::left_parts_are_in_order;
use hg_audit::{AuditFault, AuditRoom, Parts};
use hg_core::Core;
use hg_place::{Place, PlainWords, filled};
use hg_policy::Policy;
use hg_pool::Pool;
use std::alloc::{AllocError, Global};

/// All that closing a service asks for, so that nothing is asked for once the service is given up:
/// the parts of a core into which the service's lists and segments come.
#[derive(Drop)]
pub struct CloseRoom {
    pub(crate) parts: Parts,
    /// By number, slot words for a segment that hasn't come yet.
    pub(crate) words: Vec<Option<PlainWords>>,
    pub(crate) audit: AuditRoom,
}

impl CloseRoom {
    /// Room for a service of this policy. An error is want of memory.
    pub fn new(alloc: Global, policy: &Policy) -> Result<CloseRoom, AllocError>
        ensures policy { IfOk result (λ room. room.parts.policy ≡ policy.now) }
        ensures room { IfOk result IsUnfilled }
        ensures lists { IfOk result (λ room. room.parts.remotes.items
            ≡ replicate (length policy.now.segments) nothing_sent) }
    {
        let workers = policy.workers();
        let segments = policy.segments();
        let parts = Parts {
            policy: policy.copy(alloc)?,
            heaps: no_heaps(alloc, workers)?,
            remotes: unsent_lists(alloc, segments)?,
            pool: Pool::new(alloc)?,
            hands: filled(alloc, None, usize::from(workers))?.into_vec(),
        };
        let words = unused_words(alloc, segments)?;
        let audit = AuditRoom::new(alloc, policy)?;
        Ok(CloseRoom {
            parts,
            words,
            audit,
        })
    }

    /// The core of what has come, in which nobody holds a segment and each hand is empty; or the
    /// lowest place that isn't accounted for, with the parts. It takes no memory.
    pub fn into_core(self) -> Result<Core, (Place, Parts)>
        requires { IsFilled self }
        ensures core { IfOk result (λ core. core ≡ kept_of (parts_in self.parts)) }
        ensures quiet { IfOk result (IsQuiet self.parts.policy) }
        ensures lost { IfErr result (λ lost. AreLost self.parts.policy lost.0 lost.1) }
        ensures unchanged { IfErr result (λ lost. lost.1 ≡ self.parts) }
    {
        let CloseRoom {
            parts,
            words: _,
            audit,
        } = self;
        left_parts_are_in_order();
        match Core::audit_in(audit, parts) {
            Ok(core) => Ok(core),
            Err((parts, fault)) => Err((lost_place(fault), parts)),
        }
    }
}

/// The place that an audit found.
fn lost_place(fault: AuditFault) -> Place
    requires { IsPlace fault }
    ensures { fault ≡ AuditFault.Place result }
{
    match fault {
        AuditFault::Place(place) => place,
        _ => unreachable!(),
    }
}

//! A service of a policy's text.

ghost use Rattle.std.specs.Prelude.{MatchResult};
ghost use Rattle.hg_policy_text.specs.Document.{document_of};
ghost use Rattle.hg_policy_text.specs.Faults.{FailsAs, fault_of};
ghost use Rattle.hg_service_replies.specs.Opening.{IsOpening};

use crate::part::{HostedPart, OpenService, Ungiven};
use hg_hosted::HostedService;
use hg_policy_text::{PolicyFault, read_policy};
use std::alloc::Global;

/// The service of the policy that a text is, with all of its workers. It takes all the memory that
/// it will ever have; where some is refused, nothing is left of it.
pub fn open(alloc: Global, text: &[u8]) -> Result<HostedPart, PolicyFault>
    ensures { MatchResult result (IsOpening text.now)
        (λ fault. FailsAs (fault_of fault) (document_of text.now)) }
{
    let policy = read_policy(alloc, text)?;
    let (service, workers) = HostedService::open(alloc, policy)?;
    let workers = workers
        .into_iter()
        .map(|worker| Some(Ungiven::Ready(worker)))
        .collect(alloc)?;
    Ok(HostedPart::Service(OpenService { service, workers }))
}

//! A bank of services of a policy's text.

ghost use Rattle.std.specs.Prelude.{◌≡◌, ◌≤◌, MatchResult};
ghost use Rattle.hg_bank.specs.declared.bank.TheConstants.{MAX_CORES};
ghost use Rattle.hg_policy_text.specs.Document.{document_of};
ghost use Rattle.hg_policy_text.specs.Faults.{FailsAs, fault_of};
ghost use Rattle.hg_bank_service_replies.specs.Opening.{IsOpening};

use crate::part::{BankPart, OpenBank, Ungiven};
use hg_bank_service::BankService;
use hg_policy_text::{PolicyFault, read_policy};
use std::alloc::Global;

/// The bank of services of the policy that a text is, with so many cores, 1 to 16,384, and all of its
/// workers. It takes all the memory that it will ever have; where some is refused, nothing is left of
/// it.
pub fn open(alloc: Global, text: &[u8], cores: u16) -> Result<BankPart, PolicyFault>
    requires some { 1 ≤ cores }
    requires most { cores ≤ MAX_CORES }
    ensures { MatchResult result (IsOpening text.now cores)
        (λ fault. FailsAs (fault_of fault) (document_of text.now)) }
{
    let policy = read_policy(alloc, text)?;
    let (service, workers) = BankService::open(alloc, policy, cores)?;
    let workers = workers
        .into_iter()
        .map(|worker| Some(Ungiven::Ready(worker)))
        .collect(alloc)?;
    Ok(BankPart::Service(OpenBank { service, workers }))
}

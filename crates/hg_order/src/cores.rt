//! The core that a search serves its calls on.

use crate::choice::Tried;
use crate::seen::is_lost;
use crate::step::Step;
use hg_core::Core;
use hg_machine::Answer;
use hg_policy::Policy;
use std::alloc::{AllocError, Global};

/// A core that a policy opens.
pub(crate) fn opened(alloc: Global, policy: &Policy) -> Result<Core, AllocError> {
    let copy = policy.copy(alloc)?;
    Core::open(alloc, copy)
}

/// What a core answers to a call; `None` where it has no such worker.
pub(crate) fn answered(core: &mut Core, step: &Step) -> Option<Answer> {
    if step.call.worker >= core.policy().workers() {
        return None;
    }
    Some(core.step(step.call.worker, step.call.event))
}

/// What became of a call that a core gives another answer.
pub(crate) fn missed(step: &Step, given: Answer) -> Tried {
    if is_lost(step.call.event, step.call.answer, given) {
        return Tried::Lost;
    }
    Tried::Differed
}

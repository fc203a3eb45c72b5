//! Rights by owner and actor.

ghost use Rattle.std.specs.Prelude.{◌≡◌};
ghost use Rattle.hg_machine.specs.Policy.{has_right};
ghost use Rattle.hg_policy.specs.Rights.{rights_of, IsWithout};
ghost use Rattle.hg_policy.specs.Refusals.{refused};

use crate::rights::Rights;
use hg_place::Right;

/// Why an actor may not do what it asks for on an owner's blocks.
#[derive(Clone, Copy, Debug, PartialEq, Eq)]
pub enum Refusal {
    /// A line of the policy denies it.
    Forbidden,
    /// No line of the policy grants it.
    NotGranted,
}

/// Rights on the blocks of one owner, by actor.
pub type Held = [Rights; 64];

/// How one actor stands to the blocks of one owner.
#[derive(Clone, Copy)]
pub struct Standing {
    /// What it is granted, whatever is forbidden.
    pub granted: Rights,
    pub forbidden: Rights,
    /// What is granted and not forbidden, so that a verdict that allows tests one set.
    allowed: Rights,
    ghost allowed_is: { IsWithout granted forbidden allowed },
}

impl Standing {
    /// How an actor stands that is granted the one and forbidden the other.
    pub fn new(granted: Rights, forbidden: Rights) -> Standing
        ensures granted { result.granted ≡ granted }
        ensures forbidden { result.forbidden ≡ forbidden }
    {
        let allowed = granted.without(forbidden);
        Standing {
            granted,
            forbidden,
            allowed,
        }
    }

    /// Why the actor may not do what needs a right, if so. What may be done is found first.
    pub(crate) fn refusal(&self, right: Right) -> Option<Refusal>
        ensures { result ≡ refused (has_right (rights_of self.now.forbidden) right)
            (has_right (rights_of self.now.granted) right) }
    {
        if self.allowed.has(right) {
            return None;
        }
        if self.forbidden.has(right) {
            return Some(Refusal::Forbidden);
        }
        Some(Refusal::NotGranted)
    }
}

/// How actors stand to the blocks of one owner, by actor.
pub type Standings = [Standing; 64];

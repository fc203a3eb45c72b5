//! A bank of services: what there is of it beside its workers.

ghost use Rattle.std.specs.Prelude.{◌≡◌, ◌+◌, length};
ghost use Rattle.hg_bank_service.specs.Sound.{AreSoundServices};

use hg_core::Core;
use hg_hosted::HostedService;
use hg_policy::Policy;
use std::marker::Model;

/// Many services under one policy, beside their workers. They close from the highest number down;
/// what is closed is kept as a core.
#[derive(Drop)]
pub struct BankService {
    pub(crate) policy: Policy,
    /// The cores of the services that are closed, from the highest number down; from the opening on
    /// there is room for all.
    pub(crate) closed: Vec<Core>,
    /// The others, by number.
    pub(crate) running: Vec<HostedService>,
}

impl Model for BankService {
    ghost use Rattle.hg_bank_service.specs.State.{ServicesState};

    ghost Value = { ServicesState };

    ghost use Rattle.hg_bank_service.specs.Kept.{services_of, IsKept};

    ghost view = { services_of };

    ghost invariant = { IsKept };
}

impl BankService {
    /// The policy that all its services serve by.
    pub fn policy(&self) -> &Policy
        ensures value { result.now ≡ self.now.policy }
        ensures kept { AreSoundServices self.now }
    {
        &self.policy
    }

    /// How many cores there are, 1 to 16,384, of services that run or are closed.
    pub fn cores(&self) -> u16
        ensures cores { result ≡ length self.now.closed + length self.now.running }
        ensures kept { AreSoundServices self.now }
    {
        (self.closed.len() + self.running.len()) as u16
    }

    /// How many services run: those of the lowest numbers.
    pub fn running(&self) -> u16
        ensures { result ≡ length self.now.running }
    {
        self.running.len() as u16
    }
}

//! A bank of services becomes a bank.

ghost use Rattle.std.specs.Prelude.{◌≡◌, ◌+◌, ◌<◌, ◌≤◌, IfOk, IfErr, length, vec_capacity};
ghost use Rattle.hg_bank.specs.Sound.{IsSoundBank};
ghost use Rattle.hg_bank_service.specs.Closing.{IsClosedBank, IsUnclosedBank, ClosesOne};

use crate::service::BankService;
use hg_audit::Parts;
use hg_bank::{Bank, BankParts};
use hg_close::CloseFault;
use hg_core::Core;
use hg_hosted::{HostedService, HostedUnclosed};
use hg_place::Place;
use hg_policy::Policy;
use std::alloc::Global;

/// A bank of services that didn't close.
#[derive(Drop)]
pub enum BankUnclosed {
    /// It goes on with the services that aren't closed, of which this one, that of the highest
    /// number, can't close, for this reason. Those above it are closed, and kept as cores.
    Running(BankService, u16, CloseFault),
    /// All services are closed, and kept as cores. Memory was refused for what a bank keeps of them.
    Memory(BankService),
    /// A service was given up.
    Lost(LostCore),
}

/// A service that was given up, since a place isn't accounted for, and all that there is beside it.
#[derive(Drop)]
pub struct LostCore {
    /// The service's number.
    pub core: u16,
    /// The lowest place that isn't accounted for, and the parts of a core that was to be made of the
    /// service.
    pub place: Place,
    pub parts: Parts,
    /// The policy.
    pub policy: Policy,
    /// By number, the services below it.
    pub running: Vec<HostedService>,
    /// The cores of those above it, which are closed, from the highest number down.
    pub closed: Vec<Core>,
}

impl BankService {
    /// The services become cores, from the highest number down, and these a bank, which has room for
    /// them and no more: for a host that stops its threads and goes on in one. In it nobody holds a
    /// segment and each hand is empty. That it has what was parked, so that the blocks live on, no
    /// clause says.
    ///
    /// Where one can't close, it stops there, and what is closed stays so: close it again once the
    /// reason is gone. `StillOut` names a worker that hasn't left that service.
    pub fn close(self, alloc: Global) -> Result<Bank, BankUnclosed>
        ensures bank { IfOk result (IsClosedBank self) }
        ensures kept { IfOk result IsSoundBank }
        ensures unclosed { IfErr result (IsUnclosedBank self) }
    {
        let mut service = self;
        for _ in 0..service.running() {
            service = service.close_next(alloc)?;
        }
        service.into_bank(alloc)
    }

    /// The service of the highest number that runs becomes a core.
    fn close_next(self, alloc: Global) -> Result<BankService, BankUnclosed>
        requires { 1 ≤ length self.running }
        ensures next { IfOk result (ClosesOne self) }
        ensures unclosed { IfErr result (IsUnclosedBank self) }
    {
        let BankService {
            policy,
            mut closed,
            mut running,
        } = self;
        let Some(last) = running.pop() else {
            unreachable!()
        };
        let core = running.len() as u16;
        match last.close(alloc) {
            Ok(made) => {
                closed.push_reserved(made);
                Ok(BankService {
                    policy,
                    closed,
                    running,
                })
            }
            Err(HostedUnclosed::Running(back, why)) => {
                running.push_reserved(back);
                let service = BankService {
                    policy,
                    closed,
                    running,
                };
                Err(BankUnclosed::Running(service, core, why))
            }
            Err(HostedUnclosed::Lost(place, parts)) => Err(BankUnclosed::Lost(LostCore {
                core,
                place,
                parts,
                policy,
                running,
                closed,
            })),
        }
    }

    /// The bank of the cores, once each service is closed.
    fn into_bank(self, alloc: Global) -> Result<Bank, BankUnclosed>
        requires { length self.running ≡ 0 }
        ensures bank { IfOk result (IsClosedBank self) }
        ensures kept { IfOk result IsSoundBank }
        ensures unclosed { IfErr result (IsUnclosedBank self) }
    {
        let BankService {
            policy,
            mut closed,
            running,
        } = self;
        closed.reverse();
        let parts = BankParts {
            policy,
            room: closed.len() as u16,
            cores: closed,
        };
        match Bank::from_parts(alloc, parts) {
            Ok(bank) => Ok(bank),
            Err(parts) => {
                let BankParts {
                    policy,
                    room: _,
                    cores: mut closed,
                } = parts;
                closed.reverse();
                let service = BankService {
                    policy,
                    closed,
                    running,
                };
                Err(BankUnclosed::Memory(service))
            }
        }
    }
}

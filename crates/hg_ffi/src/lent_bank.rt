//! A bank as its host lends it to a question.

ghost use Rattle.std.specs.Prelude.{◌≡◌, ◌≢◌, ℕ, List, MatchOption};
ghost use Rattle.hg_bank.specs.State.{BankState};
ghost use Rattle.hg_bank.specs.contracts.bank.Bank.{the_row};
ghost use Rattle.hg_ffi.specs.Owning.{bank_mark};

use crate::host_bank::BANK_OPEN;
use hg_bank::Bank;
use std::marker::{Model, Send, Sync};

/// A bank as its host lends it to a question: the 16 bytes of a `HostBank`, and with the open mark
/// the right to read the bank behind them. That right can be had any number of times, so that
/// several may ask at once, and gives none to write.
#[repr(C)]
#[derive(Drop)]
pub struct LentBank {
    at: *mut u8,
    mark: u64,
    ghost bank: { BankState } by { the_row.coded },
    ghost life: { List ℕ },
}

impl Model for LentBank {
    ghost use Rattle.hg_bank.specs.contracts.bank.Bank.{the_row};
    ghost use Rattle.hg_ffi.specs.Owning.{lent_if_bank};

    ghost also_owns = { λ host. lent_if_bank the_row host.mark host.at host.bank host.life };
}

// It shows plain data.
unsafe impl Send for LentBank {}

// So threads may ask at once.
unsafe impl Sync for LentBank {}

impl LentBank {
    /// The mark.
    fn mark(&self) -> u64
        ensures { result ≡ self.now.mark }
    {
        self.mark
    }

    /// The bank of an open one.
    fn opened(&self) -> &Bank
        requires { self.now.mark ≡ bank_mark }
        ensures { result.now ≡ self.now.bank }
    {
        unsafe { &*(self.at as *mut Bank) }
    }

    /// The bank, if it is open.
    pub fn bank(&self) -> Option<&Bank>
        ensures { MatchOption result (self.now.mark ≢ bank_mark)
            (λ bank. (self.now.mark ≡ bank_mark) × (bank.now ≡ self.now.bank)) }
    {
        if self.mark() == BANK_OPEN {
            Some(self.opened())
        } else {
            None
        }
    }
}

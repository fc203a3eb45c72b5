//! A bank as its host keeps it.

ghost use Rattle.std.specs.Prelude.{◌≡◌, ◌≢◌, MatchResult};
ghost use Rattle.hg_bank.specs.State.{BankState};
ghost use Rattle.hg_bank.specs.contracts.bank.Bank.{the_row};
ghost use Rattle.hg_ffi.specs.Owning.{bank_mark};

use crate::box_pointer::BoxPointer;
use hg_bank::Bank;
use std::alloc::Global;
use std::marker::{Model, Send};

/// A bank as its host keeps it: 16 bytes of the host's, a pointer that only this crate follows and
/// a mark of whether it is open. One with any other mark, as one of zeros, is closed and owns
/// nothing.
#[repr(C)]
#[derive(Drop)]
pub struct HostBank {
    at: *mut u8,
    mark: u64,
    ghost bank: { BankState } by { the_row.coded },
}

impl Model for HostBank {
    ghost use Rattle.hg_bank.specs.contracts.bank.Bank.{the_row};
    ghost use Rattle.hg_ffi.specs.Owning.{owns_if_bank};

    ghost also_owns = { λ host. owns_if_bank the_row host.mark host.at host.bank };
}

// A bank is plain data, in memory that any thread may free.
unsafe impl Send for HostBank {}

pub const BANK_OPEN: u64 = 3_552_018_773_301_872_456;

impl HostBank {
    /// An open one, of the pointer of a bank.
    fn of_pointer(bank: BoxPointer<Bank, Global>) -> HostBank
        ensures { (result.mark ≡ bank_mark) × (result.bank ≡ bank.value) }
    {
        let BoxPointer { at, alloc: _ } = bank;
        HostBank {
            at: at as *mut u8,
            mark: BANK_OPEN,
        }
    }

    /// The pointer of the bank of an open one.
    fn into_pointer(self, alloc: Global) -> BoxPointer<Bank, Global>
        requires { self.mark ≡ bank_mark }
        ensures { result.value ≡ self.bank }
    {
        let HostBank { at, mark: _ } = self;
        BoxPointer {
            at: at as *mut Bank,
            alloc,
        }
    }

    /// The mark, and itself again.
    fn with_mark(self) -> (u64, HostBank)
        ensures { (result.0 ≡ self.mark) × (result.1 ≡ self) }
    {
        let HostBank { at, mark } = self;
        (mark, HostBank { at, mark })
    }

    /// A closed one.
    pub fn closed() -> HostBank
        ensures { result.mark ≡ 0 }
    {
        HostBank {
            at: std::ptr::null_mut(),
            mark: 0,
        }
    }

    /// An open one, of this bank.
    pub fn of(bank: Box<Bank, Global>) -> HostBank
        ensures { (result.mark ≡ bank_mark) × (result.bank ≡ bank.value) }
    {
        HostBank::of_pointer(BoxPointer::of(bank))
    }

    /// The bank of an open one, or a closed one again.
    pub fn into_bank(self, alloc: Global) -> Result<Box<Bank, Global>, HostBank>
        ensures { MatchResult result (λ bank. (self.mark ≡ bank_mark) × (bank.value ≡ self.bank))
            (λ closed. (self.mark ≢ bank_mark) × (closed ≡ self)) }
    {
        let (mark, host) = self.with_mark();
        if mark == BANK_OPEN {
            Ok(host.into_pointer(alloc).into_box())
        } else {
            Err(host)
        }
    }
}

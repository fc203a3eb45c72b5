//! A part of a bank of services as its host keeps it.

ghost use Rattle.std.specs.Prelude.{◌≡◌, ◌≢◌, Option, Some, MatchResult};
ghost use Rattle.core.specs.contracts.option.Option.{the_row as option_row};
ghost use Rattle.hg_bank_service_replies.specs.declared.part.BankPart.{BankPart};
ghost use Rattle.hg_bank_service_replies.specs.contracts.part.BankPart.{the_row};
ghost use Rattle.hg_bank_service_ffi.specs.Owning.{bank_part_mark};

use hg_bank_service_replies::BankPart;
use hg_ffi::box_pointer::BoxPointer;
use std::alloc::Global;
use std::marker::{Model, Send};

/// A part of a bank of services as its host keeps it: 16 bytes of the host's, a pointer that only this crate
/// follows and a mark of whether there is one. One with any other mark, as one of zeros, is closed
/// and owns nothing.
#[repr(C)]
#[derive(Drop)]
pub struct HostBankPart {
    at: *mut u8,
    mark: u64,
    ghost part: { Option BankPart } by { (option_row the_row).coded },
}

impl Model for HostBankPart {
    ghost use Rattle.hg_bank_service_replies.specs.contracts.part.BankPart.{the_row};
    ghost use Rattle.hg_bank_service_ffi.specs.Owning.{owns_if_bank_part};

    ghost also_owns = { λ host. owns_if_bank_part the_row host.mark host.at host.part };
}

// What it owns may go to another thread, in memory that any thread may free.
unsafe impl Send for HostBankPart {}

pub const BANK_PART_OPEN: u64 = 3_555_119_473_401_612_104;

impl HostBankPart {
    /// An open one, of the pointer of a part.
    fn of_pointer(part: BoxPointer<BankPart, Global>) -> HostBankPart
        ensures { (result.mark ≡ bank_part_mark) × (result.part ≡ Some part.value) }
    {
        let BoxPointer { at, alloc: _ } = part;
        HostBankPart {
            at: at as *mut u8,
            mark: BANK_PART_OPEN,
        }
    }

    /// The pointer of the part of an open one.
    fn into_pointer(self, alloc: Global) -> BoxPointer<BankPart, Global>
        requires { self.mark ≡ bank_part_mark }
        ensures { self.part ≡ Some result.value }
    {
        let HostBankPart { at, mark: _ } = self;
        BoxPointer {
            at: at as *mut BankPart,
            alloc,
        }
    }

    /// The mark, and itself again.
    fn with_mark(self) -> (u64, HostBankPart)
        ensures { (result.0 ≡ self.mark) × (result.1 ≡ self) }
    {
        let HostBankPart { at, mark } = self;
        (mark, HostBankPart { at, mark })
    }

    /// A closed one.
    pub fn closed() -> HostBankPart
        ensures { result.mark ≡ 0 }
    {
        HostBankPart {
            at: std::ptr::null_mut(),
            mark: 0,
        }
    }

    /// An open one, of this part.
    pub fn of(part: Box<BankPart, Global>) -> HostBankPart
        ensures { (result.mark ≡ bank_part_mark) × (result.part ≡ Some part.value) }
    {
        HostBankPart::of_pointer(BoxPointer::of(part))
    }

    /// The part of an open one, or a closed one again.
    pub fn into_part(self, alloc: Global) -> Result<Box<BankPart, Global>, HostBankPart>
        ensures { MatchResult result (λ part. (self.mark ≡ bank_part_mark) × (self.part ≡ Some part.value))
            (λ closed. (self.mark ≢ bank_part_mark) × (closed ≡ self)) }
    {
        let (mark, host) = self.with_mark();
        if mark == BANK_PART_OPEN {
            Ok(host.into_pointer(alloc).into_box())
        } else {
            Err(host)
        }
    }
}

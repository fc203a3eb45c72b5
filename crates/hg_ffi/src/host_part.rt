//! A part of a service as its host keeps it.

ghost use Rattle.std.specs.Prelude.{◌≡◌, ◌≢◌, Option, Some, MatchResult};
ghost use Rattle.core.specs.contracts.option.Option.{the_row as option_row};
ghost use Rattle.hg_service_replies.specs.declared.part.HostedPart.{HostedPart};
ghost use Rattle.hg_service_replies.specs.contracts.part.HostedPart.{the_row};
ghost use Rattle.hg_ffi.specs.Owning.{part_mark};

use crate::box_pointer::BoxPointer;
use hg_service_replies::HostedPart;
use std::alloc::Global;
use std::marker::{Model, Send};

/// A part of a service as its host keeps it: 16 bytes of the host's, a pointer that only this crate
/// follows and a mark of whether there is one. One with any other mark, as one of zeros, is closed
/// and owns nothing.
#[repr(C)]
#[derive(Drop)]
pub struct HostPart {
    at: *mut u8,
    mark: u64,
    ghost part: { Option HostedPart } by { (option_row the_row).coded },
}

impl Model for HostPart {
    ghost use Rattle.hg_service_replies.specs.contracts.part.HostedPart.{the_row};
    ghost use Rattle.hg_ffi.specs.Owning.{owns_if_part};

    ghost also_owns = { λ host. owns_if_part the_row host.mark host.at host.part };
}

// What it owns may go to another thread, in memory that any thread may free.
unsafe impl Send for HostPart {}

pub const PART_OPEN: u64 = 3_554_556_446_373_660_488;

impl HostPart {
    /// An open one, of the pointer of a part.
    fn of_pointer(part: BoxPointer<HostedPart, Global>) -> HostPart
        ensures { (result.mark ≡ part_mark) × (result.part ≡ Some part.value) }
    {
        let BoxPointer { at, alloc: _ } = part;
        HostPart {
            at: at as *mut u8,
            mark: PART_OPEN,
        }
    }

    /// The pointer of the part of an open one.
    fn into_pointer(self, alloc: Global) -> BoxPointer<HostedPart, Global>
        requires { self.mark ≡ part_mark }
        ensures { self.part ≡ Some result.value }
    {
        let HostPart { at, mark: _ } = self;
        BoxPointer {
            at: at as *mut HostedPart,
            alloc,
        }
    }

    /// The mark, and itself again.
    fn with_mark(self) -> (u64, HostPart)
        ensures { (result.0 ≡ self.mark) × (result.1 ≡ self) }
    {
        let HostPart { at, mark } = self;
        (mark, HostPart { at, mark })
    }

    /// A closed one.
    pub fn closed() -> HostPart
        ensures { result.mark ≡ 0 }
    {
        HostPart {
            at: std::ptr::null_mut(),
            mark: 0,
        }
    }

    /// An open one, of this part.
    pub fn of(part: Box<HostedPart, Global>) -> HostPart
        ensures { (result.mark ≡ part_mark) × (result.part ≡ Some part.value) }
    {
        HostPart::of_pointer(BoxPointer::of(part))
    }

    /// The part of an open one, or a closed one again.
    pub fn into_part(self, alloc: Global) -> Result<Box<HostedPart, Global>, HostPart>
        ensures { MatchResult result (λ part. (self.mark ≡ part_mark) × (self.part ≡ Some part.value))
            (λ closed. (self.mark ≢ part_mark) × (closed ≡ self)) }
    {
        let (mark, host) = self.with_mark();
        if mark == PART_OPEN {
            Ok(host.into_pointer(alloc).into_box())
        } else {
            Err(host)
        }
    }
}

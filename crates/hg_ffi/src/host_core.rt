//! A core as its host keeps it.

ghost use Rattle.std.specs.Prelude.{◌≡◌, ◌≢◌, MatchResult};
ghost use Rattle.hg_machine.specs.Lists.{Kept};
ghost use Rattle.hg_core.specs.contracts.serving.Core.{the_row};
ghost use Rattle.hg_ffi.specs.Owning.{open_mark};

use crate::box_pointer::BoxPointer;
use hg_core::Core;
use std::alloc::Global;
use std::marker::{Model, Send};

/// A core as its host keeps it: 16 bytes of the host's, a pointer that only this crate follows and
/// a mark of whether it is open. One with any other mark, as one of zeros, is closed and owns
/// nothing.
#[repr(C)]
#[derive(Drop)]
pub struct HostCore {
    at: *mut u8,
    mark: u64,
    ghost core: { Kept } by { the_row.coded },
}

impl Model for HostCore {
    ghost use Rattle.hg_core.specs.contracts.serving.Core.{the_row};
    ghost use Rattle.hg_ffi.specs.Owning.{owns_if_open};

    ghost also_owns = { λ host. owns_if_open the_row host.mark host.at host.core };
}

// A core is plain data, in memory that any thread may free.
unsafe impl Send for HostCore {}

pub const OPEN: u64 = 3_550_334_381_634_438_984;

impl HostCore {
    /// An open one, of the pointer of a core.
    fn of_pointer(core: BoxPointer<Core, Global>) -> HostCore
        ensures { (result.mark ≡ open_mark) × (result.core ≡ core.value) }
    {
        let BoxPointer { at, alloc: _ } = core;
        HostCore {
            at: at as *mut u8,
            mark: OPEN,
        }
    }

    /// The pointer of the core of an open one.
    fn into_pointer(self, alloc: Global) -> BoxPointer<Core, Global>
        requires { self.mark ≡ open_mark }
        ensures { result.value ≡ self.core }
    {
        let HostCore { at, mark: _ } = self;
        BoxPointer {
            at: at as *mut Core,
            alloc,
        }
    }

    /// The mark, and itself again.
    fn with_mark(self) -> (u64, HostCore)
        ensures { (result.0 ≡ self.mark) × (result.1 ≡ self) }
    {
        let HostCore { at, mark } = self;
        (mark, HostCore { at, mark })
    }

    /// A closed one.
    pub fn closed() -> HostCore
        ensures { result.mark ≡ 0 }
    {
        HostCore {
            at: std::ptr::null_mut(),
            mark: 0,
        }
    }

    /// An open one, of this core.
    pub fn of(core: Box<Core, Global>) -> HostCore
        ensures { (result.mark ≡ open_mark) × (result.core ≡ core.value) }
    {
        HostCore::of_pointer(BoxPointer::of(core))
    }

    /// The core of an open one, or a closed one again.
    pub fn into_core(self, alloc: Global) -> Result<Box<Core, Global>, HostCore>
        ensures { MatchResult result (λ core. (self.mark ≡ open_mark) × (core.value ≡ self.core))
            (λ closed. (self.mark ≢ open_mark) × (closed ≡ self)) }
    {
        let (mark, host) = self.with_mark();
        if mark == OPEN {
            Ok(host.into_pointer(alloc).into_box())
        } else {
            Err(host)
        }
    }
}

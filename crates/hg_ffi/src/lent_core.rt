//! A core as its host lends it to a question.

ghost use Rattle.std.specs.Prelude.{◌≡◌, ◌≢◌, ℕ, List, MatchOption};
ghost use Rattle.hg_machine.specs.Lists.{Kept};
ghost use Rattle.hg_core.specs.contracts.serving.Core.{the_row};
ghost use Rattle.hg_ffi.specs.Owning.{open_mark};

use crate::host_core::OPEN;
use hg_core::Core;
use std::marker::{Model, Send, Sync};

/// A core as its host lends it to a question: the 16 bytes of a `HostCore`, and with the open mark
/// the right to read the core behind them. That right can be had any number of times, so that
/// several may ask at once, and gives none to write.
#[repr(C)]
#[derive(Drop)]
pub struct LentCore {
    at: *mut u8,
    mark: u64,
    ghost core: { Kept } by { the_row.coded },
    ghost life: { List ℕ },
}

impl Model for LentCore {
    ghost use Rattle.hg_core.specs.contracts.serving.Core.{the_row};
    ghost use Rattle.hg_ffi.specs.Owning.{lent_if_open};

    ghost also_owns = { λ host. lent_if_open the_row host.mark host.at host.core host.life };
}

// It shows plain data.
unsafe impl Send for LentCore {}

// So threads may ask at once.
unsafe impl Sync for LentCore {}

impl LentCore {
    /// The mark.
    fn mark(&self) -> u64
        ensures { result ≡ self.now.mark }
    {
        self.mark
    }

    /// The core of an open one.
    fn opened(&self) -> &Core
        requires { self.now.mark ≡ open_mark }
        ensures { result.now ≡ self.now.core }
    {
        unsafe { &*(self.at as *mut Core) }
    }

    /// The core, if it is open.
    pub fn core(&self) -> Option<&Core>
        ensures { MatchOption result (self.now.mark ≢ open_mark)
            (λ core. (self.now.mark ≡ open_mark) × (core.now ≡ self.now.core)) }
    {
        if self.mark() == OPEN {
            Some(self.opened())
        } else {
            None
        }
    }
}

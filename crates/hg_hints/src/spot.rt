//! Where in a text something stands.

ghost use Rattle.std.specs.Prelude.{◌≡◌, ◌≤◌, ◌<◌, ◌+◌, ◌^◌, ◌++◌, OnOk};
ghost use Rattle.hg_hints.specs.Hints.{refused_text};
ghost use Rattle.hg_hints.specs.Spots.{begins, behind, spot_behind};

use crate::push::{push, push_count};
use std::alloc::AllocError;

/// A place in a text, by its line and its column, both from 1. A column counts characters.
#[derive(Clone, Copy, Debug, PartialEq, Eq)]
pub(crate) struct Spot {
    line: u64,
    column: u64,
}

/// Whether a byte begins a character.
fn begins(b: u8) -> bool
    ensures { result ≡ begins b }
{
    b / 64 != 2
}

impl Spot {
    /// The next place behind a byte.
    fn behind(self, b: u8) -> Spot
        requires line { self.line + 1 < 2 ^ 64 }
        requires column { self.column + 1 < 2 ^ 64 }
        ensures spot { result ≡ behind self b }
        ensures line { result.line ≤ self.line + 1 }
        ensures column { result.column ≤ self.column + 1 }
    {
        if b == b'\n' {
            Spot {
                line: self.line + 1,
                column: 1,
            }
        } else if begins(b) {
            Spot {
                line: self.line,
                column: self.column + 1,
            }
        } else {
            self
        }
    }

    /// The place behind these bytes.
    pub(crate) fn behind_all(text: &[u8]) -> Spot
        ensures { result ≡ spot_behind text.now }
    {
        let mut spot = Spot { line: 1, column: 1 };
        for b in text {
            spot = spot.behind(*b);
        }
        spot
    }

    /// Appends that a text is refused here, and why.
    #[tactic(auto, unfolding(crate::specs::Hints::refused_text))]
    pub(crate) fn push_refused(self, out: &mut Vec<u8>, why: &str) -> Result<(), AllocError>
        ensures { OnOk result (out.new.items ≡ out.old.items ++ refused_text self why.now) }
    {
        push_count(out, "line ", self.line)?;
        push_count(out, ", column ", self.column)?;
        push(out, ": ")?;
        push(out, why)
    }
}

//! Sets of rights.

ghost use Rattle.std.specs.Prelude.{⊤, ◌≡◌, ◌||◌};
ghost use Rattle.hg_place.specs.declared.Right.{Right};
ghost use Rattle.hg_machine.specs.Policy.{has_right, no_rights};
ghost use Rattle.hg_policy.specs.Rights.{rights_of, bit_of, rights_table, all_rights, and_right};
ghost use Rattle.hg_policy.specs.Rights.{IsWithout};

use bitflags::{Flag, Flags, bitflag_items};
use hg_place::Right;

/// A set of rights, one bit for each.
#[derive(Clone, Copy, Debug, PartialEq, Eq)]
pub struct Rights(u8);

bitflag_items! {
    impl Rights: u8 {
        const READ = 1;
        const WRITE = 2;
        const LIST = 4;
        const FREE = 8;
    }
}

impl Flags for Rights {
    type Bits = u8;

    ghost exact = { ⊤ };

    ghost table = { rights_table };

    ghost set_of = { λ rights. rights.0 };

    fn flags<'a>() -> &'a [Flag<Rights>] {
        Rights::FLAGS
    }

    fn bits(&self) -> u8 {
        self.0
    }

    fn from_bits_retain(bits: u8) -> Rights {
        Rights(bits)
    }
}

impl Rights {
    /// The set of one right.
    fn only(right: Right) -> Rights
        ensures { result.0 ≡ bit_of right }
    {
        match right {
            Right::Read => Rights::READ,
            Right::Write => Rights::WRITE,
            Right::List => Rights::LIST,
            Right::Free => Rights::FREE,
        }
    }

    /// No right.
    pub fn none() -> Rights
        ensures { rights_of result ≡ no_rights }
    {
        Rights::empty()
    }

    /// Each right.
    pub fn each() -> Rights
        ensures { rights_of result ≡ all_rights }
    {
        Rights::all()
    }

    /// The set with one right more.
    pub fn with(self, right: Right) -> Rights
        ensures { rights_of result ≡ and_right (rights_of self) right }
    {
        self.union(Rights::only(right))
    }

    /// The rights of both sets.
    pub fn and(self, more: Rights) -> Rights
        ensures { (right : Right) → has_right (rights_of result) right
            ≡ (has_right (rights_of self) right || has_right (rights_of more) right) }
    {
        self.union(more)
    }

    /// The rights of this set that the other lacks.
    pub(crate) fn without(self, less: Rights) -> Rights
        ensures { IsWithout self less result }
    {
        self.difference(less)
    }

    /// Whether the set has a right.
    pub fn has(self, right: Right) -> bool
        ensures { result ≡ has_right (rights_of self) right }
    {
        self.contains(Rights::only(right))
    }
}

//! Why a document is no policy.

ghost use Rattle.std.specs.Prelude.{◌≡◌, Some};
ghost use Rattle.hg_policy_text.specs.declared.fault.PolicyFault.TheVariants.{Memory};
ghost use Rattle.hg_policy_text.specs.FaultLines.{fault_line};

use crate::key::{Counted, Key};
use crate::one_line::OneLine;
use std::alloc::{AllocError, AllocFailed};
use std::fmt;
use thiserror::Error;

/// Why a document is no policy: its first fault, with the key or name whole, as it stands there.
/// As text it is one line, in which control characters and the like are written out.
#[derive(Debug, Drop, Error)]
pub enum PolicyFault {
    NotToml,
    Missing(Key),
    /// The value is of another type, of another form or out of its range.
    Kind(Key),
    Unknown(String),
    /// A name that is taken: of an arena by an earlier arena, else by a tenant or an earlier group.
    Repeated(String),
    /// A text that is no tenant's name, nor a group's where a group may be named.
    NoSuchName(String),
    TooMany(Counted),
    Version,
    /// Want of memory, which is no fault of the document.
    Memory,
}

impl fmt::Display for PolicyFault {
    ghost output = { λ fault. Some (fault_line fault) };

    fn fmt<W: fmt::Write>(&self, f: &mut fmt::Formatter<W>) -> fmt::Result {
        match self {
            PolicyFault::NotToml => write!(f, "policy fault 1: not toml"),
            PolicyFault::Missing(key) => write!(f, "policy fault 2: missing {key}"),
            PolicyFault::Kind(key) => write!(f, "policy fault 3: kind {key}"),
            PolicyFault::Unknown(key) => {
                write!(f, "policy fault 4: unknown {}", OneLine(key.as_str()))
            }
            PolicyFault::Repeated(name) => {
                write!(f, "policy fault 5: repeated {}", OneLine(name.as_str()))
            }
            PolicyFault::NoSuchName(name) => {
                write!(f, "policy fault 6: no such name {}", OneLine(name.as_str()))
            }
            PolicyFault::TooMany(counted) => write!(f, "policy fault 7: too many {counted}"),
            PolicyFault::Version => write!(f, "policy fault 8: version"),
            PolicyFault::Memory => write!(f, "no memory"),
        }
    }
}

impl From<AllocError> for PolicyFault {
    ghost from_gives = { λ _ e. e ≡ Memory };

    fn from(_e: AllocError) -> PolicyFault {
        PolicyFault::Memory
    }
}

impl<T: Drop> From<AllocFailed<T>> for PolicyFault {
    ghost from_gives = { λ _ e. e ≡ Memory };

    fn from(_e: AllocFailed<T>) -> PolicyFault {
        PolicyFault::Memory
    }
}

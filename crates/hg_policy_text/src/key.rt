//! The words of a document.

ghost use Rattle.std.specs.Prelude.{◌≡◌, Some};
ghost use Rattle.hg_policy_text.specs.Keys.{key_text, has_rows, counted_text};
ghost use Rattle.hg_policy_text.specs.Values.{knows};

use std::fmt;

/// A key of the document.
#[derive(Clone, Copy, Debug, PartialEq, Eq)]
pub enum Key {
    Version,
    Workers,
    MaxGeneration,
    Tenant,
    Arena,
    Group,
    Grant,
    Deny,
    Name,
    Limit,
    Segments,
    Exclusive,
    Members,
    Owner,
    To,
    Rights,
}

impl Key {
    /// The key as it is written.
    pub(crate) fn text(self) -> &'static str
        ensures { result.now ≡ key_text self }
    {
        match self {
            Key::Version => "version",
            Key::Workers => "workers",
            Key::MaxGeneration => "max_generation",
            Key::Tenant => "tenant",
            Key::Arena => "arena",
            Key::Group => "group",
            Key::Grant => "grant",
            Key::Deny => "deny",
            Key::Name => "name",
            Key::Limit => "limit",
            Key::Segments => "segments",
            Key::Exclusive => "exclusive",
            Key::Members => "members",
            Key::Owner => "owner",
            Key::To => "to",
            Key::Rights => "rights",
        }
    }

    /// Whether a document has a table at the key.
    pub(crate) fn has_rows(self) -> bool
        ensures { result ≡ has_rows self }
    {
        matches!(
            self,
            Key::Tenant | Key::Arena | Key::Group | Key::Grant | Key::Deny
        )
    }
}

impl fmt::Display for Key {
    ghost output = { λ key. Some (key_text key) };

    fn fmt<W: fmt::Write>(&self, f: &mut fmt::Formatter<W>) -> fmt::Result {
        write!(f, "{}", self.text())
    }
}

/// What a document may have too many of.
#[derive(Clone, Copy, Debug, PartialEq, Eq)]
pub enum Counted {
    Workers,
    Tenants,
    Arenas,
    Groups,
    Segments,
}

impl Counted {
    /// The word for it.
    pub(crate) fn text(self) -> &'static str
        ensures { result.now ≡ counted_text self }
    {
        match self {
            Counted::Workers => "workers",
            Counted::Tenants => "tenant",
            Counted::Arenas => "arena",
            Counted::Groups => "group",
            Counted::Segments => "segments",
        }
    }
}

impl fmt::Display for Counted {
    ghost output = { λ counted. Some (counted_text counted) };

    fn fmt<W: fmt::Write>(&self, f: &mut fmt::Formatter<W>) -> fmt::Result {
        write!(f, "{}", self.text())
    }
}

/// The tables of a document, by the keys that they may have.
#[derive(Clone, Copy, Debug, PartialEq, Eq)]
pub enum Level {
    /// The document, in version 1.
    Top,
    /// The document, in version 2.
    SecondTop,
    Tenant,
    Arena,
    Group,
    /// A line that grants or denies.
    Grant,
}

impl Level {
    /// Whether such a table may have a key.
    pub(crate) fn knows(self, key: &str) -> bool
        ensures { result ≡ knows self key.now }
    {
        match self {
            Level::Top => {
                matches!(
                    key,
                    "version" | "workers" | "max_generation" | "tenant" | "arena" | "grant"
                )
            }
            Level::SecondTop => {
                matches!(
                    key,
                    "version"
                        | "workers"
                        | "max_generation"
                        | "tenant"
                        | "arena"
                        | "grant"
                        | "group"
                        | "deny"
                )
            }
            Level::Tenant => matches!(key, "name" | "limit"),
            Level::Group => matches!(key, "name" | "members"),
            Level::Arena => matches!(key, "name" | "segments" | "exclusive"),
            Level::Grant => matches!(key, "owner" | "to" | "rights"),
        }
    }
}

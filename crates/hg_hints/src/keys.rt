//! What is wanted at each key of a document.

ghost use Rattle.std.specs.Prelude.{◌≡◌, map};
ghost use Rattle.hg_policy_text.specs.declared.key.Level.TheVariants as level;
ghost use Rattle.hg_policy_text.specs.Values.{knows};
ghost use Rattle.hg_hints.specs.Keys.{bound, is_of_document, is_of_table, is_second, keys, wanted};

use hg_policy_text::{Counted, Key};

/// What is wanted at a key.
pub(crate) fn wanted(key: Key) -> &'static str
    ensures { result.now ≡ wanted key }
{
    match key {
        Key::Version => "the whole number 1, or 2 for groups and denies",
        Key::Workers => "a whole number from 1 to 16",
        Key::MaxGeneration => "a whole number from 1 to 4294967295",
        Key::Tenant | Key::Arena | Key::Group | Key::Grant | Key::Deny => "an array of tables",
        Key::Name => "1 to 16 of a to z, 0 to 9, _ and -, the first a letter",
        Key::Limit => "a whole number from 0 to 4294967295",
        Key::Segments => "a whole number from 0 to 64",
        Key::Exclusive => "an array of names of tenants and groups",
        Key::Members => "an array of names of tenants",
        Key::Owner | Key::To => "the name of a tenant or of a group",
        Key::Rights => "an array of \"read\", \"write\", \"list\" and \"free\"",
    }
}

/// How many there may be.
pub(crate) fn bound(counted: Counted) -> &'static str
    ensures { result.now ≡ bound counted }
{
    match counted {
        Counted::Workers | Counted::Arenas => "at most 16",
        Counted::Tenants | Counted::Groups => "at most 64",
        Counted::Segments => "at most 64, of all arenas together",
    }
}

/// Whether a key is a number of the whole document, which below the header of a table is that
/// table's.
pub(crate) fn is_of_document(key: Key) -> bool
    ensures { result ≡ is_of_document key }
{
    matches!(key, Key::Version | Key::Workers)
}

/// Whether version 2 alone has a key.
pub(crate) fn is_second(text: &str) -> bool
    ensures { result ≡ is_second text.now }
{
    matches!(text, "group" | "deny")
}

/// Whether a document may have a key, in version 2.
pub(crate) fn is_top(text: &str) -> bool
    ensures { result ≡ knows level.SecondTop text.now }
{
    matches!(
        text,
        "version" | "workers" | "max_generation" | "tenant" | "arena" | "grant" | "group" | "deny"
    )
}

/// Whether some table of a document may have a key.
pub(crate) fn is_of_table(text: &str) -> bool
    ensures { result ≡ is_of_table text.now }
{
    matches!(
        text,
        "name" | "limit" | "segments" | "exclusive" | "members" | "owner" | "to" | "rights"
    )
}

/// All keys.
pub(crate) fn keys() -> [&'static str; 16]
    ensures { map (λ key. key.now) result ≡ keys }
{
    [
        "version",
        "workers",
        "max_generation",
        "tenant",
        "arena",
        "group",
        "grant",
        "deny",
        "name",
        "limit",
        "segments",
        "exclusive",
        "members",
        "owner",
        "to",
        "rights",
    ]
}

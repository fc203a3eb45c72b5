//! What is told of a policy's fault.

ghost use Rattle.std.specs.Prelude.{◌≡◌, ◌++◌, IfOk, IfSome, OnOk, codes, is_some, map};
ghost use Rattle.std.specs.Prelude.{option_map, true};
ghost use Rattle.toml.specs.View.{table_view, view};
ghost use Rattle.hg_policy_text.specs.Faults.{fault_of};
ghost use Rattle.hg_policy.specs.Names.{is_among};
ghost use Rattle.hg_policy_text.specs.OneLine.{one_line};
ghost use Rattle.hg_show.specs.Rows.{names_in};
ghost use Rattle.hg_hints.specs.Reasons.{groups_of, if_above, like_text, missing_text, place_text};
ghost use Rattle.hg_hints.specs.Reasons.{nobody_text, reason, tenants_of, unknown_text};
ghost use Rattle.hg_hints.specs.Keys.{bound, is_of_document, wanted};

use crate::alike::near;
use crate::keys::{bound, is_of_document, is_of_table, is_second, is_top, keys, wanted};
use crate::push::push;
use hg_policy_text::{Key, OneLine, PolicyFault};
use hg_show::{rows, text_at};
use std::alloc::{AllocError, Global};
use toml::{Table, Value};

/// Appends a text in one line.
fn push_line(out: &mut Vec<u8>, alloc: Global, text: &str) -> Result<(), AllocError>
    ensures { OnOk result (out.new.items ≡ out.old.items ++ one_line text.now) }
{
    let line = format!(in alloc; "{}", OneLine(text))?;
    push(out, line.as_str())
}

/// Appends where a key stands, if it is one of the whole document.
fn push_above(out: &mut Vec<u8>, key: Key) -> Result<(), AllocError>
    ensures { OnOk result (out.new.items ≡ out.old.items ++ if_above (is_of_document key)) }
{
    if is_of_document(key) {
        push(out, ", above the first header such as [[tenant]]")?;
    }
    Ok(())
}

/// Appends what is wanted of a key that is missing.
#[tactic(auto, unfolding(crate::specs::Reasons::missing_text))]
fn push_missing(out: &mut Vec<u8>, alloc: Global, key: Key) -> Result<(), AllocError>
    ensures { OnOk result (out.new.items ≡ out.old.items ++ missing_text key) }
{
    let front = format!(in alloc; "wanted: {key}, ")?;
    push(out, front.as_str())?;
    push(out, wanted(key))?;
    push_above(out, key)
}

/// Appends a text that is like it, or that none is.
pub(crate) fn push_like(
    out: &mut Vec<u8>,
    alloc: Global,
    otherwise: &str,
    other: Option<&str>,
) -> Result<(), AllocError>
    ensures { OnOk result (out.new.items ≡ out.old.items
        ++ like_text otherwise.now (option_map (λ text. text.now) other.entry)) }
{
    match other {
        Some(text) => {
            push(out, "like it: ")?;
            push_line(out, alloc, text)
        }
        None => push(out, otherwise),
    }
}

/// What a key is that some document has elsewhere.
fn place(text: &str) -> Option<&'static str>
    ensures { option_map (λ place. place.now) result ≡ place_text text.now }
{
    if is_second(text) {
        return Some("a key of version 2, above the first header such as [[tenant]]");
    }
    if is_top(text) {
        return Some("a key of the whole document, above the first header such as [[tenant]]");
    }
    if is_of_table(text) {
        return Some("a key of another table");
    }
    None
}

/// Appends what is told of a key that its table may not have.
#[tactic(auto, unfolding(crate::specs::Reasons::unknown_text))]
fn push_unknown(out: &mut Vec<u8>, alloc: Global, text: &str) -> Result<(), AllocError>
    ensures { OnOk result (out.new.items ≡ out.old.items ++ unknown_text text.now) }
{
    if let Some(place) = place(text) {
        return push(out, place);
    }
    let like = near(alloc, &keys(), text)?;
    push_like(out, alloc, "no table has such a key", like)
}

/// Appends the names of some rows.
fn push_names<'a>(names: &mut Vec<&'a str>, rows: &'a [Value]) -> Result<(), AllocError>
    ensures { OnOk result (map (λ name. name.now) names.new.items
        ≡ map (λ name. name.now) names.old.items ++ names_in (map view rows.now)) }
{
    for row in rows {
        names.push(text_at(row, "name"))?;
    }
    Ok(())
}

/// The names that a document gives groups.
fn groups(alloc: Global, document: &Table) -> Result<Vec<&str>, AllocError>
    ensures { IfOk result (λ names. map (λ name. name.now) names.items
        ≡ groups_of (table_view document.now)) }
{
    let mut names = Vec::new(alloc);
    push_names(&mut names, rows(document, "group"))?;
    Ok(names)
}

/// The names that it gives tenants, and then groups.
fn names(alloc: Global, document: &Table) -> Result<Vec<&str>, AllocError>
    ensures { IfOk result (λ names. map (λ name. name.now) names.items
        ≡ tenants_of (table_view document.now) ++ groups_of (table_view document.now)) }
{
    let mut names = Vec::new(alloc);
    push_names(&mut names, rows(document, "tenant"))?;
    push_names(&mut names, rows(document, "group"))?;
    Ok(names)
}

/// Whether a name is one of these.
fn is_among(name: &str, names: &[&str]) -> bool
    ensures { result ≡ is_among name.now (map (λ other. other.now) names.now) }
{
    names.iter().any(|other| name == *other)
}

/// Appends what is told of a name that nobody has who is meant.
#[tactic(auto, unfolding(crate::specs::Reasons::nobody_text))]
fn push_nobody(
    out: &mut Vec<u8>,
    alloc: Global,
    document: &Table,
    name: &str,
) -> Result<(), AllocError>
    ensures { OnOk result (out.new.items
        ≡ out.old.items ++ nobody_text (table_view document.now) name.now) }
{
    let groups = groups(alloc, document)?;
    if is_among(name, &groups) {
        return push(out, "a group, and members are tenants");
    }
    let names = names(alloc, document)?;
    let like = near(alloc, &names, name)?;
    push_like(out, alloc, "no tenant and no group has it", like)
}

/// Appends what is wanted at a key.
fn push_wanted(out: &mut Vec<u8>, key: Key) -> Result<(), AllocError>
    ensures { OnOk result (out.new.items ≡ out.old.items ++ codes "wanted: " ++ wanted key) }
{
    push(out, "wanted: ")?;
    push(out, wanted(key))
}

/// Appends what is told of a fault of a document, which is some TOML. Want of memory is none.
pub(crate) fn push_reason(
    out: &mut Vec<u8>,
    alloc: Global,
    document: &Table,
    fault: &PolicyFault,
) -> Result<(), AllocError>
    ensures reason { OnOk result (IfSome (fault_of fault.now)
        (λ f. out.new.items ≡ out.old.items ++ reason (table_view document.now) f)) }
    ensures memory { OnOk result (is_some (fault_of fault.now) ≡ true) }
{
    match fault {
        PolicyFault::Memory => Err(AllocError),
        PolicyFault::NotToml => Ok(()),
        PolicyFault::Missing(key) => push_missing(out, alloc, *key),
        PolicyFault::Kind(key) => push_wanted(out, *key),
        PolicyFault::Unknown(text) => push_unknown(out, alloc, text.as_str()),
        PolicyFault::Repeated(_) => push(
            out,
            "each tenant and group has a name of its own, and so has each arena",
        ),
        PolicyFault::NoSuchName(name) => push_nobody(out, alloc, document, name.as_str()),
        PolicyFault::TooMany(counted) => push(out, bound(*counted)),
        PolicyFault::Version => push_wanted(out, Key::Version),
    }
}

//! Groups that can't be of use.

ghost use Rattle.std.specs.Prelude.{◌≡◌, ◌++◌, map, OnOk};
ghost use Rattle.std.specs.List.{flat_map, list_any};
ghost use Rattle.toml.specs.View.{view};
ghost use Rattle.hg_show.specs.Texts.{texts_in};
ghost use Rattle.hg_show.specs.Warnings.{group_warnings, is_unnamed, names_it};

use crate::by_key::{is_empty_at, text_at};
use crate::texts::warn;
use std::alloc::{AllocError, Global};
use toml::Value;

/// Whether a line has this name on either side.
fn names_it(name: &str, line: &Value) -> bool
    ensures { result ≡ names_it name.now (view line.now) }
{
    text_at(line, "owner") == name || text_at(line, "to") == name
}

/// Whether some line has.
fn is_named(name: &str, lines: &[Value]) -> bool
    ensures { result ≡ list_any (names_it name.now) (map view lines.now) }
{
    lines.iter().any(|line| names_it(name, line))
}

/// Whether no line has.
fn is_unnamed(grants: &[Value], denies: &[Value], name: &str) -> bool
    ensures { result ≡ is_unnamed (map view grants.now) (map view denies.now) name.now }
{
    !(is_named(name, grants) || is_named(name, denies))
}

/// Adds what there is to warn of a group.
fn warn_of_group(
    alloc: Global,
    texts: &mut Vec<Vec<u8>>,
    grants: &[Value],
    denies: &[Value],
    group: &Value,
) -> Result<(), AllocError>
    ensures { OnOk result (texts_in texts.new.items ≡ texts_in texts.old.items
        ++ group_warnings (map view grants.now) (map view denies.now) (view group.now)) }
{
    let text = text_at(group, "name");
    let name = text.as_bytes();
    let is_empty = is_empty_at(group, "members");
    let unnamed = is_unnamed(grants, denies, text);
    warn(alloc, texts, is_empty, "group ", name, ": it has no member")?;
    warn(
        alloc,
        texts,
        unnamed,
        "group ",
        name,
        ": no grant and no deny names it",
    )?;
    Ok(())
}

/// Adds what there is to warn of each group.
pub(crate) fn warn_of_groups(
    alloc: Global,
    texts: &mut Vec<Vec<u8>>,
    grants: &[Value],
    denies: &[Value],
    groups: &[Value],
) -> Result<(), AllocError>
    ensures { OnOk result (texts_in texts.new.items ≡ texts_in texts.old.items
        ++ flat_map (group_warnings (map view grants.now) (map view denies.now))
        (map view groups.now)) }
{
    for group in groups {
        warn_of_group(alloc, texts, grants, denies, group)?;
    }
    Ok(())
}

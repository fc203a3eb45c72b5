//! JSON of texts, and what a policy says as JSON.

ghost use Rattle.std.specs.Prelude.{◌≡◌, ◌++◌, ◌∷◌, [], map, IfOk, OnOk};
ghost use Rattle.toml.specs.View.{table_view};
ghost use Rattle.hg_show.specs.Json.{array_at, array_of, json, json_head, quoted, quoted_where};
ghost use Rattle.hg_show.specs.Texts.{texts_in};

use crate::arena_objects::arena_objects;
use crate::by_key::rows;
use crate::pairs::all_pairs;
use crate::push::{push, push_count};
use crate::tenant_objects::tenant_objects;
use crate::texts::{add, push_with_commas};
use crate::warnings::warnings;
use hg_policy::Policy;
use std::alloc::{AllocError, Global};
use toml::Table;

/// Appends a text between quotes: it is a name or a warning, which needs no escape.
#[tactic(auto, unfolding(crate::specs::Json::quoted))]
pub(crate) fn push_quoted(out: &mut Vec<u8>, text: &[u8]) -> Result<(), AllocError>
    ensures { OnOk result (out.new.items ≡ out.old.items ++ quoted text.now) }
{
    push(out, "\"")?;
    out.extend_from_slice(text)?;
    push(out, "\"")
}

/// Appends an array of values.
#[tactic(auto, unfolding(crate::specs::Json::array_of))]
pub(crate) fn push_array(out: &mut Vec<u8>, values: &[Vec<u8>]) -> Result<(), AllocError>
    ensures { OnOk result (out.new.items ≡ out.old.items ++ array_of (texts_in values.now)) }
{
    push(out, "[")?;
    push_with_commas(out, values)?;
    push(out, "]")
}

/// Adds a text as a value.
fn add_quoted(alloc: Global, values: &mut Vec<Vec<u8>>, text: &[u8]) -> Result<(), AllocError>
    ensures { OnOk result (texts_in values.new.items
        ≡ texts_in values.old.items ++ quoted text.now ∷ []) }
{
    let mut value = Vec::new(alloc);
    push_quoted(&mut value, text)?;
    add(values, value)
}

/// Adds a name as a value, where it is to be told.
pub(crate) fn add_quoted_where(
    alloc: Global,
    values: &mut Vec<Vec<u8>>,
    tells: bool,
    name: &str,
) -> Result<(), AllocError>
    ensures { OnOk result (texts_in values.new.items
        ≡ texts_in values.old.items ++ quoted_where tells name.now) }
{
    if tells {
        add_quoted(alloc, values, name.as_bytes())?;
    }
    Ok(())
}

/// Each text as a value.
fn each_quoted(alloc: Global, texts: &[Vec<u8>]) -> Result<Vec<Vec<u8>>, AllocError>
    ensures { IfOk result (λ values. texts_in values.items ≡ map quoted (texts_in texts.now)) }
{
    let mut values = Vec::new(alloc);
    for text in texts {
        add_quoted(alloc, &mut values, text.as_slice())?;
    }
    Ok(values)
}

/// Appends the beginning of the object: how many workers and generations there are.
#[tactic(auto, unfolding(crate::specs::Json::json_head))]
fn push_json_head(out: &mut Vec<u8>, policy: &Policy) -> Result<(), AllocError>
    ensures { OnOk result (out.new.items ≡ out.old.items ++ json_head policy.now) }
{
    push_count(out, "{\"workers\":", u64::from(policy.workers()))?;
    push_count(
        out,
        ",\"max_generation\":",
        u64::from(policy.max_generation()),
    )?;
    Ok(())
}

/// Appends an array of values behind its key.
#[tactic(auto, unfolding(crate::specs::Json::array_at))]
fn push_array_at(out: &mut Vec<u8>, key: &str, values: &[Vec<u8>]) -> Result<(), AllocError>
    ensures { OnOk result (out.new.items
        ≡ out.old.items ++ array_at key.now (texts_in values.now)) }
{
    push(out, key)?;
    push_array(out, values)
}

/// What a policy says, whose rows stand in its document.
#[tactic(auto, unfolding(crate::specs::Json::json))]
pub(crate) fn json(alloc: Global, policy: &Policy, table: &Table) -> Result<Vec<u8>, AllocError>
    ensures { IfOk result (λ text. text.items ≡ json policy.now (table_view table.now)) }
{
    let arenas = rows(table, "arena");
    let tenants = tenant_objects(alloc, policy, arenas)?;
    let arenas = arena_objects(alloc, policy, arenas)?;
    let pairs = all_pairs(alloc, policy)?;
    let warnings = warnings(alloc, policy, table)?;
    let warnings = each_quoted(alloc, warnings.as_slice())?;
    let mut out = Vec::new(alloc);
    push_json_head(&mut out, policy)?;
    push_array_at(&mut out, ",\"tenants\":", tenants.as_slice())?;
    push_array_at(&mut out, ",\"arenas\":", arenas.as_slice())?;
    push_array_at(&mut out, ",\"rights\":", pairs.as_slice())?;
    push_array_at(&mut out, ",\"warnings\":", warnings.as_slice())?;
    push(&mut out, "}\n")?;
    Ok(out)
}

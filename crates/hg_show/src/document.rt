//! What a policy says, as text and as JSON.

ghost use Rattle.std.specs.Prelude.{◌≡◌, IfErr, IfOk};
ghost use Rattle.toml.specs.View.{table_view};
ghost use Rattle.hg_policy_text.specs.Document.{document_of};
ghost use Rattle.hg_policy_text.specs.Faults.{FailsAs, fault_of};
ghost use Rattle.hg_show.specs.Shown.{IsShown, IsShownAsJson, shown};

use crate::by_key::{rows, tree};
use crate::json::json;
use crate::matrix::push_matrix;
use crate::parts::{push_arenas, push_head, push_tenants};
use crate::warnings::{push_warnings, warnings};
use hg_policy::Policy;
use hg_policy_text::{PolicyFault, read_policy};
use std::alloc::{AllocError, Global};
use toml::Table;

/// The text of a policy, whose rows stand in its document.
#[tactic(auto, unfolding(crate::specs::Shown::shown))]
fn text_of(alloc: Global, policy: &Policy, table: &Table) -> Result<Vec<u8>, AllocError>
    ensures { IfOk result (λ text. text.items ≡ shown policy.now (table_view table.now)) }
{
    let arenas = rows(table, "arena");
    let warnings = warnings(alloc, policy, table)?;
    let mut out = Vec::new(alloc);
    push_head(&mut out, policy)?;
    push_tenants(&mut out, policy, arenas)?;
    push_arenas(&mut out, policy, arenas)?;
    push_matrix(alloc, &mut out, policy)?;
    push_warnings(&mut out, warnings.as_slice())?;
    Ok(out)
}

/// Reads a policy, and tells as text what it says: the limit of each tenant and the arenas that it
/// may be in, the segments of each arena and the tenants that it admits, and as a matrix who may
/// do what with whose blocks; and which rows can't be of use.
pub fn show(alloc: Global, text: &[u8]) -> Result<Vec<u8>, PolicyFault>
    ensures shown { IfOk result (λ shown. IsShown text.now shown.items) }
    ensures faulty { IfErr result (λ fault. FailsAs (fault_of fault) (document_of text.now)) }
{
    let policy = read_policy(alloc, text)?;
    let table = tree(alloc, text)?;
    Ok(text_of(alloc, &policy, &table)?)
}

/// Reads a policy, and tells the same as one JSON object.
pub fn show_json(alloc: Global, text: &[u8]) -> Result<Vec<u8>, PolicyFault>
    ensures shown { IfOk result (λ shown. IsShownAsJson text.now shown.items) }
    ensures faulty { IfErr result (λ fault. FailsAs (fault_of fault) (document_of text.now)) }
{
    let policy = read_policy(alloc, text)?;
    let table = tree(alloc, text)?;
    Ok(json(alloc, &policy, &table)?)
}

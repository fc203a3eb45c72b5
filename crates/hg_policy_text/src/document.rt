//! The policy document.

ghost use Rattle.std.specs.Prelude.{◌≡◌, ◌≤◌, length, IfOk};
ghost use Rattle.toml.specs.View.{table_view};
ghost use Rattle.hg_policy_text.specs.Faults.{Gives, or_fault, not_toml};
ghost use Rattle.hg_policy_text.specs.ReadTables.{heads_of, all_named_of, said_of};
ghost use Rattle.hg_policy_text.specs.Heads.{AreHeads};
ghost use Rattle.hg_policy_text.specs.Document.{top_at, tables_of, policy_at, heads_in, tree_of};
ghost use Rattle.hg_policy_text.specs.Document.{document_of, names_in, said_in, policy_with};
ghost use Rattle.hg_machine.specs.SoundPolicy.{IsSoundPolicy};

use crate::arenas::{ArenaTables, arenas};
use crate::fault::PolicyFault;
use crate::groups::groups;
use crate::heads::{Heads, read_heads};
use crate::key::{Key, Level};
use crate::lines::{lines, standings};
use crate::tenants::tenants;
use crate::values::{known, value_at};
use hg_policy::{Policy, Standings, TenantSet};
use indexmap::IndexMap;
use std::alloc::Global;
use toml::Table;

/// Reads a policy document, which is TOML.
#[tactic(auto, unfolding(crate::specs::Document::document_of))]
pub fn read_policy(alloc: Global, text: &[u8]) -> Result<Policy, PolicyFault>
    ensures { Gives (λ policy. policy) result (document_of text.now) }
{
    let table = tree(alloc, text)?;
    policy(alloc, &table)
}

pub(crate) fn tree(alloc: Global, text: &[u8]) -> Result<Table, PolicyFault>
    ensures { Gives (λ table. table_view table) result (or_fault not_toml (tree_of text.now)) }
{
    match toml::table_from_slice(alloc, text) {
        Ok(table) => Ok(table),
        Err(fault) => {
            if fault.is_memory() {
                Err(PolicyFault::Memory)
            } else {
                Err(PolicyFault::NotToml)
            }
        }
    }
}

fn policy(alloc: Global, table: &Table) -> Result<Policy, PolicyFault>
    ensures { Gives (λ policy. policy) result (policy_at (table_view table.now)) }
{
    let heads = heads(alloc, table)?;
    tables(alloc, &heads)
}

/// What is read before any entry.
#[tactic(auto, unfolding(crate::specs::Document::heads_in))]
pub(crate) fn heads<'a>(alloc: Global, table: &'a Table) -> Result<Heads<'a>, PolicyFault>
    ensures heads { Gives heads_of result (heads_in (table_view table.now)) }
    ensures ranges { IfOk result (λ heads. AreHeads (heads_of heads)) }
{
    let top = top(table)?;
    known(alloc, top, table)?;
    read_heads(alloc, table)
}

fn tables(alloc: Global, heads: &Heads<'_>) -> Result<Policy, PolicyFault>
    requires { AreHeads (heads_of heads.now) }
    ensures { Gives (λ policy. policy) result (tables_of (heads_of heads.now)) }
{
    let named = names(alloc, heads)?;
    let standings = said(alloc, heads, &named)?;
    Ok(policy_with(heads, named, standings))
}

fn policy_with(heads: &Heads<'_>, named: Named, standings: Vec<Standings>) -> Policy
    requires { IsSoundPolicy (policy_with (heads_of heads.now) (all_named_of named)
        (said_of (length named.tenants.entries) standings.items)) }
    ensures { result ≡ policy_with (heads_of heads.now) (all_named_of named)
        (said_of (length named.tenants.entries) standings.items) }
{
    Policy::of_tables(
        heads.workers,
        heads.max_generation,
        named.tenants,
        named.arenas.named,
        named.arenas.segments,
        standings,
    )
}

/// Whom and what a document names: tenants with their limits, groups, and arenas with their
/// segments. It is a type of its own so that it is let go in one place.
#[derive(Drop)]
pub(crate) struct Named {
    tenants: IndexMap<String, u32>,
    groups: IndexMap<String, TenantSet>,
    arenas: ArenaTables,
}

#[tactic(auto, unfolding(crate::specs::Document::names_in))]
fn names(alloc: Global, heads: &Heads<'_>) -> Result<Named, PolicyFault>
    requires { AreHeads (heads_of heads.now) }
    ensures { Gives all_named_of result (names_in (heads_of heads.now)) }
{
    let tenants = tenants(alloc, heads.tenants.as_slice())?;
    let groups = groups(alloc, &tenants, heads.groups.as_slice())?;
    let arenas = arenas(alloc, &tenants, &groups, heads.arenas.as_slice())?;
    Ok(Named {
        tenants,
        groups,
        arenas,
    })
}

/// What the lines of a document say of those that it names.
#[tactic(auto, unfolding(crate::specs::Document::said_in))]
fn said(alloc: Global, heads: &Heads<'_>, named: &Named) -> Result<Vec<Standings>, PolicyFault>
    requires { length named.now.tenants.entries ≤ 64 }
    ensures { Gives (λ table. said_of (length named.now.tenants.entries) table.items) result
        (said_in (all_named_of named.now) (heads_of heads.now)) }
{
    let grants = lines(
        alloc,
        &named.tenants,
        &named.groups,
        heads.grants.as_slice(),
    )?;
    let denies = lines(
        alloc,
        &named.tenants,
        &named.groups,
        heads.denies.as_slice(),
    )?;
    let standings = standings(alloc, &named.tenants, grants.as_slice(), denies.as_slice())?;
    Ok(standings)
}

/// Which keys the document may have, by its version.
#[tactic(auto, unfolding(crate::specs::Document::top_at))]
fn top(table: &Table) -> Result<Level, PolicyFault>
    ensures { Gives (λ top. top) result (top_at (table_view table.now)) }
{
    let value = value_at(table, Key::Version)?;
    match value.as_integer() {
        Some(1) => Ok(Level::Top),
        Some(2) => Ok(Level::SecondTop),
        Some(_) => Err(PolicyFault::Version),
        None => Err(PolicyFault::Kind(Key::Version)),
    }
}

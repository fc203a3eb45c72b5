//! What lines of a document name, and tables of it by owner and actor.

ghost use Rattle.std.specs.Prelude.{◌≡◌, ◌<◌, ◌≤◌, ◌||◌, ◌&&◌, ℕ, length, map, take, IfOk};
ghost use Rattle.std.specs.Prelude.{slice_index_or};
ghost use Rattle.std.specs.List.{range_with_len};
ghost use Rattle.hg_place.specs.declared.Right.{Right};
ghost use Rattle.toml.specs.View.{view, table_view};
ghost use Rattle.hg_machine.specs.Policy.{has_right, no_rights};
ghost use Rattle.hg_policy_text.specs.Faults.{Gives, in_turn};
ghost use Rattle.hg_policy.specs.Kept.{granted_of, forbidden_of, tenants_of};
ghost use Rattle.hg_policy_text.specs.ReadTables.{line_of, groups_of};
ghost use Rattle.hg_policy.specs.Rights.{rights_of, nothing};
ghost use Rattle.hg_policy.specs.TenantSets.{has_tenant};
ghost use Rattle.hg_policy_text.specs.Lines.{rights_by, granted_by, forbidden_by};
ghost use Rattle.hg_policy_text.specs.Lines.{with_right, rights_in, line_in, lines_in};

use crate::fault::PolicyFault;
use crate::grants::right;
use crate::groups::named;
use crate::key::{Key, Level};
use crate::values::{elements, known, value_at};
use hg_policy::{Held, Rights, Standing, Standings, TenantSet};
use indexmap::IndexMap;
use std::alloc::{AllocError, Global};
use toml::{Table, Value};

/// Rights of some tenants on blocks of some owners.
#[derive(Clone, Copy, Debug, PartialEq, Eq)]
pub(crate) struct Line {
    pub(crate) owners: TenantSet,
    pub(crate) to: TenantSet,
    pub(crate) rights: Rights,
}

/// By owner and actor what is granted, which on one's own blocks is each right, and what is
/// forbidden, which on one's own is nothing; on another's both are what the lines name.
pub(crate) fn standings(
    alloc: Global,
    tenants: &IndexMap<String, u32>,
    grants: &[Line],
    denies: &[Line],
) -> Result<Vec<Standings>, AllocError>
    requires { length tenants.now.entries ≤ 64 }
    ensures granted { IfOk result (λ table. granted_of (length tenants.now.entries) table.items
        ≡ granted_by (map (line_of (length tenants.now.entries)) grants.now)
        (length (tenants_of tenants.now.entries))) }
    ensures forbidden { IfOk result (λ table. forbidden_of (length tenants.now.entries) table.items
        ≡ forbidden_by (map (line_of (length tenants.now.entries)) denies.now)
        (length (tenants_of tenants.now.entries))) }
{
    table(alloc, tenants.len(), grants, denies)
}

fn table(
    alloc: Global,
    tenants: usize,
    grants: &[Line],
    denies: &[Line],
) -> Result<Vec<Standings>, AllocError>
    requires { tenants ≤ 64 }
    ensures granted { IfOk result (λ table. granted_of tenants table.items
        ≡ granted_by (map (line_of tenants) grants.now) tenants) }
    ensures forbidden { IfOk result (λ table. forbidden_of tenants table.items
        ≡ forbidden_by (map (line_of tenants) denies.now) tenants) }
{
    let mut table = Vec::with_capacity(alloc, tenants)?;
    for owner in 0..tenants {
        let granted = row(tenants, owner, Rights::each(), grants);
        let forbidden = row(tenants, owner, Rights::none(), denies);
        table.push(beside(&granted, &forbidden))?;
    }
    Ok(table)
}

/// Of each actor both.
fn beside(granted: &Held, forbidden: &Held) -> Standings
    ensures granted { map (λ standing. standing.granted) result ≡ granted.now }
    ensures forbidden { map (λ standing. standing.forbidden) result ≡ forbidden.now }
{
    let mut standings = [Standing::new(Rights::none(), Rights::none()); 64];
    for actor in 0..64_usize {
        standings[actor] = Standing::new(granted[actor], forbidden[actor]);
    }
    standings
}

/// What the lines name on the blocks of one owner.
fn row(tenants: usize, owner: usize, own: Rights, lines: &[Line]) -> Held
    requires few { tenants ≤ 64 }
    requires owner { owner < tenants }
    ensures { map rights_of (take tenants result)
        ≡ map (λ actor. rights_by (rights_of own) (map (line_of tenants) lines.now) owner actor)
        (range_with_len 0 tenants) }
{
    let mut held = [Rights::none(); 64];
    for line in lines {
        if line.owners.has(owner as u8) {
            add(&mut held, line.to, line.rights);
        }
    }
    held[owner] = own;
    held
}

/// Rights more for some actors.
fn add(held: &mut Held, to: TenantSet, rights: Rights)
    ensures { (actor : ℕ) (right : Right) → actor < 64 →
        has_right (rights_of (slice_index_or held.new actor nothing)) right
        ≡ (has_right (rights_of (slice_index_or held.old actor nothing)) right
        || (has_tenant to actor && has_right (rights_of rights) right)) }
{
    for actor in 0..64_u8 {
        if to.has(actor) {
            let at = usize::from(actor);
            held[at] = held[at].and(rights);
        }
    }
}

/// The lines in the order of their entries.
pub(crate) fn lines(
    alloc: Global,
    tenants: &IndexMap<String, u32>,
    groups: &IndexMap<String, TenantSet>,
    entries: &[&Table],
) -> Result<Vec<Line>, PolicyFault>
    requires { length tenants.now.entries ≤ 64 }
    ensures { Gives (λ lines. map (line_of (length tenants.now.entries)) lines.items) result
        (lines_in (tenants_of tenants.now.entries)
        (groups_of (length tenants.now.entries) groups.now.entries)
        (map (λ entry. table_view entry.now) entries.now)) }
{
    let mut lines = Vec::with_capacity(alloc, entries.len())?;
    for entry in entries {
        let line = read_line(alloc, tenants, groups, *entry)?;
        lines.push(line)?;
    }
    Ok(lines)
}

#[tactic(auto, unfolding(crate::specs::Lines::line_in))]
pub(crate) fn read_line(
    alloc: Global,
    tenants: &IndexMap<String, u32>,
    groups: &IndexMap<String, TenantSet>,
    entry: &Table,
) -> Result<Line, PolicyFault>
    requires { length tenants.now.entries ≤ 64 }
    ensures { Gives (line_of (length tenants.now.entries)) result
        (line_in (tenants_of tenants.now.entries)
        (groups_of (length tenants.now.entries) groups.now.entries) (table_view entry.now)) }
{
    known(alloc, Level::Grant, entry)?;
    let owners = named(alloc, tenants, groups, entry, Key::Owner)?;
    let to = named(alloc, tenants, groups, entry, Key::To)?;
    let value = value_at(entry, Key::Rights)?;
    let rights = rights(value)?;
    Ok(Line { owners, to, rights })
}

fn rights(value: &Value) -> Result<Rights, PolicyFault>
    ensures { Gives rights_of result (rights_in (view value.now)) }
{
    let words = elements(value, Key::Rights)?;
    rights_among(words)
}

fn rights_among(words: &Vec<Value>) -> Result<Rights, PolicyFault>
    ensures { Gives rights_of result (in_turn with_right no_rights (map view words.now.items)) }
{
    let mut rights = Rights::none();
    for word in words {
        let right = right(word)?;
        rights = rights.with(right);
    }
    Ok(rights)
}

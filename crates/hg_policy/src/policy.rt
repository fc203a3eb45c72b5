//! A policy.

ghost use Rattle.std.specs.Prelude.{◌≡◌, ◌≤◌, ◌<◌, ◌^◌, true, length, IfSome, IsTrue, is_some};
ghost use Rattle.std.specs.Prelude.{option_map, IfNone, IfOk, false, slice_index_or};
ghost use Rattle.hg_place.specs.declared.Right.{Right};
ghost use Rattle.hg_machine.specs.Policy as meaning;
ghost use Rattle.hg_machine.specs.Policy.{has_right};
ghost use Rattle.hg_policy.specs.Rights.{rights_of};
ghost use Rattle.hg_policy.specs.declared.granted.Standing.{Standing};
ghost use Rattle.hg_policy.specs.Refusals.{refusal_of};
ghost use Rattle.hg_machine.specs.SoundPolicy.{IsSoundPolicy};
ghost use Rattle.hg_policy.specs.Kept.{policy_kept};
ghost use Rattle.hg_policy.specs.Names.{tenant_number, tenant_name};
ghost use Rattle.hg_policy.specs.Names.{arena_number, arena_name};

use crate::copied::copied;
use crate::granted::{Refusal, Standing, Standings};
use crate::tenant_set::TenantSet;
use hg_place::{Actor, Right};
use indexmap::IndexMap;
use std::alloc::{AllocError, Global};
use std::marker::Model;

/// Who may do what, and how much of it. Tenants, arenas and segments go by number, from 0.
///
/// What each request asks is a flat table, so that no answer costs more with more grants: limits by
/// tenant, whom an arena admits, one word by arena, the arena of each segment, and the rights on an
/// owner's blocks, by owner and actor: what is granted, among it all rights of each owner on its
/// own, and beside it what is forbidden and what is allowed, so that one look-up finds all three.
#[derive(Drop)]
pub struct Policy {
    workers: u8,
    max_generation: u32,
    /// Names and limits, in bytes.
    tenants: IndexMap<String, u32>,
    /// Names, and which tenants are admitted.
    arenas: IndexMap<String, TenantSet>,
    /// The arena of each segment.
    segments: Vec<u8>,
    /// By owner what each actor is granted, forbidden and allowed.
    standings: Vec<Standings>,
}

impl Model for Policy {
    ghost use Rattle.hg_machine.specs.Policy as meaning;

    ghost Value = { meaning.Policy };

    ghost use Rattle.hg_machine.specs.SoundPolicy.{IsSoundPolicy};
    ghost use Rattle.hg_policy.specs.Kept.{policy_of};

    ghost view = { policy_of };

    ghost invariant = { λ policy. IsSoundPolicy (policy_of policy) };
}

impl Policy {
    /// The policy of these tables, where it is sound: how many workers there are, the greatest
    /// generation of a block, tenants with their limits in bytes, arenas with whom they admit, the
    /// arena of each segment, and by owner how each actor stands to its blocks.
    pub fn of_tables(
        workers: u8,
        max_generation: u32,
        tenants: IndexMap<String, u32>,
        arenas: IndexMap<String, TenantSet>,
        segments: Vec<u8>,
        standings: Vec<Standings>,
    ) -> Policy
        requires { IsSoundPolicy (policy_kept workers max_generation tenants.entries
            arenas.entries segments.items standings.items) }
        ensures { result ≡ policy_kept workers max_generation tenants.entries
            arenas.entries segments.items standings.items }
    {
        Policy {
            workers,
            max_generation,
            tenants,
            arenas,
            segments,
            standings,
        }
    }

    /// A second policy that is the same, with room of its own. Its one error is want of memory.
    pub fn copy(&self, alloc: Global) -> Result<Policy, AllocError>
        ensures { IfOk result (λ policy. policy ≡ self.now) }
    {
        let tenants = copied(alloc, &self.tenants)?;
        let arenas = copied(alloc, &self.arenas)?;
        let segments = Vec::from_slice(alloc, self.segments.as_slice())?;
        let standings = Vec::from_slice(alloc, self.standings.as_slice())?;
        Ok(Policy {
            workers: self.workers,
            max_generation: self.max_generation,
            tenants,
            arenas,
            segments,
            standings,
        })
    }

    /// How many workers there are, 1 to 16.
    pub fn workers(&self) -> u8
        ensures workers { result ≡ self.now.workers }
        ensures sound { IsSoundPolicy self.now }
    {
        self.workers
    }

    /// How many tenants there are, at most 64.
    pub fn tenants(&self) -> u8
        ensures tenants { result ≡ length self.now.tenants }
        ensures few { result ≤ 64 }
    {
        self.tenants.len() as u8
    }

    /// How many arenas there are, at most 16.
    pub fn arenas(&self) -> u8
        ensures arenas { result ≡ length self.now.arenas }
        ensures few { result ≤ 16 }
    {
        self.arenas.len() as u8
    }

    /// How many segments there are, at most 64.
    pub fn segments(&self) -> u8
        ensures segments { result ≡ length self.now.segments }
        ensures few { result ≤ 64 }
        ensures sound { IsSoundPolicy self.now }
    {
        self.segments.len() as u8
    }

    /// The greatest generation of a block, at least 1.
    pub fn max_generation(&self) -> u32
        ensures max_generation { result ≡ self.now.max_generation }
        ensures some { 1 ≤ result }
        ensures sound { IsSoundPolicy self.now }
    {
        self.max_generation
    }

    /// The number of the tenant of this name.
    pub fn tenant(&self, name: &str) -> Option<u8>
        ensures number { result ≡ tenant_number self.now name.now }
        ensures tenant { IfSome result (λ tenant. meaning.is_tenant self.now tenant ≡ true) }
    {
        match self.tenants.get_index_of(name) {
            Some(tenant) => Some(tenant as u8),
            None => None,
        }
    }

    /// The name of a tenant.
    pub fn tenant_name(&self, tenant: u8) -> Option<&str>
        ensures { option_map (λ name. name.now) result ≡ tenant_name self.now tenant }
    {
        match self.tenants.get_index(usize::from(tenant)) {
            Some((name, _)) => Some(name.as_str()),
            None => None,
        }
    }

    /// Whether an actor is a tenant.
    fn is_tenant(&self, actor: Actor) -> bool
        ensures tenant { result ≡ meaning.is_tenant self.now actor.0 }
        ensures few { IsTrue result → actor.0 < 64 }
    {
        usize::from(actor.0) < self.tenants.len()
    }

    /// How many bytes a tenant may have in the heap of each worker.
    pub fn limit(&self, tenant: u8) -> Option<u64>
        ensures tenant { is_some result ≡ meaning.is_tenant self.now tenant }
        ensures limit { IfSome result (λ limit. limit ≡ meaning.limit_of self.now tenant) }
        ensures range { IfSome result (λ limit. limit < 2 ^ 32) }
    {
        match self.tenants.get_index(usize::from(tenant)) {
            Some((_, limit)) => Some(u64::from(*limit)),
            None => None,
        }
    }

    /// The number of the arena of this name.
    pub fn arena(&self, name: &str) -> Option<u8>
        ensures number { result ≡ arena_number self.now name.now }
        ensures arena { IfSome result (λ arena. arena < length self.now.arenas) }
    {
        match self.arenas.get_index_of(name) {
            Some(arena) => Some(arena as u8),
            None => None,
        }
    }

    /// The name of an arena.
    pub fn arena_name(&self, arena: u8) -> Option<&str>
        ensures { option_map (λ name. name.now) result ≡ arena_name self.now arena }
    {
        let (name, _) = self.arenas.get_index(usize::from(arena))?;
        Some(name.as_str())
    }

    /// The arena of a segment.
    pub fn arena_of(&self, segment: u8) -> Option<u8>
        ensures { result ≡ meaning.arena_of self.now segment }
    {
        self.segments.get(usize::from(segment)).copied()
    }

    /// Whether an arena admits an actor: a tenant, and one that it is open to.
    pub fn admits(&self, arena: u8, actor: Actor) -> bool
        ensures { result ≡ meaning.admits self.now arena actor.0 }
    {
        match self.arenas.get_index(usize::from(arena)) {
            Some((_, admitted)) => self.is_tenant(actor) && admitted.has(actor.0),
            None => false,
        }
    }

    /// How an actor stands to an owner's blocks, where each of them is a tenant.
    fn standing(&self, owner: u8, actor: Actor) -> Option<&Standing>
        ensures found { IfSome result (λ standing. (right : Right)
            → (has_right (rights_of standing.now.granted) right
            ≡ meaning.grants self.now owner actor.0 right)
            × (has_right (rights_of standing.now.forbidden) right
            ≡ meaning.forbids self.now owner actor.0 right)) }
        ensures nobody { IfNone result ((right : Right)
            → (meaning.grants self.now owner actor.0 right ≡ false)
            × (meaning.forbids self.now owner actor.0 right ≡ false)) }
    {
        match self.standings.get(usize::from(owner)) {
            Some(by_actor) if self.is_tenant(actor) => Some(standing_in(by_actor, actor)),
            _ => None,
        }
    }

    /// Why an actor may not do on an owner's blocks what needs a right, if so: what is forbidden is
    /// refused before any grant is asked for.
    pub fn refusal(&self, owner: u8, actor: Actor, right: Right) -> Option<Refusal>
        ensures { result ≡ refusal_of self.now owner actor.0 right }
    {
        match self.standing(owner, actor) {
            Some(standing) => standing.refusal(right),
            None => Some(Refusal::NotGranted),
        }
    }

    /// Whether an actor has a right on an owner's blocks. Each tenant has each right on its own.
    pub fn grants(&self, owner: u8, actor: Actor, right: Right) -> bool
        ensures { result ≡ meaning.grants self.now owner actor.0 right }
    {
        match self.standing(owner, actor) {
            Some(standing) => standing.granted.has(right),
            None => false,
        }
    }

    /// Whether an actor is forbidden a right on an owner's blocks, whatever it is granted. No
    /// tenant is forbidden anything on its own.
    pub fn forbids(&self, owner: u8, actor: Actor, right: Right) -> bool
        ensures { result ≡ meaning.forbids self.now owner actor.0 right }
    {
        match self.standing(owner, actor) {
            Some(standing) => standing.forbidden.has(right),
            None => false,
        }
    }
}

/// How an actor stands, in the row of an owner.
fn standing_in(by_actor: &Standings, actor: Actor) -> &Standing
    requires { actor.0 < 64 }
    ensures { (other : Standing) → result.now ≡ slice_index_or by_actor.now actor.0 other }
{
    &by_actor[usize::from(actor.0)]
}

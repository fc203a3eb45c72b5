//! The words of a reason.

ghost use Rattle.std.specs.Prelude.{◌≡◌, ◌++◌, ℕ, List, OnOk};
ghost use Rattle.hg_labels.specs.Indexes.{texts};
ghost use Rattle.hg_trace.specs.Stored.{command_in};
ghost use Rattle.hg_reasons.specs.Wording.{admits_text, arena_text, charge_text, denies_text};
ghost use Rattle.hg_reasons.specs.Wording.{hand_text, left_text, lets_text, like_text, limit_text};
ghost use Rattle.hg_reasons.specs.Wording.{reason_text, room_text, said_by, tenant_text, words_text};

mod lists;
mod naming;
mod plain;

use crate::reason::{Between, Charged, Held, Reason};
use hg_hints::{Kind, near_to, push_near};
use hg_policy::Policy;
use hg_text::{push, push_count};
use hg_trace::StoredLine;
use lists::{push_admitted, push_rights, right_text};
use naming::{actor_said, arena_said, arena_text, tenant_text};
use plain::{
    push_asks, push_freed, push_generation, push_holds, push_large, push_no_segment, push_pair,
    push_unserved,
};
use std::alloc::{AllocError, Global};
use std::marker::Model;

/// What the words of a reason are about: the policy, the worker of a line, and who asks and which arena,
/// as the line names them.
#[derive(Drop)]
pub(crate) struct Said<'a> {
    policy: &'a Policy,
    worker: u8,
    actor: &'a str,
    arena: &'a str,
}

impl<'a> Model for Said<'a> {
    ghost use Rattle.hg_reasons.specs.Wording as wording;

    ghost Value = { wording.Said };

    ghost view = { λ said. record {
      policy = said.policy.now;
      worker = said.worker;
      actor = said.actor.now;
      arena = said.arena.now;
    } };
}

impl<'a> Said<'a> {
    /// What the words of a reason for this line are about.
    pub(crate) fn by(policy: &'a Policy, names: &'a [&'a str], line: &StoredLine) -> Said<'a>
        ensures { (labels : List (List ℕ)) → result ≡ said_by policy.now
            line.now.worker (command_in (texts names.now) labels line.now.command) }
    {
        Said {
            policy,
            worker: line.worker,
            actor: actor_said(names, line.command),
            arena: arena_said(names, line.command),
        }
    }

    /// Appends the name of a tenant.
    fn push_tenant(&self, out: &mut Vec<u8>, tenant: u8) -> Result<(), AllocError>
        ensures { OnOk result (out.new.items
            ≡ out.old.items ++ tenant_text self.now.policy tenant) }
    {
        push(out, tenant_text(self.policy, tenant))
    }

    /// Appends the name of an arena.
    fn push_arena(&self, out: &mut Vec<u8>, arena: u8) -> Result<(), AllocError>
        ensures { OnOk result (out.new.items
            ≡ out.old.items ++ arena_text self.now.policy arena) }
    {
        push(out, arena_text(self.policy, arena))
    }

    /// Appends what a tenant has of its limit with the worker.
    #[tactic(auto, unfolding(crate::specs::Wording::charge_text))]
    fn push_charge(&self, out: &mut Vec<u8>, charged: Charged) -> Result<(), AllocError>
        ensures { OnOk result (out.new.items ≡ out.old.items ++ charge_text self.now charged) }
    {
        self.push_tenant(out, charged.tenant)?;
        push_count(out, " has ", charged.charge)?;
        push_count(out, " of ", charged.limit)?;
        push_count(out, " bytes with worker ", u64::from(self.worker))
    }

    /// Appends what a tenant has of its limit with the worker, and what it asks for.
    fn push_limit(&self, out: &mut Vec<u8>, charged: Charged) -> Result<(), AllocError>
        ensures { OnOk result (out.new.items ≡ out.old.items ++ limit_text self.now charged) }
    {
        self.push_charge(out, charged)?;
        push_asks(out, charged)
    }

    #[tactic(auto, unfolding(crate::specs::Wording::denies_text))]
    fn push_denies(&self, out: &mut Vec<u8>, between: Between) -> Result<(), AllocError>
        ensures { OnOk result (out.new.items ≡ out.old.items ++ denies_text self.now between) }
    {
        self.push_tenant(out, between.owner)?;
        push(out, " denies ")?;
        self.push_tenant(out, between.actor)?;
        push(out, " ")?;
        push(out, right_text(between.right))
    }

    #[tactic(auto, unfolding(crate::specs::Wording::lets_text))]
    fn push_lets(&self, out: &mut Vec<u8>, between: Between) -> Result<(), AllocError>
        ensures { OnOk result (out.new.items ≡ out.old.items ++ lets_text self.now between) }
    {
        self.push_tenant(out, between.owner)?;
        push(out, " lets ")?;
        self.push_tenant(out, between.actor)?;
        push_rights(out, self.policy, between.owner, between.actor)?;
        push(out, ", not ")?;
        push(out, right_text(between.right))
    }

    #[tactic(auto, unfolding(crate::specs::Wording::room_text))]
    fn push_room(&self, out: &mut Vec<u8>, held: Held) -> Result<(), AllocError>
        ensures { OnOk result (out.new.items ≡ out.old.items ++ room_text self.now held) }
    {
        push_count(out, "worker ", u64::from(self.worker))?;
        push_count(out, " holds ", u64::from(held.segments))?;
        push(out, " segments of ")?;
        self.push_arena(out, held.arena)?;
        push_count(out, ", and none has room for a block of ", held.block)
    }

    #[tactic(auto, unfolding(crate::specs::Wording::admits_text))]
    fn push_admits(&self, out: &mut Vec<u8>, arena: u8) -> Result<(), AllocError>
        ensures { OnOk result (out.new.items ≡ out.old.items ++ admits_text self.now arena) }
    {
        self.push_arena(out, arena)?;
        push(out, " admits")?;
        push_admitted(out, self.policy, arena)
    }

    #[tactic(auto, unfolding(crate::specs::Wording::left_text))]
    fn push_left(&self, out: &mut Vec<u8>, arena: u8) -> Result<(), AllocError>
        ensures { OnOk result (out.new.items ≡ out.old.items ++ left_text self.now arena) }
    {
        push_pair(out, arena_text(self.policy, arena), " has no segment left")
    }

    /// Appends what the worker has in hand.
    #[tactic(auto, unfolding(crate::specs::Wording::hand_text))]
    fn push_hand(&self, out: &mut Vec<u8>, what: &str) -> Result<(), AllocError>
        ensures { OnOk result (out.new.items
            ≡ out.old.items ++ hand_text self.now.worker what.now) }
    {
        push_count(out, "worker ", u64::from(self.worker))?;
        push(out, " has ")?;
        push(out, what)
    }

    /// Appends a name of the policy that is like the one that it lacks, where that is the reason.
    fn push_like(&self, out: &mut Vec<u8>, alloc: Global, reason: Reason) -> Result<(), AllocError>
        ensures { OnOk result (out.new.items ≡ out.old.items ++ like_text self.now reason) }
    {
        match reason {
            Reason::NoTenant => {
                let near = near_to(alloc, self.policy, Kind::Tenant, self.actor)?;
                push_near(out, near)
            }
            Reason::NoArena => {
                let near = near_to(alloc, self.policy, Kind::Arena, self.arena)?;
                push_near(out, near)
            }
            _ => Ok(()),
        }
    }

    /// Appends the words of a reason, with such a name where it is told.
    pub(crate) fn push_words(
        &self,
        out: &mut Vec<u8>,
        alloc: Global,
        tells: bool,
        reason: Reason,
    ) -> Result<(), AllocError>
        ensures { OnOk result (out.new.items
            ≡ out.old.items ++ words_text self.now tells reason) }
    {
        self.push_reason(out, reason)?;
        if tells {
            self.push_like(out, alloc, reason)?;
        }
        Ok(())
    }

    /// Appends the words of a reason.
    fn push_reason(&self, out: &mut Vec<u8>, reason: Reason) -> Result<(), AllocError>
        ensures { OnOk result (out.new.items ≡ out.old.items ++ reason_text self.now reason) }
    {
        match reason {
            Reason::NoTenant => push_pair(out, "the policy has no tenant ", self.actor),
            Reason::NoArena => push_pair(out, "the policy has no arena ", self.arena),
            Reason::NoSegment(segment) => push_no_segment(out, segment),
            Reason::Admits(arena) => self.push_admits(out, arena),
            Reason::Limit(charged) => self.push_limit(out, charged),
            Reason::Generation(generation) => push_generation(out, generation),
            Reason::Freed(line) => push_freed(out, line),
            Reason::Denies(between) => self.push_denies(out, between),
            Reason::Lets(between) => self.push_lets(out, between),
            Reason::Holder { segment, worker } => push_holds(out, segment, worker),
            Reason::TooLarge(bytes) => push_large(out, bytes),
            Reason::NoRoom(held) => self.push_room(out, held),
            Reason::NoWord(index) => { push_count(out, "the block has no word ", u64::from(index)) }
            Reason::InHand => {
                self.push_hand(out, "a block in hand, which it has to deliver first")
            }
            Reason::EmptyHand => self.push_hand(out, "nothing in hand"),
            Reason::NoneLeft(arena) => self.push_left(out, arena),
            Reason::Unserved(bound) => push_unserved(out, bound),
        }
    }
}

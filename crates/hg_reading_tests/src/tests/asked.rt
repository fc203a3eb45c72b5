//! What is asked of a policy: each helper asks one thing, for each row of a table.

use hg_place::{Actor, Right};
use hg_policy::Policy;
use hg_policy_text::{PolicyFault, read_policy};
use std::alloc::Global;
use std::process::Abort;

/// The policy that a document means.
pub(crate) fn read(rt: &impl Abort, alloc: Global, text: &str) -> Policy {
    read_policy(alloc, text.as_bytes()).expect(rt, "a policy")
}

/// The same, or nothing where memory was refused.
pub(crate) fn read_or_refused(rt: &impl Abort, alloc: Global, text: &str) -> Option<Policy> {
    match read_policy(alloc, text.as_bytes()) {
        Ok(policy) => Some(policy),
        Err(fault) => {
            assert!(rt; matches!(fault, PolicyFault::Memory), "another fault");
            drop(fault);
            None
        }
    }
}

/// So many workers, tenants, arenas and segments.
pub(crate) fn counts(rt: &impl Abort, policy: &Policy, want: [u8; 4]) {
    assert!(rt; policy.workers() == want[0], "workers");
    assert!(rt; policy.tenants() == want[1], "tenants");
    assert!(rt; policy.arenas() == want[2], "arenas");
    assert!(rt; policy.segments() == want[3], "segments");
}

/// The numbers of tenants.
pub(crate) fn tenants_are(rt: &impl Abort, policy: &Policy, rows: &[(&str, Option<u8>)]) {
    for (name, number) in rows {
        assert!(rt; policy.tenant(name) == *number, "tenant {name}");
    }
}

/// The names of tenants.
pub(crate) fn names_are(rt: &impl Abort, policy: &Policy, rows: &[(u8, Option<&str>)]) {
    for (number, name) in rows {
        assert!(rt; policy.tenant_name(*number) == *name, "tenant {number}");
    }
}

/// The numbers of arenas.
pub(crate) fn arenas_are(rt: &impl Abort, policy: &Policy, rows: &[(&str, Option<u8>)]) {
    for (name, number) in rows {
        assert!(rt; policy.arena(name) == *number, "arena {name}");
    }
}

/// The names of arenas.
pub(crate) fn arena_names_are(rt: &impl Abort, policy: &Policy, rows: &[(u8, Option<&str>)]) {
    for (number, name) in rows {
        assert!(rt; policy.arena_name(*number) == *name, "arena {number}");
    }
}

/// The limits of tenants.
pub(crate) fn limits_are(rt: &impl Abort, policy: &Policy, rows: &[(u8, Option<u64>)]) {
    for (tenant, limit) in rows {
        assert!(rt; policy.limit(*tenant) == *limit, "tenant {tenant}");
    }
}

/// The arenas of segments.
pub(crate) fn segments_are(rt: &impl Abort, policy: &Policy, rows: &[(u8, Option<u8>)]) {
    for (segment, arena) in rows {
        assert!(rt; policy.arena_of(*segment) == *arena, "segment {segment}");
    }
}

/// Whom arenas admit: a line for each arena, with a letter for each actor, `x` or `-`.
pub(crate) fn admits_are(rt: &impl Abort, policy: &Policy, table: &str) {
    let mut arena = 0u8;
    for line in table.lines() {
        let mut actor = 0u8;
        for letter in line.bytes() {
            let admits = policy.admits(arena, Actor(actor));
            assert!(rt; admits == (letter == b'x'), "arena {arena} actor {actor}");
            actor = actor.wrapping_add(1);
        }
        arena = arena.wrapping_add(1);
    }
}

/// What is asked of two tenants and a right.
#[derive(Clone, Copy)]
pub(crate) enum Which {
    Grants,
    Forbids,
}

fn says(policy: &Policy, which: Which, owner: u8, actor: u8, right: Right) -> bool {
    match which {
        Which::Grants => policy.grants(owner, Actor(actor), right),
        Which::Forbids => policy.forbids(owner, Actor(actor), right),
    }
}

/// The rights, with their letters.
static LETTERS: [(Right, char); 4] = [
    (Right::Read, 'r'),
    (Right::Write, 'w'),
    (Right::List, 'l'),
    (Right::Free, 'f'),
];

/// The rights of an actor on an owner's blocks are those whose letters stand here.
pub(crate) fn rights_are(
    rt: &impl Abort,
    policy: &Policy,
    which: Which,
    owner: u8,
    actor: u8,
    letters: &str,
) {
    for (right, letter) in &LETTERS {
        let is_said = says(policy, which, owner, actor, *right);
        let is_named = letters.contains(*letter);
        assert!(rt; is_said == is_named, "owner {owner} actor {actor}");
    }
}

/// The same of each owner, by lines, and each actor, by words.
pub(crate) fn table_is(rt: &impl Abort, policy: &Policy, which: Which, table: &str) {
    let mut owner = 0u8;
    for line in table.lines() {
        let mut actor = 0u8;
        for letters in line.split(' ') {
            rights_are(rt, policy, which, owner, actor, letters);
            actor = actor.wrapping_add(1);
        }
        owner = owner.wrapping_add(1);
    }
}

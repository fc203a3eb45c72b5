//! A copy of a policy answers as the policy does, and is there when the policy is gone.

use crate::tests::asked::{
    Which, admits_are, arena_names_are, arenas_are, counts, limits_are, names_are, read,
    read_or_refused, segments_are, table_is, tenants_are,
};
use hg_policy::Policy;
use std::alloc::Global;
use std::process::Abort;

const TEXT: &str = "\
version = 2
workers = 3
max_generation = 7
tenant = [
    {name = 'alice', limit = 8192},
    {name = 'bob', limit = 64},
    {name = 'carol', limit = 1},
]
arena = [
    {name = 'main', segments = 2},
    {name = 'vault', segments = 1, exclusive = ['staff']},
]
group = [{name = 'staff', members = ['carol', 'bob']}]
grant = [{owner = 'alice', to = 'staff', rights = ['read', 'free']}]
deny = [{owner = 'alice', to = 'carol', rights = ['free', 'list']}]
";

const GRANTED: &str = "\
rwlf r--f r--f ----
---- rwlf ---- ----
---- ---- rwlf ----
---- ---- ---- ----
";

const FORBIDDEN: &str = "\
---- ---- --lf ----
---- ---- ---- ----
---- ---- ---- ----
---- ---- ---- ----
";

/// What the text means.
fn is_meant(rt: &impl Abort, policy: &Policy) {
    counts(rt, policy, [3, 3, 2, 3]);
    assert!(rt; policy.max_generation() == 7, "greatest generation");
    names_are(
        rt,
        policy,
        &[
            (0, Some("alice")),
            (1, Some("bob")),
            (2, Some("carol")),
            (3, None),
        ],
    );
    tenants_are(rt, policy, &[("bob", Some(1)), ("staff", None)]);
    limits_are(
        rt,
        policy,
        &[(0, Some(8192)), (1, Some(64)), (2, Some(1)), (3, None)],
    );
    arenas_are(rt, policy, &[("main", Some(0)), ("vault", Some(1))]);
    arena_names_are(
        rt,
        policy,
        &[(0, Some("main")), (1, Some("vault")), (2, None)],
    );
    segments_are(
        rt,
        policy,
        &[(0, Some(0)), (1, Some(0)), (2, Some(1)), (3, None)],
    );
    admits_are(rt, policy, "xxx-\n-xx-\n----");
    table_is(rt, policy, Which::Grants, GRANTED);
    table_is(rt, policy, Which::Forbids, FORBIDDEN);
}

#[test]
fn a_copy_is_the_same(rt: HostRuntime) {
    let policy = read(&rt, rt.alloc(), TEXT);
    let copy = policy.copy(rt.alloc()).expect(&rt, "memory");
    is_meant(&rt, &policy);
    drop(policy);
    is_meant(&rt, &copy);
    drop(copy);
}

/// A copy of a policy without tenants and arenas.
#[test]
fn a_copy_of_nothing(rt: HostRuntime) {
    let text = "version = 1\nworkers = 1\ntenant = []\narena = []\n";
    let policy = read(&rt, rt.alloc(), text);
    let copy = policy.copy(rt.alloc()).expect(&rt, "memory");
    drop(policy);
    counts(&rt, &copy, [1, 0, 0, 0]);
    drop(copy);
}

/// The same policy, or want of memory; the first is as it was.
fn copies_or_refused(rt: &impl Abort, alloc: Global, policy: &Policy) {
    if let Ok(copy) = policy.copy(alloc) {
        is_meant(rt, &copy);
        drop(copy);
    }
    is_meant(rt, policy);
}

#[test]
fn copy_refused_in_turn(rt: HostRuntime) {
    if let Some(policy) = read_or_refused(&rt, rt.alloc(), TEXT) {
        copies_or_refused(&rt, rt.alloc(), &policy);
        drop(policy);
    }
}

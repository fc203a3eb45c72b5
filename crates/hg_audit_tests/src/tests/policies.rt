//! The policies of the tests: two tenants share the main arena, and a vault is for one alone.

use hg_policy::Policy;
use hg_policy_text::read_policy;
use std::alloc::Global;
use std::process::Abort;

pub const TWO_WORKERS: &str = r#"version = 1
workers = 2
tenant = [ {name = "alice", limit = 8192}, {name = "bob", limit = 64} ]
arena = [ {name = "main", segments = 2}, {name = "vault", segments = 1, exclusive = ["alice"]} ]
grant = [ {owner = "alice", to = "bob", rights = ["read", "free"]} ]
"#;

/// The same, where each place is given out once.
pub const ONE_LIFE: &str = r#"version = 1
workers = 2
max_generation = 1
tenant = [ {name = "alice", limit = 8192}, {name = "bob", limit = 64} ]
arena = [ {name = "main", segments = 2}, {name = "vault", segments = 1, exclusive = ["alice"]} ]
grant = [ {owner = "alice", to = "bob", rights = ["read", "free"]} ]
"#;

/// As for two workers, where alice has room for blocks of several pages.
pub const LARGE_BLOCKS: &str = r#"version = 1
workers = 2
tenant = [ {name = "alice", limit = 200000}, {name = "bob", limit = 64} ]
arena = [ {name = "main", segments = 2}, {name = "vault", segments = 1, exclusive = ["alice"]} ]
grant = [ {owner = "alice", to = "bob", rights = ["read", "free"]} ]
"#;

/// With other arenas: segment 1 is the vault's.
pub const OTHER_ARENAS: &str = r#"version = 1
workers = 2
tenant = [ {name = "alice", limit = 8192}, {name = "bob", limit = 64} ]
arena = [ {name = "main", segments = 1}, {name = "vault", segments = 2, exclusive = ["alice"]} ]
grant = [ {owner = "alice", to = "bob", rights = ["read", "free"]} ]
"#;

/// What such a text says.
pub fn policy_of(rt: &impl Abort, alloc: Global, text: &str) -> Policy {
    read_policy(alloc, text.as_bytes()).expect(rt, "a policy")
}

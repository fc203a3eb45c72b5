use hg_policy::Policy;
use hg_policy_text::{PolicyFault, read_policy};
use std::alloc::Global;

/// Two segments, two workers, and a tenant that may have as much as one page.
const DOCUMENT: &str = r#"version = 1
workers = 2
tenant = [ {name = "alice", limit = 4096} ]
arena = [ {name = "main", segments = 2} ]
"#;

/// A policy of two segments and two workers.
pub fn policy(alloc: Global) -> Result<Policy, PolicyFault> {
    read_policy(alloc, DOCUMENT.as_bytes())
}

//! What is wanted where a policy or a trace has a fault: what stands behind the fault's own line where
//! it is asked for; and names that are like another.
#![tactic(auto)]

mod alike;
mod keys;
mod policy;
mod policy_names;
mod push;
mod reason;
mod spot;
mod trace;
mod word;

pub use alike::near;
pub use policy::policy_hint;
pub use policy_names::{Kind, near_to, push_near};
pub use trace::trace_hint;

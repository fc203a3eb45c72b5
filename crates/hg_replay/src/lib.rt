//! Replays: what a core answers to a trace, as text; and runs of it from bytes to bytes.
#![tactic(auto)]

pub mod laws;
mod replaying;
mod run;

pub use replaying::fault::ReplayFault;
pub use replaying::known::Meant;
pub use replaying::put::{WriteStopped, put};
pub use replaying::sink::Sink;
pub use replaying::told::Told;
pub use replaying::{Ready, replay, start};
pub use run::check::run_check;
pub use run::fault::RunFault;
pub use run::input::{LIMIT, ReadFault, read_limited};
pub use run::status::Status;
pub use run::{run_joined, run_texts};

//! The words of a running service, in a table that keeps one run of all its calls beside the rule of
//! lives: each deciding step logs its calls, and who has all seats at the end knows the run.
#![tactic(auto)]

mod asked;
mod call;
mod calls;
mod decision;
mod joined_calls;
pub mod laws;
mod named_calls;
mod opening;
mod part;
mod plays;
mod rule;
mod segment;
mod steps;
mod table;

pub use call::{HandAndList, OtherPart, OwnCall, WorkerAndList, WorkerAndPool, WorkerCall};
pub use decision::{Asks, CutAt, Decision, StepsBy};
pub use opening::RunSeats;
pub use part::{Part, PartName, SeatView, Witness};
pub use rule::{RunRule, Words};
pub use segment::RunSegment;
pub use table::{RunSeat, RunTable};

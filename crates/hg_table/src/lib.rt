//! The slot words of running workers, in a table of atomic words: a word only goes forward in the
//! order of lives, and each life is ended by one seat.
#![tactic(auto)]

mod apart;
pub mod laws;
mod life_table;
mod name;
mod plays;
mod rule;
mod segment;
mod view;
mod words;
mod worker;

pub use life_table::{LifeTable, Seats};
pub use name::TableName;
pub use rule::{LifeRule, Words};
pub use segment::{SegmentSeat, UnnamedSegment};
pub use view::{Part, View};
pub use worker::{UnnamedWorker, WorkerSeat};

//! What a host asks a bank by numbers, and what it is answered in 16 bytes.
#![tactic(auto)]

mod asking;
mod at_once;
mod block;
pub mod laws;
mod replies;
mod serving;

pub use asking::{BankQuestion, answer, shut};
pub use at_once::{free_all, read_words, write_words};
pub use block::{BankBlock, core_of};
pub use replies::{alloc_reply, placed, refill_reply};
pub use serving::{grow, serve, worker_of};

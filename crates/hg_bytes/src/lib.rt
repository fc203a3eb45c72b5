//! Bytes of a block: each call is the list of Reads and Writes of words that it is proved to be,
//! one after another.
#![tactic(auto)]

mod laws;
mod of_bank;
mod of_core;
mod of_worker;
mod pieces;
mod progress;
mod reading;
mod store;
mod writing;

pub use laws::{
    bank_reads_are_a_cores, bank_writes_are_a_cores, each_word_has_bytes, reads_show_bytes,
    writes_put_bytes, written_is_read,
};
pub use of_bank::{BankBlock, read_bank_bytes, write_bank_bytes};
pub use of_core::{CoreBlock, read_core_bytes, write_core_bytes};
pub use of_worker::WorkerBlock;
pub use progress::Progress;
pub use reading::read_bytes;
pub use store::WordStore;
pub use writing::write_bytes;

//! Many words, or many Frees, in one call of a core: each is the list of events that it is proved to
//! be, one after another.
#![tactic(auto)]

mod freeing;
mod progress;
mod words;

pub use freeing::free_all;
pub use progress::Progress;
pub use words::{read_words, write_words};

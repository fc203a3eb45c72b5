//! What a host asks the parts of a service by numbers, and what it is answered in 16 bytes.
#![tactic(auto)]

mod asking;
mod closing;
mod dropping;
mod leaving;
mod listing;
mod opening;
mod part;
mod serving;
mod taking;
mod words;

pub use asking::{PartQuestion, answer, find};
pub use closing::close;
pub use dropping::{drop_service, drop_worker};
pub use leaving::leave;
pub use listing::{list, tell_rows};
pub use opening::open;
pub use part::{HostedPart, OpenService};
pub use serving::serve;
pub use taking::take_worker;
pub use words::{read_words, write_words};

//! What a host asks the parts of a bank of services by numbers, and what it is answered in 16 bytes.
#![tactic(auto)]

mod asking;
mod closing;
mod dropping;
mod leaving;
mod listing;
mod opening;
mod part;
mod serving;
mod taking;

pub use asking::{BankPartQuestion, answer, find};
pub use closing::close;
pub use dropping::{drop_service, drop_worker};
pub use leaving::leave;
pub use listing::list;
pub use opening::open;
pub use part::{BankPart, OpenBank, Ungiven};
pub use serving::serve;
pub use taking::take_worker;

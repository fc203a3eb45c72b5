//! What a host is answered in 16 bytes, and what the numbers and names mean by which it asks: the
//! same for each service that this library has.
#![tactic(auto)]

mod answering;
mod counting;
mod holders;
pub mod laws;
mod naming;
mod numbers;
mod reply;
pub mod status;
mod telling;

pub use answering::{look_reply, read_reply, write_reply};
pub use counting::count_reply;
pub use holders::holding;
pub use naming::{NOBODY, Name, find_number, tell_name, unnamed};
pub use numbers::{actor_of, byte_of, place_of};
pub use reply::{Reply, reply_of};
pub use telling::tell;

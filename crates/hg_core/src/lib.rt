//! The sequential core: it serves the events of its workers one after another, each as a step of
//! the written machine, and stays sound.
#![tactic(auto)]

mod abandoning;
mod allocating;
mod answers;
mod apart;
mod at_once;
mod auditing;
mod calling;
mod charging;
mod collecting;
mod delivering;
mod freeing;
mod hands;
mod kinds;
mod looking;
mod many;
mod opening;
mod pages;
mod places;
mod reaching;
mod reading;
mod records;
mod refilling;
mod refusals;
mod running;
mod serving;
mod stores;
mod taking;

pub use hg_audit::{AuditFault, AuditRoom, Parts};
pub use hg_heap::{HowFar, Refused};
pub use kinds::PlaceKind;
pub use records::{PlaceLife, PlaceRecord};
pub use refusals::{Freed, NoSegment, NotFreed, NotHeld, NothingInHand};
pub use serving::Core;

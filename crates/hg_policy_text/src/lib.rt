//! Policy documents: what one means, the first fault of one that means nothing, and the row of it
//! that a fault is told of.
#![tactic(auto)]

mod arenas;
mod document;
mod exclusive;
mod fault;
mod faulty;
mod grants;
mod groups;
mod heads;
mod key;
mod lines;
mod name_form;
mod one_line;
mod row;
mod tenants;
mod values;

pub use document::read_policy;
pub use fault::PolicyFault;
pub use faulty::faulty_row;
pub use key::{Counted, Key, Level};
pub use name_form::{is_name, is_name_byte};
pub use one_line::OneLine;
pub use row::Row;

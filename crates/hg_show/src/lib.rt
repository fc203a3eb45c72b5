//! What a policy says, as text and as JSON.
#![tactic(auto)]

mod arena_objects;
mod bands;
mod by_key;
mod document;
mod groups;
mod json;
mod lines;
mod matrix;
mod meant;
mod pairs;
mod parts;
mod push;
mod standings;
mod tenant_objects;
mod texts;
mod warnings;

pub use by_key::{rows, text_at};
pub use document::{show, show_json};

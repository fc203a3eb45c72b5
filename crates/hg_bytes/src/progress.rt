//! How far a call came.

use hg_machine::Answer;

/// How many bytes were read or written, and what the next word's Read or Write was answered, if it
/// was refused.
#[derive(Clone, Copy, Debug, PartialEq, Eq)]
pub struct Progress {
    pub done: usize,
    pub refused: Option<Answer>,
}

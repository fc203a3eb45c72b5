//! How far a call came.

use hg_heap::Refused;

/// How many words were read or written, and why the next wasn't, if one wasn't.
#[derive(Clone, Copy, Debug, PartialEq, Eq)]
pub struct Progress {
    pub done: usize,
    pub refused: Option<Refused>,
}

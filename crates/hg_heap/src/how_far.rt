use crate::Refused;

/// How many words of a block were read or written, and why the next one wasn't, if one wasn't.
#[derive(Clone, Copy, Debug, PartialEq, Eq)]
pub struct HowFar {
    pub done: usize,
    pub refused: Option<Refused>,
}

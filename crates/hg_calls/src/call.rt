use hg_machine::{Answer, Event};

/// A call of a worker, and what it was answered.
#[derive(Clone, Copy, Debug, PartialEq, Eq)]
pub struct Call {
    pub worker: u8,
    pub event: Event,
    pub answer: Answer,
}

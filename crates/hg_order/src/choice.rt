//! What a search comes to: at a call, at a front and at its end.

/// What became of a call that was tried.
#[derive(Clone, Copy, Debug, PartialEq, Eq)]
pub(crate) enum Tried {
    /// The core gave its answer.
    Agreed,
    /// The core gave another.
    Differed,
    /// And no order that goes on from here gives its own.
    Lost,
}

/// How a search ended.
#[derive(Clone, Copy, Debug, PartialEq, Eq)]
pub(crate) enum Ended {
    AtOrder,
    WithNone,
    GivenUp,
}

/// A front at which several calls may be next.
#[derive(Drop)]
pub(crate) struct Choice {
    /// How many calls came before it.
    pub at: usize,
    /// What tells it from other fronts and states.
    pub key: Vec<u64>,
    /// The workers whose calls weren't tried there, the last first.
    pub left: Vec<usize>,
    /// Whether a call was found that could be next.
    pub has_gone_on: bool,
}

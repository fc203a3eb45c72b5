//! Worked runs on a service, or on its parts, as data.

use crate::after::Then;
use crate::asked::{Asked, Block, Told};
use hg_close::CloseFault;

/// Two workers, two tenants that share the main arena, and a vault for one of them.
pub const DOCUMENT: &str = r#"version = 1
workers = 2
tenant = [ {name = "alice", limit = 8192}, {name = "bob", limit = 64} ]
arena = [ {name = "main", segments = 2}, {name = "vault", segments = 1, exclusive = ["alice"]} ]
grant = [ {owner = "alice", to = "bob", rights = ["read", "free"]} ]
"#;

/// What a run begins with.
#[derive(Clone, Copy)]
pub struct Beginning {
    pub document: &'static str,
    /// Whether it is of the parts of a service, in the hands of a host that locks by itself.
    pub is_of_parts: bool,
    /// How many workers of a service are taken at once.
    pub takes: u8,
    /// Whether memory may be refused once: then what is to close is asked once more.
    pub may_refuse: bool,
}

/// A service whose two workers are taken.
pub const BOTH: Beginning = Beginning {
    document: DOCUMENT,
    is_of_parts: false,
    takes: 2,
    may_refuse: false,
};

/// A service of which no worker is taken.
pub const NOBODY: Beginning = Beginning {
    document: DOCUMENT,
    is_of_parts: false,
    takes: 0,
    may_refuse: false,
};

/// The parts of a service.
pub const PARTS: Beginning = Beginning {
    document: DOCUMENT,
    is_of_parts: true,
    takes: 0,
    may_refuse: false,
};

/// A step of a run, and what must come of it. Workers stand there by their numbers.
pub enum Step {
    /// A worker is asked for, and whether there is one that nobody has taken yet.
    Takes(u8, bool),
    /// A worker answers an event so.
    Asks(u8, Asked, Told),
    /// Two workers meet at the place of a block, and see this word, whoever calls.
    Meets(u8, u8, Block, u64),
    Leaves(u8),
    Drops(u8),
    /// A worker sends what it has in hand to a list of the caller's own.
    SendsAway(u8),
    /// The place of a block comes on that list, and a worker takes it in from there, to segment 0.
    TakesAway(u8, Block),
    /// Worker 0 takes as many segments as this one after the other, and fills each with one block,
    /// which worker 1 frees and sends.
    SendsToEach(u8),
    /// It is asked to close, and goes on, for this reason.
    GoesOn(CloseFault),
    /// The same where memory was used up before, if it could be: then that is told first.
    GoesOnWithNone(CloseFault),
    /// The worker of the last number is no more among the parts.
    Misses(u8),
    /// As many workers as this leave one after the other, and each is told as out before.
    EachIsOut(u8),
    /// It is asked to close, and becomes a core.
    Closes,
    /// It is asked to close, and the place of a block is lost.
    Loses(Block),
}

/// A run from the opening of a service, and what comes once that has closed.
pub struct Run {
    pub name: &'static str,
    pub begins: Beginning,
    pub steps: &'static [Step],
    pub then: &'static [Then],
}

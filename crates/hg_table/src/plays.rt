//! What each step tells the seat that makes it, and how views are cut and joined.

ghost use Rattle.std.specs.Prelude.{[], ◌++◌};
ghost use Rattle.hg_table.specs.Steps.{kept_by, given_by, second_part, first_segment, nothing};
ghost use Rattle.hg_table.specs.Told.{looked, opened, closed, parted, took, met};

use crate::view::View;
use atomic_table::{Join, Play, Split};

pub(crate) struct Look;

impl Play<(), View> for Look {
    ghost then = { looked };
}

pub(crate) struct Open;

impl Play<(), View> for Open {
    ghost then = { opened };
}

pub(crate) struct Close;

impl Play<(), View> for Close {
    ghost then = { closed };
}

pub(crate) struct Part;

impl Play<(), View> for Part {
    ghost then = { parted };
}

pub(crate) struct Take;

impl Play<(), View> for Take {
    ghost then = { took };
}

/// A look of a seat that took in another.
pub(crate) struct Meet;

impl Play<(), View> for Meet {
    ghost then = { met };
}

/// Two seats become one, and two again.
pub(crate) struct Both;

impl Join<View> for Both {
    ghost both = { λ one other. one ++ other };

    ghost spent = { [] };
}

impl Split<View> for Both {
    ghost left = { kept_by second_part };

    ghost right = { given_by second_part };
}

/// The records of one segment go to a seat of its own.
pub(crate) struct NextSegment;

impl Split<View> for NextSegment {
    ghost left = { kept_by first_segment };

    ghost right = { given_by first_segment };
}

/// A worker's seat, which knows nothing yet.
pub(crate) struct NextWorker;

impl Split<View> for NextWorker {
    ghost left = { kept_by nothing };

    ghost right = { given_by nothing };
}

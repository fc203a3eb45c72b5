//! Laws of the lists. Each function does nothing: what it promises is the law.

ghost use Rattle.hg_lists.specs.Totals.{FrontAddsOne, RemovalTakesOne, RemovalOfNoneTakesNone};

/// A push puts one entry more on all lists together.
pub fn front_adds_one()
    ensures { FrontAddsOne }
{}

/// A removal of an entry that stands on a list takes one entry off all lists together, so a loop
/// that takes entries out comes to an end.
pub fn removal_takes_one()
    ensures { RemovalTakesOne }
{}

/// A removal of an entry that stands on no list leaves as many.
pub fn removal_of_none_takes_none()
    ensures { RemovalOfNoneTakesNone }
{}
